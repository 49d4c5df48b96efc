// The rules on listed files, and those on the files of a journal in a row.
ghost use Rattle.std.specs.Prelude.{◌≡◌, Ok, not, map, OnOk};
ghost use Rattle.std.specs.List.{filter};
ghost use Rattle.qls_shape.specs.Claims.{each};
ghost use Rattle.qls_meaning.specs.Journals.{is_in_use};
ghost use Rattle.qls_meaning.specs.Damage.{is_pool, next_claims, chain_claims};
ghost use Rattle.qls_scan.specs.Listed.{listed_id_claim, listed_pool_claim, listed_claims, ListedRise};
ghost use Rattle.qls_scan.specs.Found.{with_no_area};

use crate::answers::{Damage, HeadedFile, JournalFiles};
use qls_filehdr::Rule;
use qls_site::{FileAt, Place};

// Tests the rules that a listing shows: `id` on each file, and then `pool` on each empty file.
pub fn check_files(files: &[FileAt]) -> Result<(), Damage>
    ensures rules { ListedRise files.now → result ≡ listed_claims files.now }
    ensures kept { OnOk result (listed_claims files.now ≡ Ok tt) }
    ensures rising { OnOk result (ListedRise files.now) }
{
    check_ids(files)?;
    check_order(files)?;
    check_pools(files)
}

// Tests the rule `id` on each file: an id is at least 1 and below 2^62.
fn check_ids(files: &[FileAt]) -> Result<(), Damage>
    ensures exact { result ≡ each listed_id_claim files.now }
{
    for file in files {
        if file.id < 1 || file.id >= 1 << 62 {
            return Err((file.id, Rule::Id));
        }
    }
    Ok(())
}

// Tests that no id comes twice, and that they rise. A site that tells its files lists them so; where one that doesn't
// tell them lists an id again, that is the rule `id`.
fn check_order(files: &[FileAt]) -> Result<(), Damage>
    requires ids { each listed_id_claim files.now ≡ Ok tt }
    ensures rising { OnOk result (ListedRise files.now) }
    ensures where_rising { ListedRise files.now → result ≡ Ok tt }
{
    let mut last = 0;
    for file in files {
        if file.id <= last {
            return Err((file.id, Rule::Id));
        }
        last = file.id;
    }
    Ok(())
}

// Tests the rule `pool` on each empty file.
fn check_pools(files: &[FileAt]) -> Result<(), Damage>
    ensures exact { result ≡ each listed_pool_claim (filter (λ f. not (is_in_use f.place)) files.now) }
{
    for file in files {
        if !keeps_pool(file) {
            return Err((file.id, Rule::Pool));
        }
    }
    Ok(())
}

// Whether an empty file is of a pool within the limits, and of that pool's size.
fn keeps_pool(file: &FileAt) -> bool
    ensures exact { result ≡ is_pool file.now.size file.now.place }
{
    match file.place {
        Place::InUse => true,
        Place::Empty { part, kib } => {
            1 <= part
                && part <= 999
                && 4 <= kib
                && kib <= 65_536
                && kib % 4 == 0
                && file.size == 4_096 + 1_024 * u64::from(kib)
        }
    }
}

// Tests the rules `number`, `epoch` and `home` on each journal.
pub fn check_chains(journals: &[JournalFiles]) -> Result<(), Damage>
    ensures exact { result ≡ each (λ j. chain_claims (map with_no_area j.files)) journals.now }
{
    for journal in journals {
        check_chain(journal.files.as_slice())?;
    }
    Ok(())
}

// Tests each file of a journal against the one before it.
fn check_chain(files: &[HeadedFile]) -> Result<(), Damage>
    ensures exact { result ≡ chain_claims (map with_no_area files.now) }
{
    let Some((first, rest)) = files.split_first() else {
        return Ok(());
    };
    let mut before = first;
    for file in rest {
        check_next(before, file)?;
        before = file;
    }
    Ok(())
}

// Tests a file against the one before it: its number is one more, its epoch no less, its pool the same.
fn check_next(before: &HeadedFile, file: &HeadedFile) -> Result<(), Damage>
    ensures exact { result ≡ next_claims (with_no_area before.now) (with_no_area file.now) }
{
    if before.header.number.checked_add(1) != Some(file.header.number) {
        return Err((file.id, Rule::Number));
    }
    if file.header.epoch < before.header.epoch {
        return Err((file.id, Rule::Epoch));
    }
    if file.header.part != before.header.part || file.header.kib != before.header.kib {
        return Err((file.id, Rule::Home));
    }
    Ok(())
}
