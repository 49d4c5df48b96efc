// The scan of a site.
ghost use Rattle.std.specs.Prelude.{◌≡◌, Ok, not, map, IfOk, IfSome, OnOk};
ghost use Rattle.std.specs.List.{filter, AllByRecursion};
ghost use Rattle.qls_shape.specs.Claims.{each};
ghost use Rattle.qls_site.specs.Disk.{IdsRise, full};
ghost use Rattle.qls_site.specs.Content.{Tells, OnlyLooks};
ghost use Rattle.qls_meaning.specs.Journals.{is_in_use};
ghost use Rattle.qls_scan.specs.Found.{IsFound, IsFirstDamage, IsSound, HasCause, AreSpelledOn, greatest};

use crate::answers::{Found, ScanFault};
use crate::groups::group;
use crate::heads::read_heads;
use crate::rules::{check_chains, check_files};
use qls_model::{NoMemory, Seq};
use qls_site::{FileAt, Place, Site};
use std::alloc::Global;

/// The journals of a site, its empty files and its greatest id.
///
/// It is Damaged exactly where a rule fails that is seen without reading a record, with the first that fails and the
/// id of its file. In this order are tested: `id` on all files by id; `pool` on all empty files by id; `short`, the
/// rules of the header and `size` on the files in use by id, all of one file before the next; and `number`, `epoch`
/// and `home` on the files of each journal, by number and then id, all of one file before the next, the prepared list
/// first and then the queues in byte order of their names. In front of each file in use stands the one spelling of its
/// header.
///
/// It lists the site once and reads 4,096 bytes of each file in use that has them, and writes nothing. Failed comes
/// only where the site's count of faults rose. Apart from the reads it takes time in n log n.
pub fn scan<S: Site>(alloc: Global, site: &mut S) -> Result<Found, ScanFault>
    ensures found { IfSome (S.told site.old) (λ c. IfOk result (IsFound (full c.now.disk))) }
    ensures damage { IfSome (S.told site.old) (λ c. IsFirstDamage (full c.now.disk) result) }
    ensures rising { IfSome (S.told site.old) (λ c. IdsRise (full c.now.disk)) }
    ensures sound { IfOk result IsSound }
    ensures spelled { IfOk result (λ found. IfSome (S.told site.old) (λ c. AllByRecursion (AreSpelledOn c.now.disk) found.journals)) }
    ensures told { Tells OnlyLooks (S.told site.old) (S.told site.new) }
    ensures cause { HasCause (S.faults site.old) (S.faults site.new) result }
    ensures syncs { S.syncs site.new ≡ S.syncs site.old }
{
    let listed = site.list(alloc)?;
    let files = listed.as_slice();
    check_files(files)?;
    let heads = read_heads(alloc, site, files)?;
    let journals = group(alloc, heads)?;
    check_chains(journals.as_slice())?;
    Ok(Found {
        greatest: greatest_id(files),
        empties: empties_of(alloc, files)?,
        journals,
    })
}

// The greatest id, 0 where there is no file.
fn greatest_id(files: &[FileAt]) -> u64
    ensures exact { result ≡ greatest (map (λ f. f.id) files.now) }
{
    let mut greatest = 0;
    for file in files {
        greatest = file.id.max(greatest);
    }
    greatest
}

// The empty files.
fn empties_of(alloc: Global, files: &[FileAt]) -> Result<Seq<FileAt>, NoMemory>
    ensures exact { IfOk result (λ empties. empties ≡ filter (λ f. not (is_in_use f.place)) files.now) }
{
    let mut empties = Seq::new(alloc);
    for file in files {
        let Place::Empty { .. } = file.place else {
            continue;
        };
        empties.push(*file)?;
    }
    Ok(empties)
}
