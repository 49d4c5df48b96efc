// Files in epochs, and what a reader is told of them.
ghost use Rattle.std.specs.Prelude.{◌≡◌, ◌<◌, ◌≤◌, length, map, IfOk};
ghost use Rattle.qls_reading.specs.Groups.{first_run, spot_of, units_of, last_spot};

use crate::rules::Spot;
use qls_model::{NoMemory, Seq};
use qls_reader::FileSpot;
use qls_scan::HeadedFile;
use std::alloc::Global;

// How many files from the front on have the epoch of the first.
pub fn run_length(files: &[HeadedFile]) -> usize
    ensures exact { result ≡ length (first_run files.now) }
    ensures within { result ≤ length files.now }
{
    let Some((first, rest)) = files.split_first() else {
        return 0;
    };
    let mut count = 1;
    for file in rest {
        if file.header.epoch != first.header.epoch {
            break;
        }
        count += 1;
    }
    count
}

// What a reader is told of the files.
pub fn spots_of(alloc: Global, files: &[HeadedFile]) -> Result<Seq<FileSpot>, NoMemory>
    ensures exact { IfOk result (λ spots. spots ≡ map spot_of files.now) }
{
    let mut spots = Seq::new(alloc);
    for file in files {
        spots.push(FileSpot {
            id: file.id,
            number: file.header.number,
            serial: file.header.serial,
            kib: file.header.kib,
            first: file.header.first,
        })?;
    }
    Ok(spots)
}

// How many units of 128 bytes the data areas have: there are no more records.
pub fn units(files: &[HeadedFile]) -> u128
    ensures exact { result ≡ units_of files.now }
{
    let mut units = 0;
    for file in files {
        units += 8 * u128::from(file.header.kib);
    }
    units
}

// The end of the last file.
pub fn end_of(files: &[HeadedFile]) -> Spot
    requires some { 0 < length files.now }
    ensures exact { result ≡ last_spot files.now }
{
    let last = &files[files.len() - 1];
    Spot {
        file: last.header.number,
        at: 4_096 + 1_024 * u64::from(last.header.kib),
    }
}
