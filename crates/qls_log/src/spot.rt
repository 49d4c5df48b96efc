// Where the records of a batch lie.
ghost use Rattle.std.specs.Prelude.{◌≡◌, ◌≤◌, ◌<◌, ◌^◌, map, IfOk, IsTrue};
ghost use Rattle.std.specs.List.{AllByRecursion};
ghost use Rattle.qls_shape.specs.declared.Version.TheVariants.{Two};
ghost use Rattle.qls_record.specs.Record.{is_legal};
ghost use Rattle.qls_blocks.specs.Batching.{laid_from};
ghost use Rattle.qls_log.specs.Spots.{spot_in, spot_of};

use qls_blocks::Batch;
use qls_model::{NoMemory, Seq};
use std::alloc::Global;

/// Where a record lies: the number of the file where it starts, the place in that file in bytes, and the number of the
/// file where its last byte lies, padding included. Numbers are those of files in their journal, and not ids.
#[derive(Clone, Copy, Debug, PartialEq, Eq)]
pub struct Spot {
    pub file: u64,
    pub at: u64,
    pub end_file: u64,
}

/// The spot of a record between two places that count from the data area of the file with number `present` on.
fn spot_at(place: u64, after: u64, capacity: u64, present: u64) -> Spot
    requires capacity { (4096 ≤ capacity) × (capacity < 2 ^ 40) }
    requires places { place < after }
    requires present { present < 2 ^ 62 }
    ensures exact { result ≡ spot_in capacity present place after }
{
    Spot {
        file: present + place / capacity,
        at: 4096 + place % capacity,
        end_file: present + (after - 1) / capacity,
    }
}

/// The spots of a batch's records, fillers left out, where the batch starts behind `used` bytes of the data area of the
/// file with number `present`. Each data area has `capacity` bytes.
pub(crate) fn spots(
    alloc: Global,
    batch: &Batch,
    used: u64,
    capacity: u64,
    present: u64,
) -> Result<Seq<Spot>, NoMemory>
    requires capacity { (4096 ≤ capacity) × (capacity < 2 ^ 40) }
    requires present { present < 2 ^ 62 }
    ensures exact { IfOk result (λ spots. spots ≡ map (spot_of capacity present) (laid_from used batch.now)) }
    ensures legal { AllByRecursion (λ r. IsTrue (is_legal Two r)) batch.now }
{
    let mut spots = Seq::new(alloc);
    let mut place = used;
    for at in 0..batch.len() {
        let after = place.checked_add(batch.length_at(at)).ok_or(NoMemory)?;
        spots.push(spot_at(place, after, capacity, present))?;
        place = after;
    }
    Ok(spots)
}
