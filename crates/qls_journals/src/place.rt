// Where a queue stands among the others, which are in order of their names.
ghost use Rattle.std.specs.Prelude.{◌≡◌, ◌≤◌, ◌<◌, None, Some, Result, Ok, Err, length, take, drop, slice_get, true};
ghost use Rattle.std.specs.List.{AllByRecursion};
ghost use Rattle.qls_model.specs.Bytes.{comes_before};
ghost use Rattle.qls_journals.specs.State.{queue_held, names_of, NamesRise};
ghost use Rattle.qls_journals.specs.Places.{IsPlace};

use qls_model::Name;
use qls_queue::LiveQueue;
use std::cmp::Ordering;

/// The place of the queue of this name, or the place at which it would stand: a binary search.
pub(crate) fn place_of(queues: &[LiveQueue], name: &Name) -> Result<usize, usize>
    requires rising { NamesRise (names_of queues.now) }
    ensures place { IsPlace queues.now name.now result }
{
    let mut low = 0;
    let mut high = queues.len();
    while low < high {
        let middle = low + (high - low) / 2;
        match queues[middle].name().as_slice().cmp(name.as_slice()) {
            Ordering::Equal => return Ok(middle),
            Ordering::Less => low = middle + 1,
            Ordering::Greater => high = middle,
        }
    }
    Err(low)
}
