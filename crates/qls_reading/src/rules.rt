// The rules on the files of a reading, as it comes to them.
ghost use Rattle.std.specs.Prelude.{◌≡◌, ◌≤◌, length, drop, IfOk};
ghost use Rattle.qls_reading.specs.Tested.{front_claims, first_due, come_on, is_in_order};

use crate::fault::Damage;
use qls_filehdr::Rule;
use qls_record::{Head, Kind};
use qls_scan::HeadedFile;

// A place of a reading: the number of a file, and the place in it, in bytes.
#[derive(Clone, Copy)]
pub struct Spot {
    pub file: u64,
    pub at: u64,
}

// How far the reading of an epoch has come.
#[derive(Clone, Copy)]
pub struct Course {
    // How many files it has come to.
    pub came: usize,
    // The id of the last of them.
    pub id: u64,
    // Whether it has still to begin, at the first places of the oldest epoch's headers.
    pub given: bool,
}

// Tests the rules `first` and `rid` on the file: its header has this rid and this first place, where one is due.
pub fn check_front(file: &HeadedFile, first: Option<u64>, rid: u64) -> Result<(), Damage>
    ensures exact { result ≡ front_claims first rid file.now }
{
    if let Some(first) = first {
        if file.header.first != first {
            return Err((file.id, Rule::First));
        }
    }
    if file.header.rid != rid {
        return Err((file.id, Rule::Rid));
    }
    Ok(())
}

// Comes to the files up to a place of the reading, each tested with the rid in force.
pub fn come_to(files: &[HeadedFile], course: Course, rid: u64, spot: Spot) -> Result<Course, Damage>
    requires within { course.came ≤ length files.now }
    ensures exact { result ≡ come_on course rid spot (drop course.came files.now) }
    ensures within { IfOk result (λ to. to.came ≤ length files.now) }
    ensures onward { IfOk result (λ to. course.came ≤ to.came) }
{
    let ahead = &files[course.came..];
    let mut came = course;
    for file in ahead {
        if spot.file < file.header.number {
            break;
        }
        check_front(file, due(file, course.given, spot), rid)?;
        came.came += 1;
        came.id = file.id;
    }
    came.given = false;
    Ok(came)
}

// The first place that a file has to have where the reading comes to it at this place, or over it; none where it is given.
fn due(file: &HeadedFile, given: bool, spot: Spot) -> Option<u64>
    ensures exact { result ≡ first_due given spot file.now }
{
    if given {
        return None;
    }
    let end = 4_096 + 1_024 * u64::from(file.header.kib);
    if file.header.number == spot.file && spot.at < end {
        Some(spot.at)
    } else {
        Some(0)
    }
}

// Whether the record's rid is the one that follows the rid in force, below 2 ^ 62.
pub fn keeps_order(rid: u64, head: &Head) -> bool
    ensures exact { result ≡ is_in_order rid head.now.kind head.now.rid }
{
    let follows = match head.kind {
        Kind::Enqueue => rid.checked_add(1) == Some(head.rid),
        Kind::Dequeue | Kind::Commit | Kind::Abort | Kind::Filler => head.rid == rid,
    };
    follows && head.rid < 1 << 62
}
