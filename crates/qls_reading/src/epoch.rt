// The reading of an epoch.
ghost use Rattle.std.specs.Prelude.{◌≡◌, ◌<◌, ◌≤◌, ℕ, [], false, length, map, Err, IfOk, IfSome};
ghost use Rattle.std.specs.List.{AllByRecursion};
ghost use Rattle.qls_site.specs.Content.{Tells, OnlyLooks};
ghost use Rattle.qls_scan.specs.Heads.{HasLegalHeader};
ghost use Rattle.qls_reader.specs.Spots.{begin_of};
ghost use Rattle.qls_reading.specs.declared.fault.LogFault.TheVariants.{Failed};
ghost use Rattle.qls_reading.specs.ReadLogs.{LogCauses};
ghost use Rattle.qls_reading.specs.Groups.{spot_of, AreCounted};
ghost use Rattle.qls_reading.specs.Tested.{IsBegun, IsTallied, begun, ended, TakesRecord};
ghost use Rattle.qls_reading.specs.Left.{AreOnSite, files_on, ReadsOn, ReadsEpoch};

use crate::fault::{Damage, LogFault};
use crate::groups::{end_of, spots_of, units};
use crate::rules::{Course, Spot, check_front, come_to};
use crate::tally::{Tally, add};
use qls_filehdr::Rule;
use qls_reader::{Next, Reader};
use qls_record::Got;
use qls_scan::HeadedFile;
use qls_site::Site;
use std::alloc::Global;

// Reads an epoch's files, which are the journal's oldest or aren't, and its last or aren't. Answers how many files lie past
// the end of the reading.
pub fn read_epoch<S: Site>(
    alloc: Global,
    site: &mut S,
    files: &[HeadedFile],
    oldest: bool,
    last: bool,
    tally: &mut Tally,
) -> Result<u64, LogFault>
    requires some { 0 < length files.now }
    requires legal { AllByRecursion HasLegalHeader files.now }
    requires counted { AreCounted files.now }
    requires there { IfSome (S.told site.old) (AreOnSite files.now) }
    ensures says { IfSome (S.told site.old) (λ c. ReadsEpoch oldest last (files_on c.now.disk files.now) tally.old tally.new result) }
    ensures given { IfOk result (λ _. (rid : ℕ) → IsTallied rid tally.old → IsTallied rid tally.new) }
    ensures within { IfOk result (λ past. past < length files.now) }
    ensures told { Tells OnlyLooks (S.told site.old) (S.told site.new) }
    ensures cause { LogCauses (S.faults site.old) (S.faults site.new) result }
    ensures syncs { S.syncs site.new ≡ S.syncs site.old }
{
    let spots = spots_of(alloc, files)?;
    let mut reader = Reader::new(alloc, spots, oldest);
    let course = begin(files, oldest, tally.rid)?;
    let end = read_on(site, files, &mut reader, course, tally)?;
    let past = check_end(files, last, end)?;
    Ok(past)
}

// Comes to the first file, which is tested where it isn't the journal's oldest: the reading of its epoch begins there.
fn begin(files: &[HeadedFile], oldest: bool, rid: u64) -> Result<Course, Damage>
    requires some { 0 < length files.now }
    ensures exact { result ≡ begun oldest rid files.now }
{
    let file = &files[0];
    if !oldest {
        check_front(file, Some(4_096), rid)?;
    }
    Ok(Course {
        came: 1,
        id: file.id,
        given: oldest,
    })
}

// Tests the rule `end` where the epoch isn't the journal's last, and answers how many files the reading hasn't come to.
fn check_end(files: &[HeadedFile], last: bool, end: Course) -> Result<u64, Damage>
    requires within { end.came ≤ length files.now }
    ensures exact { result ≡ ended last (length files.now) end }
{
    let past = files.len() - end.came;
    if !last && past > 0 {
        return Err((end.id, Rule::End));
    }
    Ok(past as u64)
}

// Reads on to the end of the epoch, from the beginning of its reading.
fn read_on<S: Site>(
    site: &mut S,
    files: &[HeadedFile],
    reader: &mut Reader,
    from: Course,
    tally: &mut Tally,
) -> Result<Course, LogFault>
    requires begun { IsBegun files.now from }
    requires legal { AllByRecursion HasLegalHeader files.now }
    requires counted { AreCounted files.now }
    requires reader { reader.old ≡ record { files = map spot_of files.now; place = begin_of from.given (map spot_of files.now); held = []; ended = false } }
    requires there { IfSome (S.told site.old) (AreOnSite files.now) }
    ensures says { IfSome (S.told site.old) (λ c. ReadsOn (files_on c.now.disk files.now) from tally.old tally.new result) }
    ensures given { IfOk result (λ _. (rid : ℕ) → IsTallied rid tally.old → IsTallied rid tally.new) }
    ensures within { IfOk result (λ to. to.came ≤ length files.now) }
    ensures some { IfOk result (λ to. 0 < to.came) }
    ensures told { Tells OnlyLooks (S.told site.old) (S.told site.new) }
    ensures cause { LogCauses (S.faults site.old) (S.faults site.new) result }
    ensures syncs { S.syncs site.new ≡ S.syncs site.old }
{
    let mut course = from;
    for _ in 0..units(files) {
        match reader.next(site)? {
            Next::End { file, at } => {
                let end = come_to(files, course, tally.rid, Spot { file, at })?;
                return Ok(end);
            }
            Next::Got(got) => course = take(files, course, tally, got)?,
        }
    }
    let end = come_to(files, course, tally.rid, end_of(files))?;
    Ok(end)
}

// Comes to the place where the record starts, and takes it.
fn take(
    files: &[HeadedFile],
    course: Course,
    tally: &mut Tally,
    got: Got,
) -> Result<Course, LogFault>
    requires within { course.came ≤ length files.now }
    ensures takes { TakesRecord files.now course tally.old tally.new got result }
    ensures within { IfOk result (λ to. to.came ≤ length files.now) }
    ensures onward { IfOk result (λ to. course.came ≤ to.came) }
    ensures unfailed { result ≡ Err Failed → ⊥ }
{
    let spot = Spot {
        file: got.file,
        at: got.at,
    };
    let course = come_to(files, course, tally.rid, spot)?;
    add(tally, got, course.id)?;
    Ok(course)
}
