// Files that go back to their pool: which, when, and with what bytes.
use crate::growing::{check_header, number_at, puts};
use crate::outside::{image_before_end, new_site, run_on};
use qls_model::{Bytes, Seq};
use qls_site::{ImageFile, Place};
use std::alloc::Global;
use std::process::Abort;
use std::test::Fail;

// Runs a script over files of 4 KiB, and hands out what a crash leaves behind it.
pub(crate) fn left_by(
    rt: &impl Abort,
    alloc: Global,
    script: &str,
    answers: &str,
) -> Result<Seq<ImageFile>, Fail> {
    let mut site = new_site(alloc);
    let bytes = Bytes::new(alloc, script.as_bytes())?;
    let status = run_on(alloc, "d run 1 4", bytes, 65_536, &mut site)?;
    assert_eq!(rt; status, 0, "{script}");
    assert_eq!(rt; site.answered(), answers.as_bytes(), "{script}");
    image_before_end(rt, alloc, &site, 0)
}

// A file of 4 KiB lies here.
pub(crate) fn check_place(
    rt: &impl Abort,
    files: &Seq<ImageFile>,
    at: usize,
    id: u64,
    place: Place,
) {
    assert_eq!(rt;
        files.get(at).map(|file| (file.id, file.place)),
        Some((id, place))
    );
}

pub(crate) const POOL: Place = Place::Empty { part: 1, kib: 4 };

#[test]
fn a_file_goes_back_with_all_its_bytes(rt: HostRuntime) -> Result<(), Fail> {
    let alloc = rt.alloc();
    let before = left_by(&rt, alloc, "queue a\nput a 01\n", "ok\nok 1\n")?;
    let script = "queue a\nput a 01\ntake a 1\n";
    let files = left_by(&rt, alloc, script, "ok\nok 1\nok\n")?;
    assert_eq!(rt; files.len(), 2);
    check_place(&rt, &files, 0, 1, POOL);
    check_place(&rt, &files, 1, 2, Place::InUse);
    let (old, new) = (
        before.get(0).ok_or("no file")?,
        files.get(0).ok_or("no file")?,
    );
    assert!(rt; old.bytes.as_slice() == new.bytes.as_slice());
    check_header(&rt, &files, 1, 4_096, 1)
}

// The new queue's file was the old one's, and what lies there with the old serial isn't read.
#[test]
fn a_file_that_went_back_is_taken_by_another_queue(rt: HostRuntime) -> Result<(), Fail> {
    let alloc = rt.alloc();
    let script = "queue a\nput a 01\ntake a 1\nqueue b\nlist b\n";
    let files = left_by(&rt, alloc, script, "ok\nok 1\nok\nok\nok 0\n")?;
    assert_eq!(rt; files.len(), 2);
    check_place(&rt, &files, 0, 1, Place::InUse);
    check_place(&rt, &files, 1, 2, Place::InUse);
    assert_eq!(rt; number_at(&files, 0, 8), Some(9));
    assert_eq!(rt; number_at(&files, 0, 40), Some(1));
    assert_eq!(rt; number_at(&files, 0, 4_104), Some(7));
    Ok(())
}

#[test]
fn a_queue_that_is_dropped_leaves_its_file(rt: HostRuntime) -> Result<(), Fail> {
    let alloc = rt.alloc();
    let script = "queue a\nput a 01\ntake a 1\ntake a 1\ndrop a\nqueue a\nput a 02\n";
    let answers = "ok\nok 1\nok\nrefused message\nok\nok\nok 1\n";
    let files = left_by(&rt, alloc, script, answers)?;
    assert_eq!(rt; files.len(), 2);
    check_place(&rt, &files, 0, 1, Place::InUse);
    check_place(&rt, &files, 1, 2, POOL);
    assert_eq!(rt; number_at(&files, 0, 8), Some(9));
    Ok(())
}

// While the first message is held no file goes back; with it the files of all that were taken before go.
#[test]
fn a_message_holds_its_file_and_all_behind_it(rt: HostRuntime) -> Result<(), Fail> {
    let alloc = rt.alloc();
    let script = "queue a\nput a 01\nput a 02\nput a 03\ntake a 2\ntake a 3\n";
    let files = left_by(&rt, alloc, script, "ok\nok 1\nok 2\nok 3\nok\nok\n")?;
    assert_eq!(rt; files.len(), 5);
    for at in 0..5 {
        check_place(&rt, &files, at, at as u64 + 1, Place::InUse);
    }
    let script = "queue a\nput a 01\nput a 02\nput a 03\ntake a 2\ntake a 3\ntake a 1\n";
    let files = left_by(&rt, alloc, script, "ok\nok 1\nok 2\nok 3\nok\nok\nok\n")?;
    assert_eq!(rt; files.len(), 6);
    for at in 0..5 {
        check_place(&rt, &files, at, at as u64 + 1, POOL);
    }
    check_place(&rt, &files, 5, 6, Place::InUse);
    Ok(())
}

// A body over files 1 to 4 holds all of them, and they go back together.
#[test]
fn a_long_message_holds_each_of_its_files(rt: HostRuntime) -> Result<(), Fail> {
    let alloc = rt.alloc();
    let mut script = puts(alloc, &[16_000, 1])?;
    script.add(b"take a 1\n")?;
    let mut site = new_site(alloc);
    let status = run_on(alloc, "d run 1 4", script, 65_536, &mut site)?;
    assert_eq!(rt; status, 0);
    assert_eq!(rt; site.answered(), b"ok\nok 1\nok 2\nok\n".as_slice());
    let files = image_before_end(&rt, alloc, &site, 0)?;
    assert_eq!(rt; files.len(), 6);
    for at in 0..4 {
        check_place(&rt, &files, at, at as u64 + 1, POOL);
    }
    check_place(&rt, &files, 4, 5, Place::InUse);
    check_place(&rt, &files, 5, 6, Place::InUse);
    Ok(())
}

// However many rounds of a put and a take: two files.
#[test]
fn files_are_used_again(rt: HostRuntime) -> Result<(), Fail> {
    let alloc = rt.alloc();
    let mut script = Bytes::new(alloc, b"queue a\n")?;
    for round in 1..40 {
        script.add(b"put a 01\ntake a ")?;
        script.add(format!(in alloc; "{round}\n")?.as_bytes())?;
    }
    let mut site = new_site(alloc);
    let status = run_on(alloc, "d run 1 4", script, 65_536, &mut site)?;
    assert_eq!(rt; status, 0);
    let files = image_before_end(&rt, alloc, &site, 0)?;
    assert_eq!(rt; files.len(), 2);
    assert_eq!(rt; number_at(&files, 1, 40), Some(78));
    assert_eq!(rt; number_at(&files, 1, 16), Some(39));
    Ok(())
}
