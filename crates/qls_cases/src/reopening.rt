// Runs on a store that an earlier run left: what they find, where they go on, and what a damaged one is answered.
ghost use Rattle.std.specs.Prelude.{◌≡◌, IfOk};
ghost use Rattle.qls_cases.specs.Resting.{Rests};

use crate::growing::{number_at, puts};
use crate::outside::{check_same, image_before_end, new_site, run_from, site_on, words_of};
use crate::pools::empty_file;
use crate::returning::{POOL, check_place};
use crate::showing::changed_file;
use qls_memsite::{CallKind, MemSerials, MemSite, MemSource};
use qls_model::{Bytes, Seq};
use qls_site::{ImageFile, Place, Serials, Source};
use qls_top::run;
use std::alloc::Global;
use std::process::Abort;
use std::test::Fail;

// Runs a script with serials from this one: it ends well, and is answered this.
pub(crate) fn check_run(
    rt: &impl Abort,
    alloc: Global,
    site: &mut MemSite,
    words: &str,
    serial: u64,
    script: &str,
    answers: &str,
) -> Result<(), Fail>
    requires quiet { Rests site.old }
    ensures rests { IfOk result (λ _. Rests site.new) }
{
    let before = site.answered().len();
    let bytes = Bytes::new(alloc, script.as_bytes())?;
    let status = run_from(alloc, words, bytes, 65_536, serial, site)?;
    assert_eq!(rt; status, 0, "{script}");
    assert_eq!(rt;
        site.answered().get(before..),
        Some(answers.as_bytes()),
        "{script}"
    );
    Ok(())
}

// A script and its answers, and then those of the next run.
const RUNS: [(&str, &str, &str, &str); 8] = [
    ("", "", "queue a\n", "ok\n"),
    (
        "queue a\nput a 6869\n",
        "ok\nok 1\n",
        "list a\nput a 01\nlist a\n",
        "ok 1\n1 ready 6869\nok 2\nok 2\n1 ready 6869\n2 ready 01\n",
    ),
    (
        "queue a\nput a 0a\nput a 0b\ntake a 1\ntake a 2\n",
        "ok\nok 1\nok 2\nok\nok\n",
        "list a\nput a 0c\ndrop a\ntake a 3\ndrop a\nlist a\n",
        "ok 0\nok 3\nrefused busy\nok\nok\nrefused queue\n",
    ),
    (
        "queue a\nqueue b\ndrop a\n",
        "ok\nok\nok\n",
        "list a\nqueue a\nput a 01\nqueue b\n",
        "refused queue\nok\nok 1\nrefused exists\n",
    ),
    (
        "queue a\nput a 0a\nbegin 01\ntake a 1 in 01\nput a 0b in 01\n",
        "ok\nok 1\nok\nok\nok 2\n",
        "doubt\nlist a\nput a 0c\nbegin 01\n",
        "ok 0\nok 1\n1 ready 0a\nok 3\nok\n",
    ),
    (
        "queue a\nqueue b\nbegin 01\nput a 0a in 01\nput b 0b in 01\nprepare 01\n",
        "ok\nok\nok\nok 1\nok 1\nok\n",
        "doubt\nlist a\ndrop a\ncommit 01\nlist a\nlist b\ndoubt\n",
        "ok 1\n01\nok 1\n1 coming 01 0a\nrefused busy\nok\nok 1\n1 ready 0a\nok 1\n1 ready 0b\nok 0\n",
    ),
    (
        "queue a\nput a 0a\nbegin 01\ntake a 1 in 01\nprepare 01\nbegin 02\nprepare 02\n",
        "ok\nok 1\nok\nok\nok\nok\nok\n",
        "doubt\ntake a 1\nabort 01\nlist a\nbegin 02\ndoubt\n",
        "ok 2\n01\n02\nrefused locked\nok\nok 1\n1 ready 0a\nrefused exists\nok 1\n02\n",
    ),
    (
        "queue a\nbegin 01\nput a 0a in 01\ncommit 01\n",
        "ok\nok\nok 1\nok\n",
        "list a\ndoubt\nbegin 01\ncommit 01\n",
        "ok 1\n1 ready 0a\nok 0\nok\nok\n",
    ),
];

#[test]
fn a_run_goes_on_where_the_last_one_ended(rt: HostRuntime) -> Result<(), Fail> {
    let alloc = rt.alloc();
    for (first, answers, second, replies) in RUNS {
        let mut site = new_site(alloc);
        check_run(&rt, alloc, &mut site, "d run 1 4", 7, first, answers)?;
        check_run(&rt, alloc, &mut site, "d run 1 4", 107, second, replies)?;
    }
    Ok(())
}

// The second run ends the open transaction, and the third finds nothing to do.
#[test]
fn a_settled_store_is_opened_without_a_write(rt: HostRuntime) -> Result<(), Fail> {
    let alloc = rt.alloc();
    let mut site = new_site(alloc);
    let script =
        "queue a\nput a 0a\nbegin 01\ntake a 1 in 01\nbegin 02\nput a 0b in 02\nprepare 02\n";
    let answers = "ok\nok 1\nok\nok\nok\nok 2\nok\n";
    check_run(&rt, alloc, &mut site, "d run 1 4", 7, script, answers)?;
    let syncs = site.sync_count();
    check_run(&rt, alloc, &mut site, "d run 1 4", 107, "", "")?;
    assert!(rt; syncs < site.sync_count());
    let (files, syncs) = (image_before_end(&rt, alloc, &site, 0)?, site.sync_count());
    check_run(&rt, alloc, &mut site, "d run 1 4", 207, "", "")?;
    assert_eq!(rt; site.sync_count(), syncs);
    check_same(&rt, &files, &image_before_end(&rt, alloc, &site, 0)?);
    Ok(())
}

// These numbers stand in the header of a file in use.
fn check_numbers(rt: &impl Abort, files: &Seq<ImageFile>, at: usize, numbers: &[(usize, u64)]) {
    assert_eq!(rt; files.get(at).map(|file| file.place), Some(Place::InUse));
    for (from, wanted) in numbers {
        assert_eq!(rt;
            number_at(files, at, *from),
            Some(*wanted),
            "file {at} at {from}"
        );
    }
}

// The first file has room for a second block, and it stays empty. Queue a's files are of its own pool whatever the words say.
#[test]
fn a_journal_goes_on_in_a_file_of_the_next_epoch(rt: HostRuntime) -> Result<(), Fail> {
    let alloc = rt.alloc();
    let mut site = new_site(alloc);
    let script = "queue a\nput a 01\n";
    check_run(&rt, alloc, &mut site, "d run 1 8", 7, script, "ok\nok 1\n")?;
    let script = "put a 02\nput a 03\nqueue b\nput b 04\n";
    let answers = "ok 2\nok 3\nok\nok 1\n";
    check_run(&rt, alloc, &mut site, "d run 2 4", 107, script, answers)?;
    let files = image_before_end(&rt, alloc, &site, 0)?;
    assert_eq!(rt; files.len(), 3);
    check_numbers(&rt, &files, 0, &[(8, 7), (40, 1), (48, 1), (8_192, 0)]);
    // serial, rid, pool, first place, number, epoch
    let second = [
        (8, 107),
        (16, 1),
        (24, (8 << 32) + 1),
        (32, 4_096),
        (40, 2),
        (48, 2),
    ];
    check_numbers(&rt, &files, 1, &second);
    let other = [
        (8, 108),
        (16, 0),
        (24, (4 << 32) + 2),
        (32, 4_096),
        (40, 1),
        (48, 1),
    ];
    check_numbers(&rt, &files, 2, &other);
    Ok(())
}

// The message goes over two files, of which only the headers were synced.
#[test]
fn a_file_that_a_crash_left_behind_goes_back(rt: HostRuntime) -> Result<(), Fail> {
    let alloc = rt.alloc();
    let mut site = new_site(alloc);
    let script = puts(alloc, &[4_033])?;
    let status = run_from(alloc, "d run 1 4", script, 65_536, 7, &mut site)?;
    assert_eq!(rt; status, 0);
    // before the two syncs, and the answer
    let left = image_before_end(&rt, alloc, &site, 3)?;
    let [one, two] = left.as_slice() else {
        return Err(Fail::from("not two files"));
    };
    let mut files = Seq::new(alloc);
    for (id, file) in [(1, one), (2, two)] {
        assert_eq!(rt; (file.id, file.place), (id, Place::InUse));
    }
    files.push(ImageFile {
        id: 1,
        place: Place::InUse,
        bytes: one.bytes.copy()?,
    })?;
    files.push(ImageFile {
        id: 2,
        place: Place::InUse,
        bytes: two.bytes.copy()?,
    })?;
    let mut site = site_on(alloc, files)?;
    check_run(&rt, alloc, &mut site, "d run 1 4", 107, "", "")?;
    let files = image_before_end(&rt, alloc, &site, 0)?;
    assert_eq!(rt; files.len(), 2);
    check_place(&rt, &files, 0, 1, Place::InUse);
    check_place(&rt, &files, 1, 2, POOL);
    let script = "list a\nput a 01\nlist a\n";
    let answers = "ok 0\nok 1\nok 1\n1 ready 01\n";
    check_run(&rt, alloc, &mut site, "d run 1 4", 207, script, answers)?;
    let files = image_before_end(&rt, alloc, &site, 0)?;
    check_numbers(&rt, &files, 1, &[(8, 207), (16, 0), (40, 2), (48, 2)]);
    Ok(())
}

// A run that opens a store of two queues with two files each, where this read fails, ends with this status and this answer.
fn check_reads(
    rt: &impl Abort,
    alloc: Global,
    failing: u64,
    status: u8,
    answer: &str,
) -> Result<(), Fail> {
    let mut site = new_site(alloc);
    let script = "queue a\nqueue b\nput a 01\nput a 02\nput b 01\nput b 02\n";
    let replies = "ok\nok\nok 1\nok 2\nok 1\nok 2\n";
    check_run(rt, alloc, &mut site, "d run 1 4", 7, script, replies)?;
    let files = image_before_end(rt, alloc, &site, 0)?;
    assert_eq!(rt; files.len(), 4);
    let before = site.answered().len();
    site.fail_call(CallKind::Read, failing)?;
    let script = Bytes::new(alloc, b"list a\n")?;
    let ended = run_from(alloc, "d run 1 4", script, 9, 107, &mut site)?;
    assert_eq!(rt; ended, status, "{failing}");
    assert_eq!(rt;
        site.answered().get(before..),
        Some(answer.as_bytes()),
        "{failing}"
    );
    Ok(())
}

// In each block are a message and 31 fillers. An opening makes eight reads, one of each header and one of each data area, so
// that the eighth fails it and a ninth never comes.
#[test]
fn an_opening_reads_each_file_once(rt: HostRuntime) -> Result<(), Fail> {
    let alloc = rt.alloc();
    check_reads(&rt, alloc, 8, 5, "")?;
    check_reads(&rt, alloc, 9, 0, "ok 2\n1 ready 01\n2 ready 02\n")?;
    Ok(())
}

// ---- a damaged store

// A run on a store of this one file ends with the line of its damage; no file changes, and neither script nor serials are
// touched.
fn check_damaged(rt: &impl Abort, alloc: Global, file: ImageFile, line: &str) -> Result<(), Fail> {
    let mut files = Seq::new(alloc);
    files.push(file)?;
    let mut site = site_on(alloc, files)?;
    let files = image_before_end(rt, alloc, &site, 0)?;
    let words = words_of(alloc, "d run 1 4")?;
    let mut source = MemSource::new(alloc, Bytes::new(alloc, b"queue b\n")?, 9);
    let mut serials = MemSerials::counting(7);
    let status = run(alloc, &words, &mut source, &mut site, &mut serials);
    assert_eq!(rt; status, 3, "{line}");
    assert_eq!(rt; site.answered(), line.as_bytes());
    assert_eq!(rt; site.sync_count(), 0);
    check_same(rt, &files, &image_before_end(rt, alloc, &site, 0)?);
    let mut script = [0; 9];
    assert_eq!(rt; source.read(&mut script), Ok(8));
    assert_eq!(rt; serials.draw(), Ok(7));
    Ok(())
}

#[test]
fn a_run_on_a_damaged_store_answers_its_damage(rt: HostRuntime) -> Result<(), Fail> {
    let alloc = rt.alloc();
    let file = changed_file(alloc, 48, 3)?;
    check_damaged(&rt, alloc, file, "damaged file 1 rule checksum\n")?;
    for (id, part, kib, size, line) in [
        (0, 1, 4, 8_192, "damaged file 0 rule id\n"),
        (
            1 << 62,
            1,
            4,
            8_192,
            "damaged file 4611686018427387904 rule id\n",
        ),
        (5, 0, 4, 8_192, "damaged file 5 rule pool\n"),
        (5, 1_000, 4, 8_192, "damaged file 5 rule pool\n"),
        (5, 1, 6, 10_240, "damaged file 5 rule pool\n"),
        (5, 1, 4, 8_193, "damaged file 5 rule pool\n"),
    ] {
        let file = empty_file(alloc, id, part, kib, size, 0)?;
        check_damaged(&rt, alloc, file, line)?;
    }
    Ok(())
}

// A fault before the line of the damage.
#[test]
fn a_fault_ends_a_run_on_a_damaged_store(rt: HostRuntime) -> Result<(), Fail> {
    let alloc = rt.alloc();
    for kind in [CallKind::List, CallKind::Read, CallKind::Answer] {
        let mut files = Seq::new(alloc);
        files.push(changed_file(alloc, 48, 3)?)?;
        let mut site = site_on(alloc, files)?;
        site.fail_call(kind, 1)?;
        let script = Bytes::new(alloc, b"queue b\n")?;
        let status = run_from(alloc, "d run 1 4", script, 9, 7, &mut site)?;
        assert_eq!(rt; status, 5, "{kind:?}");
        assert_eq!(rt; site.answered(), b"".as_slice(), "{kind:?}");
    }
    Ok(())
}
