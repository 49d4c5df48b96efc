// Stores made by hand and by torn writes, and what runs make of them.
ghost use Rattle.std.specs.Prelude.{◌≡◌, IfOk};
ghost use Rattle.qls_cases.specs.Resting.{Rests};

use crate::growing::{number_at, puts};
use crate::outside::{image_before_end, new_site, run_from, site_on};
use crate::reopening::check_run;
use crate::returning::{POOL, check_place};
use crate::showing::list_file;
use crate::stored::add_padded;
use qls_memsite::MemSite;
use qls_model::{Bytes, Seq};
use qls_site::{ImageFile, Place};
use std::alloc::Global;
use std::process::Abort;
use std::test::Fail;

// The state text of the store on the site is this.
fn check_state(rt: &impl Abort, alloc: Global, site: &mut MemSite, text: &str) -> Result<(), Fail>
    requires quiet { Rests site.old }
    ensures rests { IfOk result (λ _. Rests site.new) }
{
    check_run(rt, alloc, site, "d show", 7, "", text)
}

// The only file of queue a went back with all that is in it; its last number is told by the next file's header alone.
#[test]
fn numbers_go_on_after_all_files_went_back(rt: HostRuntime) -> Result<(), Fail> {
    let alloc = rt.alloc();
    let mut site = new_site(alloc);
    let script = "queue a\nput a 01\ntake a 1\n";
    check_run(
        &rt,
        alloc,
        &mut site,
        "d run 1 4",
        7,
        script,
        "ok\nok 1\nok\n",
    )?;
    let text = "queues 1\nqueue a last 1 messages 0\ndoubt 0\n";
    check_state(&rt, alloc, &mut site, text)?;
    check_run(
        &rt,
        alloc,
        &mut site,
        "d run 1 4",
        9,
        "put a 02\n",
        "ok 2\n",
    )?;
    let files = image_before_end(&rt, alloc, &site, 0)?;
    assert_eq!(rt; files.len(), 2);
    check_place(&rt, &files, 0, 1, Place::InUse);
    check_place(&rt, &files, 1, 2, POOL);
    // serial, rid, number, epoch
    for (from, wanted) in [(8, 9), (16, 1), (40, 3), (48, 2)] {
        assert_eq!(rt; number_at(&files, 0, from), Some(wanted), "{from}");
    }
    Ok(())
}

// The xid is used again, and what it put before is not committed.
#[test]
fn a_reused_xid_commits_nothing_old(rt: HostRuntime) -> Result<(), Fail> {
    let alloc = rt.alloc();
    let mut site = new_site(alloc);
    let script = "queue a\nbegin 01\nput a 0a in 01\n";
    check_run(
        &rt,
        alloc,
        &mut site,
        "d run 1 4",
        7,
        script,
        "ok\nok\nok 1\n",
    )?;
    let script = "begin 01\ncommit 01\nlist a\n";
    check_run(
        &rt,
        alloc,
        &mut site,
        "d run 1 4",
        107,
        script,
        "ok\nok\nok 0\n",
    )?;
    check_run(
        &rt,
        alloc,
        &mut site,
        "d run 1 4",
        207,
        "list a\n",
        "ok 0\n",
    )
}

// The second message lies over files 2 and 3. Of its part in file 2 only the first sector came to the disk, of that in
// file 3 nothing.
#[test]
fn a_torn_record_is_none(rt: HostRuntime) -> Result<(), Fail> {
    let alloc = rt.alloc();
    let mut site = new_site(alloc);
    let script = puts(alloc, &[1, 4_033])?;
    let status = run_from(alloc, "d run 1 4", script, 65_536, 7, &mut site)?;
    assert_eq!(rt; status, 0);
    let count = site.moment_count();
    assert!(rt; 3 < count);
    let mut choice = Seq::new(alloc);
    choice.push(true)?;
    let left = site.image(count - 4, &choice)?;
    let [one, two, three] = left.as_slice() else {
        return Err(Fail::from("not three files"));
    };
    let mut files = Seq::new(alloc);
    for (id, file) in [(1, one), (2, two), (3, three)] {
        assert_eq!(rt; (file.id, file.place), (id, Place::InUse));
    }
    files.push(in_use(1, one.bytes.copy()?))?;
    files.push(in_use(2, two.bytes.copy()?))?;
    files.push(in_use(3, three.bytes.copy()?))?;
    let mut site = site_on(alloc, files)?;
    let text = "queues 1\nqueue a last 1 messages 1\n1 ready 5a\ndoubt 0\n";
    check_state(&rt, alloc, &mut site, text)?;
    check_run(&rt, alloc, &mut site, "d run 1 4", 107, "", "")?;
    let files = image_before_end(&rt, alloc, &site, 0)?;
    assert_eq!(rt; files.len(), 3);
    check_place(&rt, &files, 0, 1, Place::InUse);
    check_place(&rt, &files, 1, 2, Place::InUse);
    check_place(&rt, &files, 2, 3, POOL);
    check_state(&rt, alloc, &mut site, text)
}

// A file in use.
fn in_use(id: u64, bytes: Bytes) -> ImageFile
    ensures id { result.id ≡ id }
{
    ImageFile {
        id,
        place: Place::InUse,
        bytes,
    }
}

// An entry of one phase without a decision: the transaction aborts, in its queue and in the list.
#[test]
fn an_entry_of_one_phase_ends_at_the_opening(rt: HostRuntime) -> Result<(), Fail> {
    let alloc = rt.alloc();
    let mut site = new_site(alloc);
    let script = "queue a\nbegin 01\nput a 0a in 01\n";
    check_run(
        &rt,
        alloc,
        &mut site,
        "d run 1 4",
        7,
        script,
        "ok\nok\nok 1\n",
    )?;
    let left = image_before_end(&rt, alloc, &site, 0)?;
    let [one] = left.as_slice() else {
        return Err(Fail::from("not one file"));
    };
    let mut files = Seq::new(alloc);
    files.push(in_use(1, one.bytes.copy()?))?;
    files.push(list_file(alloc)?)?;
    let mut site = site_on(alloc, files)?;
    check_state(
        &rt,
        alloc,
        &mut site,
        "queues 1\nqueue a last 1 messages 0\ndoubt 0\n",
    )?;
    let script = "list a\ndoubt\nbegin 01\ncommit 01\nlist a\nput a 0b\n";
    let answers = "ok 0\nok 0\nok\nok\nok 0\nok 2\n";
    check_run(&rt, alloc, &mut site, "d run 1 4", 107, script, answers)?;
    check_run(
        &rt,
        alloc,
        &mut site,
        "d run 1 4",
        207,
        "list a\ndoubt\n",
        "ok 1\n2 ready 0b\nok 0\n",
    )
}

// The header of queue a's file: serial 5, rid 2^62 - 2, partition 1, 4 KiB. Zeros follow.
const LAST_HEADER: &str =
    "514c5366020000000500000000000000feffffffffffff3f010000000400000000100000000000000100000000000000010000000000000001000100610f091c82";

// A message with the last number, 2^62 - 1, and the body 01. Bytes ff follow.
const LAST_MESSAGE: &str =
    "514c5365020000000500000000000000ffffffffffffff3f0000000000000000010000000000000001aeb3ac9a970872d30500000000000000ffffffffffffff3f";

// No number is left behind the last one, though its message goes.
#[test]
fn the_last_number_is_given_once(rt: HostRuntime) -> Result<(), Fail> {
    let alloc = rt.alloc();
    let mut bytes = Bytes::new(alloc, b"")?;
    add_padded(alloc, &mut bytes, LAST_HEADER, 0, 4_031)?;
    add_padded(alloc, &mut bytes, LAST_MESSAGE, 0xff, 63)?;
    add_padded(alloc, &mut bytes, "", 0, 3_968)?;
    let mut files = Seq::new(alloc);
    files.push(in_use(1, bytes))?;
    let mut site = site_on(alloc, files)?;
    let script = "put a 02\ntake a 4611686018427387903\nput a 02\n";
    let answers = "refused spent\nok\nrefused spent\n";
    check_run(&rt, alloc, &mut site, "d run 1 4", 7, script, answers)?;
    let files = image_before_end(&rt, alloc, &site, 0)?;
    assert_eq!(rt; files.len(), 2);
    check_place(&rt, &files, 0, 1, POOL);
    check_place(&rt, &files, 1, 2, Place::InUse);
    // serial, rid, number, epoch
    for (from, wanted) in [(8, 7), (16, (1 << 62) - 1), (40, 2), (48, 2)] {
        assert_eq!(rt; number_at(&files, 1, from), Some(wanted), "{from}");
    }
    Ok(())
}
