// What a show answers, and that it leaves all as it was.
ghost use Rattle.std.specs.Prelude.{◌≡◌, IfOk};
ghost use Rattle.qls_cases.specs.Resting.{Rests};

use crate::outside::{
    check_same, file_before_end, image_before_end, new_site, run_on, site_on, words_of,
};
use crate::pools::empty_file;
use crate::stored::{add_padded, file_with_a_message};
use qls_memsite::{CallKind, MemSerials, MemSite, MemSource};
use qls_model::{Bytes, Seq};
use qls_site::{ImageFile, Place, Serials, Source};
use qls_top::run;
use std::alloc::Global;
use std::process::Abort;
use std::test::Fail;

// Scripts, and the text of the state that they leave.
const SHOWN: [(&str, &str); 6] = [
    ("", "queues 0\ndoubt 0\n"),
    (
        "queue a\nput a 6869\nlist a\n",
        "queues 1\nqueue a last 1 messages 1\n1 ready 6869\ndoubt 0\n",
    ),
    (
        "queue a\nput a 01\ntake a 1\n",
        "queues 1\nqueue a last 1 messages 0\ndoubt 0\n",
    ),
    (
        "queue a\nbegin 01\nput a 0a in 01\n",
        "queues 1\nqueue a last 1 messages 0\ndoubt 0\n",
    ),
    (
        "queue a\nqueue b\nbegin 01\nput a 0a in 01\nput b 0b in 01\nprepare 01\n",
        "queues 2\nqueue a last 1 messages 1\n1 coming 01 0a\nqueue b last 1 messages 1\n1 coming 01 0b\ndoubt 1\n01\n",
    ),
    (
        "queue a\nqueue b\nbegin 01\nput a 0a in 01\nput b 0b in 01\nprepare 01\ncommit 01\n",
        "queues 2\nqueue a last 1 messages 1\n1 ready 0a\nqueue b last 1 messages 1\n1 ready 0b\ndoubt 0\n",
    ),
];

// The header of the prepared list's file: serial 9, partition 1, 4 KiB. Zeros follow.
const LIST: &str =
    "514c536602000000090000000000000000000000000000000100000004000000001000000000000001000000000000000100000000000000020000007b010053";

// Its entry of one phase, of transaction 01. Bytes ff follow.
const ENTRY: &str =
    "514c536502001000090000000000000001000000000000000100000000000000000000000000000001aeb3ac9a7401733809000000000000000100000000000000";

// A show ends with this status and answers this, no file changes, and neither script nor serials are touched.
fn check_show(
    rt: &impl Abort,
    alloc: Global,
    site: &mut MemSite,
    status: u8,
    text: &str,
) -> Result<(), Fail>
    requires quiet { Rests site.old }
    ensures rests { IfOk result (λ _. status ≡ 0 → Rests site.new) }
{
    let words = words_of(alloc, "d show")?;
    let mut source = MemSource::new(alloc, Bytes::new(alloc, b"queue z\n")?, 9);
    let mut serials = MemSerials::counting(7);
    let files = image_before_end(rt, alloc, site, 0)?;
    let (before, syncs) = (site.answered().len(), site.sync_count());
    let ended = run(alloc, &words, &mut source, site, &mut serials);
    assert_eq!(rt; ended, status, "{text}");
    assert_eq!(rt;
        site.answered().get(before..),
        Some(text.as_bytes()),
        "{text}"
    );
    assert_eq!(rt; site.sync_count(), syncs);
    check_same(rt, &files, &image_before_end(rt, alloc, site, 0)?);
    let mut script = [0; 9];
    assert_eq!(rt; source.read(&mut script), Ok(8));
    assert_eq!(rt; serials.draw(), Ok(7));
    Ok(())
}

#[test]
fn a_show_answers_the_settled_state(rt: HostRuntime) -> Result<(), Fail> {
    let alloc = rt.alloc();
    for (script, text) in SHOWN {
        let mut site = new_site(alloc);
        let bytes = Bytes::new(alloc, script.as_bytes())?;
        let status = run_on(alloc, "d run 1 4", bytes, 65_536, &mut site)?;
        assert_eq!(rt; status, 0, "{script}");
        check_show(&rt, alloc, &mut site, 0, text)?;
        check_show(&rt, alloc, &mut site, 0, text)?;
    }
    Ok(())
}

// The prepared list's file, with one entry of one phase.
pub(crate) fn list_file(alloc: Global) -> Result<ImageFile, Fail>
    ensures id { IfOk result (λ file. file.id ≡ 2) }
{
    let mut bytes = Bytes::new(alloc, b"")?;
    add_padded(alloc, &mut bytes, LIST, 0, 4_032)?;
    add_padded(alloc, &mut bytes, ENTRY, 0xff, 63)?;
    add_padded(alloc, &mut bytes, "", 0, 3_968)?;
    Ok(ImageFile {
        id: 2,
        place: Place::InUse,
        bytes,
    })
}

// Its queue would not know whether the transaction committed there; without a decision it aborts.
#[test]
fn an_entry_of_one_phase_is_not_in_doubt(rt: HostRuntime) -> Result<(), Fail> {
    let alloc = rt.alloc();
    let mut site = new_site(alloc);
    let script = Bytes::new(alloc, b"queue a\nbegin 01\nput a 0a in 01\n")?;
    let status = run_on(alloc, "d run 1 4", script, 9, &mut site)?;
    assert_eq!(rt; status, 0);
    let one = file_before_end(&rt, alloc, &site, 0)?;
    assert_eq!(rt; (one.id, one.place), (1, Place::InUse));
    let mut files = Seq::new(alloc);
    files.push(ImageFile {
        id: 1,
        place: Place::InUse,
        bytes: one.bytes,
    })?;
    files.push(list_file(alloc)?)?;
    let mut site = site_on(alloc, files)?;
    let text = "queues 1\nqueue a last 1 messages 0\ndoubt 0\n";
    check_show(&rt, alloc, &mut site, 0, text)
}

// A queue's file with message 1, with another byte at the place.
pub(crate) fn changed_file(alloc: Global, at: usize, byte: u8) -> Result<ImageFile, Fail> {
    let mut bytes = Vec::new(alloc);
    for (place, old) in file_with_a_message(alloc)?.as_slice().iter().enumerate() {
        bytes.push(if place == at { byte } else { *old })?;
    }
    Ok(ImageFile {
        id: 1,
        place: Place::InUse,
        bytes: Bytes::from_vec(bytes),
    })
}

#[test]
fn a_show_answers_the_first_damage(rt: HostRuntime) -> Result<(), Fail> {
    let alloc = rt.alloc();
    for (file, line) in [
        (
            changed_file(alloc, 48, 3)?,
            "damaged file 1 rule checksum\n",
        ),
        (
            empty_file(alloc, 12, 1, 4, 8_193, 0)?,
            "damaged file 12 rule pool\n",
        ),
    ] {
        let mut files = Seq::new(alloc);
        files.push(file)?;
        let mut site = site_on(alloc, files)?;
        check_show(&rt, alloc, &mut site, 3, line)?;
    }
    Ok(())
}

#[test]
fn a_fault_ends_a_show_without_an_answer(rt: HostRuntime) -> Result<(), Fail> {
    let alloc = rt.alloc();
    for kind in [CallKind::List, CallKind::Read, CallKind::Answer] {
        let mut files = Seq::new(alloc);
        files.push(changed_file(alloc, 8_191, 0xff)?)?;
        let mut site = site_on(alloc, files)?;
        site.fail_call(kind, 1)?;
        check_show(&rt, alloc, &mut site, 5, "")?;
    }
    Ok(())
}
