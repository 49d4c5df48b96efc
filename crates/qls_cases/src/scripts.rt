// What scripts are answered.
use crate::growing::number_at;
use crate::outside::{image_before_end, new_site, run_on};
use qls_memsite::{MemSerials, MemSource};
use qls_model::{Bytes, NoMemory};
use qls_top::run;
use std::alloc::Global;
use std::test::Fail;

// Words, a script, its answers, and how many files it leaves.
const SCRIPTS: [(&str, &str, &str, usize); 17] = [
    ("d run 1 4", "", "", 0),
    (
        "d run 1 4",
        "queue a\nput a 6869\nlist a\n",
        "ok\nok 1\nok 1\n1 ready 6869\n",
        1,
    ),
    ("d run 1 4", "queue a\nput a -\n", "ok\nok 1\n", 1),
    (
        "d run 1 4",
        "queue a\nput a 01\nput a 02\n",
        "ok\nok 1\nok 2\n",
        2,
    ),
    (
        "d run 1 8",
        "queue a\nput a 01\nput a 02\n",
        "ok\nok 1\nok 2\n",
        1,
    ),
    (
        "d run 1 4",
        "queue b\nqueue a\nput b 01\nput a 02\nlist b\nlist a\n",
        "ok\nok\nok 1\nok 1\nok 1\n1 ready 01\nok 1\n1 ready 02\n",
        2,
    ),
    (
        "d run 1 4",
        "queue a\nqueue a\nput b 01\n",
        "ok\nrefused exists\nrefused queue\n",
        1,
    ),
    ("d run 1 4", "\nqueue a", "refused line\nok\n", 1),
    ("d run 1 4", "queue a\nput a 0", "ok\nrefused line\n", 1),
    (
        "d run 1 4",
        "begin 01\nabort 01\ndoubt\nput a 01 in 02\nqueue a\ntake a 1 in 02\n",
        "ok\nok\nok 0\nrefused queue\nok\nrefused xid\n",
        1,
    ),
    (
        "d run 1 4",
        "take a 1\nlist a\ndrop a\n",
        "refused queue\nrefused queue\nrefused queue\n",
        0,
    ),
    (
        "d run 1 4",
        "queue a\nput a 01\ntake a 1\nqueue b\nlist b\n",
        "ok\nok 1\nok\nok\nok 0\n",
        2,
    ),
    (
        "d run 1 4",
        "queue a\nput a 01\ntake a 1\ntake a 1\ndrop a\nqueue a\nput a 02\n",
        "ok\nok 1\nok\nrefused message\nok\nok\nok 1\n",
        2,
    ),
    (
        "d run 1 4",
        "queue a\nput a 01\ntake a 9\ndrop a\ntake a 1\ndrop a\nlist a\n",
        "ok\nok 1\nrefused message\nrefused busy\nok\nok\nrefused queue\n",
        2,
    ),
    (
        "d run 1 8",
        "queue a\nput a 0a\nput a 0b\nput a 0c\ntake a 2\nlist a\ntake a 1\nput a 0d\nlist a\n",
        "ok\nok 1\nok 2\nok 3\nok\nok 2\n1 ready 0a\n3 ready 0c\nok\nok 4\nok 2\n3 ready 0c\n4 ready 0d\n",
        3,
    ),
    (
        "d run 1 4",
        "queue a 2 8\nqueue b\nput a 01\nput b 01\nput a 02\n",
        "ok\nok\nok 1\nok 1\nok 2\n",
        2,
    ),
    (
        "d run 1 4",
        "queue a 0 4\nqueue a 1 5\nqueue a 1\ntake a 0\ntake a 01\n",
        "refused line\nrefused line\nrefused line\nrefused line\nrefused line\n",
        0,
    ),
];

#[test]
fn scripts_are_answered_line_by_line(rt: HostRuntime) -> Result<(), Fail> {
    let alloc = rt.alloc();
    for (words, script, answers, files) in SCRIPTS {
        for piece in [1, 9, 65_536] {
            let mut site = new_site(alloc);
            let bytes = Bytes::new(alloc, script.as_bytes())?;
            let status = run_on(alloc, words, bytes, piece, &mut site)?;
            assert_eq!(rt; status, 0, "{words}: {script}");
            assert_eq!(rt;
                site.answered(),
                answers.as_bytes(),
                "{words}: {script}, by {piece}"
            );
            let image = image_before_end(&rt, alloc, &site, 0)?;
            assert_eq!(rt; image.len(), files, "{words}: {script}");
        }
    }
    Ok(())
}

// A byte many times, between two texts.
fn long_script(
    alloc: Global,
    before: &str,
    byte: u8,
    count: usize,
    behind: &str,
) -> Result<Bytes, NoMemory> {
    let mut script = Bytes::new(alloc, before.as_bytes())?;
    script.add(&Vec::from_elem(alloc, byte, count)?)?;
    script.add(behind.as_bytes())?;
    Ok(script)
}

// A part of a put's line before its body.
const PUT: &str = "queue a\nput a ";

#[test]
fn long_lines_and_scripts_have_limits(rt: HostRuntime) -> Result<(), Fail> {
    let alloc = rt.alloc();
    for (words, before, byte, count, behind, answers, status) in [
        ("d run 1 2048", PUT, b'5', 2_097_152, "\n", "ok\nok 1\n", 0),
        ("d run 1 4", PUT, b'5', 2_097_152, "", "ok\nok 1\n", 0),
        (
            "d run 1 2048",
            PUT,
            b'5',
            2_097_154,
            "\n",
            "ok\nrefused line\n",
            0,
        ),
        (
            "d run 1 4",
            "",
            b'x',
            2_100_001,
            "\nqueue a",
            "refused line\nok\n",
            0,
        ),
        ("d run 1 4", "", b'x', 67_108_864, "", "refused line\n", 0),
        ("d run 1 4", "", b'x', 67_108_865, "", "", 7),
    ] {
        let mut site = new_site(alloc);
        let script = long_script(alloc, before, byte, count, behind)?;
        let answered = run_on(alloc, words, script, 1_000_000, &mut site)?;
        assert_eq!(rt; answered, status, "{count}");
        assert_eq!(rt; site.answered(), answers.as_bytes(), "{count}");
    }
    Ok(())
}

#[test]
fn words_without_a_job_call_nothing(rt: HostRuntime) -> Result<(), Fail> {
    let alloc = rt.alloc();
    for words in [
        "d walk",
        "d show 1",
        " show",
        "d run 1",
        "d run 1 5",
        "d run 01 4",
        " run 1 4",
        " run",
        "d run 1 4 5",
    ] {
        let mut site = new_site(alloc);
        let status = run_on(alloc, words, Bytes::new(alloc, b"queue a\n")?, 9, &mut site)?;
        assert_eq!(rt; (status, site.moment_count()), (2, 1), "{words}");
    }
    let mut site = new_site(alloc);
    let mut source = MemSource::new(alloc, Bytes::new(alloc, b"queue a\n")?, 9);
    let status = run(
        alloc,
        &[],
        &mut source,
        &mut site,
        &mut MemSerials::counting(7),
    );
    assert_eq!(rt; (status, site.moment_count()), (2, 1));
    Ok(())
}

// Partition 1, and 2,048 KiB of data behind each header.
#[test]
fn words_without_a_pool_have_a_default_one(rt: HostRuntime) -> Result<(), Fail> {
    let alloc = rt.alloc();
    let mut site = new_site(alloc);
    let script = "queue a\nbegin 01\nput a 0a in 01\ncommit 01\n";
    let bytes = Bytes::new(alloc, script.as_bytes())?;
    let status = run_on(alloc, "d run", bytes, 9, &mut site)?;
    assert_eq!(rt; status, 0);
    assert_eq!(rt; site.answered(), b"ok\nok\nok 1\nok\n".as_slice());
    let files = image_before_end(&rt, alloc, &site, 0)?;
    assert_eq!(rt; files.len(), 2);
    for (at, file) in files.as_slice().iter().enumerate() {
        assert_eq!(rt; file.bytes.as_slice().len(), 2_101_248);
        // the partition, and then the KiB
        assert_eq!(rt; number_at(&files, at, 24), Some((2_048 << 32) + 1));
    }
    Ok(())
}
