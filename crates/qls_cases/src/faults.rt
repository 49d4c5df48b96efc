// What a fault of site, source or serials ends a run with.
use crate::outside::{image_before_end, new_site, run_on, words_of};
use qls_memsite::{CallKind, MemSerials, MemSource};
use qls_model::Bytes;
use qls_top::run;
use std::test::Fail;

#[test]
fn a_site_fault_ends_a_run_before_its_answer(rt: HostRuntime) -> Result<(), Fail> {
    let alloc = rt.alloc();
    for (kind, n, answers) in [
        (CallKind::List, 1, ""),
        (CallKind::Create, 1, ""),
        (CallKind::Write, 1, ""),
        (CallKind::Sync, 1, ""),
        (CallKind::Relocate, 1, ""),
        (CallKind::Answer, 1, ""),
        (CallKind::Write, 2, "ok\n"),
        (CallKind::Sync, 2, "ok\n"),
        (CallKind::Answer, 2, "ok\n"),
        (CallKind::Sync, 3, "ok\nok 1\n"),
    ] {
        let mut site = new_site(alloc);
        site.fail_call(kind, n)?;
        let script = Bytes::new(alloc, b"queue a\nput a 01\nput a 02\n")?;
        let status = run_on(alloc, "d run 1 8", script, 65_536, &mut site)?;
        assert_eq!(rt; status, 5, "{kind:?} {n}");
        assert_eq!(rt; site.answered(), answers.as_bytes(), "{kind:?} {n}");
    }
    Ok(())
}

// The first read gives the queue's line and a part of the put's.
#[test]
fn a_source_fault_ends_a_run_behind_its_whole_lines(rt: HostRuntime) -> Result<(), Fail> {
    let alloc = rt.alloc();
    let words = words_of(alloc, "d run 1 4")?;
    for (failing, answers) in [(1, ""), (2, "ok\n")] {
        let mut site = new_site(alloc);
        let mut source = MemSource::new(alloc, Bytes::new(alloc, b"queue a\nput a 01\n")?, 15);
        source.fail_read(failing);
        let status = run(
            alloc,
            &words,
            &mut source,
            &mut site,
            &mut MemSerials::counting(7),
        );
        assert_eq!(rt; status, 4, "{failing}");
        assert_eq!(rt; site.answered(), answers.as_bytes(), "{failing}");
    }
    Ok(())
}

#[test]
fn a_draw_fault_ends_a_run_before_its_file(rt: HostRuntime) -> Result<(), Fail> {
    let alloc = rt.alloc();
    let words = words_of(alloc, "d run 1 4")?;
    let mut site = new_site(alloc);
    let mut source = MemSource::new(alloc, Bytes::new(alloc, b"queue a\n")?, 9);
    let mut serials = MemSerials::counting(7);
    serials.fail_draw(1);
    let status = run(alloc, &words, &mut source, &mut site, &mut serials);
    assert_eq!(rt; status, 8);
    assert_eq!(rt; site.answered(), b"".as_slice());
    assert_eq!(rt; image_before_end(&rt, alloc, &site, 0)?.len(), 0);
    Ok(())
}
