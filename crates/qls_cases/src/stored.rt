// What lies on the site after a put, by bytes that were written down beforehand.
use crate::outside::{file_before_end, new_site, run_on};
use qls_model::Bytes;
use qls_site::Place;
use std::alloc::Global;
use std::test::Fail;

// The header of queue a's file: serial 7, partition 1, 4 KiB. Zeros follow.
const HEADER: &str =
    "514c5366020000000700000000000000000000000000000001000000040000000010000000000000010000000000000001000000000000000100010061da017054";

// Message 1 with the body 6869. Bytes ff follow.
const MESSAGE: &str =
    "514c53650200000007000000000000000100000000000000000000000000000002000000000000006869aeb3ac9a33029c3807000000000000000100000000000000";

// A filler behind message 1. Bytes ff follow.
const FILLER: &str = "514c53780200000007000000000000000100000000000000";

// Puts the bytes at the end, and so many of another.
pub(crate) fn add_padded(
    alloc: Global,
    bytes: &mut Bytes,
    digits: &str,
    padding: u8,
    count: usize,
) -> Result<(), Fail> {
    bytes.add(&hex::decode(alloc, digits)?)?;
    bytes.add(&Vec::from_elem(alloc, padding, count)?)?;
    Ok(())
}

// The whole file of queue a with message 1.
pub(crate) fn file_with_a_message(alloc: Global) -> Result<Bytes, Fail> {
    let mut bytes = Bytes::new(alloc, b"")?;
    add_padded(alloc, &mut bytes, HEADER, 0, 4_031)?;
    add_padded(alloc, &mut bytes, MESSAGE, 0xff, 62)?;
    for _ in 0..31 {
        add_padded(alloc, &mut bytes, FILLER, 0xff, 104)?;
    }
    Ok(bytes)
}

#[test]
fn a_put_is_stored_before_it_is_answered(rt: HostRuntime) -> Result<(), Fail> {
    let alloc = rt.alloc();
    let mut site = new_site(alloc);
    let script = Bytes::new(alloc, b"queue a\nput a 6869\n")?;
    let status = run_on(alloc, "d run 1 4", script, 9, &mut site)?;
    assert_eq!(rt; (status, site.sync_count()), (0, 2));
    let wanted = file_with_a_message(alloc)?;
    for (back, answers) in [(1, "ok\n"), (0, "ok\nok 1\n")] {
        let count = site.moment_count();
        assert!(rt; back < count);
        let answered = site.answered_at(count - 1 - back)?;
        assert_eq!(rt; answered.as_slice(), answers.as_bytes());
        let file = file_before_end(&rt, alloc, &site, back)?;
        assert_eq!(rt; (file.id, file.place), (1, Place::InUse));
        assert!(rt; file.bytes.as_slice() == wanted.as_slice());
    }
    Ok(())
}
