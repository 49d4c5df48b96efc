// Runs on a site with empty files: which file a queue takes.
ghost use Rattle.std.specs.Prelude.{◌≡◌, IfOk};

use crate::outside::{image_before_end, run_on, site_on, words_of};
use crate::stored::file_with_a_message;
use qls_memsite::{MemSerials, MemSource};
use qls_model::{Bytes, Seq};
use qls_site::{ImageFile, Place, Serials};
use qls_top::run;
use std::alloc::Global;
use std::process::Abort;
use std::test::Fail;

// An empty file with so many bytes, all the same.
pub(crate) fn empty_file(
    alloc: Global,
    id: u64,
    part: u16,
    kib: u32,
    size: usize,
    byte: u8,
) -> Result<ImageFile, Fail>
    ensures id { IfOk result (λ file. file.id ≡ id) }
{
    Ok(ImageFile {
        id,
        place: Place::Empty { part, kib },
        bytes: Bytes::from_vec(Vec::from_elem(alloc, byte, size)?),
    })
}

// So many bytes are those of queue a's file with message 1, and all others are as they were.
fn check_taken(rt: &impl Abort, alloc: Global, bytes: &[u8], written: usize) -> Result<(), Fail> {
    let wanted = file_with_a_message(alloc)?;
    for (at, byte) in bytes.iter().enumerate() {
        if at < written {
            assert_eq!(rt; wanted.as_slice().get(at), Some(byte), "{at}");
        } else {
            assert_eq!(rt; *byte, 0xa3, "{at}");
        }
    }
    Ok(())
}

// The data areas have bytes of an older use, which the new serial doesn't stand in.
#[test]
fn a_queue_takes_the_least_file_of_its_pool(rt: HostRuntime) -> Result<(), Fail> {
    let alloc = rt.alloc();
    let mut files = Seq::new(alloc);
    files.push(empty_file(alloc, 3, 1, 4, 8_192, 0xa3)?)?;
    files.push(empty_file(alloc, 4, 2, 4, 8_192, 0xa4)?)?;
    files.push(empty_file(alloc, 5, 1, 4, 8_192, 0xa5)?)?;
    let mut site = site_on(alloc, files)?;
    let script = Bytes::new(alloc, b"queue a\nput a 6869\n")?;
    let status = run_on(alloc, "d run 1 4", script, 9, &mut site)?;
    assert_eq!(rt; status, 0);
    assert_eq!(rt; site.answered(), b"ok\nok 1\n".as_slice());
    // behind the put, and behind the queue's line
    for (back, written) in [(0, 8_192), (3, 4_096)] {
        let image = image_before_end(&rt, alloc, &site, back)?;
        let [three, four, five] = image.as_slice() else {
            return Err(Fail::from("not three files"));
        };
        assert_eq!(rt; (three.id, three.place), (3, Place::InUse));
        check_taken(&rt, alloc, three.bytes.as_slice(), written)?;
        assert_eq!(rt;
            (four.id, four.place),
            (4, Place::Empty { part: 2, kib: 4 })
        );
        assert!(rt; four.bytes.as_slice().iter().all(|byte| *byte == 0xa4));
        assert_eq!(rt;
            (five.id, five.place),
            (5, Place::Empty { part: 1, kib: 4 })
        );
        assert!(rt; five.bytes.as_slice().iter().all(|byte| *byte == 0xa5));
    }
    Ok(())
}

#[test]
fn a_queue_whose_pool_is_empty_gets_the_next_id(rt: HostRuntime) -> Result<(), Fail> {
    let alloc = rt.alloc();
    let mut files = Seq::new(alloc);
    files.push(empty_file(alloc, 2, 1, 4, 8_192, 0xa2)?)?;
    files.push(empty_file(alloc, 9, 2, 8, 12_288, 0xa9)?)?;
    let mut site = site_on(alloc, files)?;
    let script = Bytes::new(alloc, b"queue a\nqueue b\n")?;
    let status = run_on(alloc, "d run 1 4", script, 9, &mut site)?;
    assert_eq!(rt; status, 0);
    assert_eq!(rt; site.answered(), b"ok\nok\n".as_slice());
    let image = image_before_end(&rt, alloc, &site, 0)?;
    let [two, nine, ten] = image.as_slice() else {
        return Err(Fail::from("not three files"));
    };
    assert_eq!(rt; (two.id, two.place), (2, Place::InUse));
    assert_eq!(rt;
        (nine.id, nine.place),
        (9, Place::Empty { part: 2, kib: 8 })
    );
    assert_eq!(rt; (ten.id, ten.place), (10, Place::InUse));
    Ok(())
}

#[test]
fn no_file_and_no_id_end_a_run_before_a_draw(rt: HostRuntime) -> Result<(), Fail> {
    let alloc = rt.alloc();
    let mut files = Seq::new(alloc);
    files.push(empty_file(alloc, (1 << 62) - 1, 2, 4, 8_192, 0)?)?;
    let mut site = site_on(alloc, files)?;
    let words = words_of(alloc, "d run 1 4")?;
    let mut source = MemSource::new(alloc, Bytes::new(alloc, b"put a 01\nqueue a\n")?, 9);
    let mut serials = MemSerials::counting(7);
    let status = run(alloc, &words, &mut source, &mut site, &mut serials);
    assert_eq!(rt; status, 9);
    assert_eq!(rt; site.answered(), b"refused queue\n".as_slice());
    assert_eq!(rt; serials.draw().ok(), Some(7));
    let image = image_before_end(&rt, alloc, &site, 0)?;
    let [only] = image.as_slice() else {
        return Err(Fail::from("not one file"));
    };
    assert_eq!(rt;
        (only.id, only.place),
        ((1 << 62) - 1, Place::Empty { part: 2, kib: 4 })
    );
    Ok(())
}
