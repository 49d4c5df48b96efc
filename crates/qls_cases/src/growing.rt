// Journals that grow by files: what stands in the headers of the files, and in their data areas, by numbers that follow from the format.
use crate::outside::{image_before_end, new_site, run_on, site_on, words_of};
use crate::pools::empty_file;
use qls_memsite::{MemSerials, MemSource};
use qls_model::{Bytes, Seq};
use qls_site::{ImageFile, Place, Serials};
use qls_top::run;
use std::alloc::Global;
use std::process::Abort;
use std::test::Fail;

// Puts of so many bytes 5a each into a new queue.
pub(crate) fn puts(alloc: Global, sizes: &[usize]) -> Result<Bytes, Fail> {
    let mut script = Bytes::new(alloc, b"queue a\n")?;
    for size in sizes {
        script.add(b"put a ")?;
        if *size == 0 {
            script.add(b"-")?;
        }
        for _ in 0..*size {
            script.add(b"5a")?;
        }
        script.add(b"\n")?;
    }
    Ok(script)
}

// Eight bytes of a file, as a little-endian number.
pub(crate) fn number_at(files: &Seq<ImageFile>, file: usize, at: usize) -> Option<u64> {
    let bytes = files.get(file)?.bytes.as_slice().get(at..)?;
    let (eight, _) = bytes.split_first_chunk::<8>()?;
    Some(u64::from_le_bytes(*eight))
}

// The first four bytes of what stands there.
fn magic_at(files: &Seq<ImageFile>, file: usize, at: usize) -> Option<u64> {
    let number = number_at(files, file, at)?;
    Some(number % (1 << 32))
}

// A file of the journal has this first place, rid and serial, and its place in the row as its number.
pub(crate) fn check_header(
    rt: &impl Abort,
    files: &Seq<ImageFile>,
    file: u16,
    first: u64,
    rid: u64,
) -> Result<(), Fail> {
    let there = files.get(file as usize).ok_or("no such file")?;
    assert_eq!(rt; (there.id, there.place), (file as u64 + 1, Place::InUse));
    assert_eq!(rt; there.bytes.as_slice().len(), 8_192);
    for (at, wanted) in [
        (8, file as u64 + 7),
        (16, rid),
        (32, first),
        (40, file as u64 + 1),
        (48, 1),
    ] {
        assert_eq!(rt;
            number_at(files, file as usize, at),
            Some(wanted),
            "file {file} at {at}"
        );
    }
    Ok(())
}

// The magic of an enqueue, and of a filler.
const ENQUEUE: u64 = 0x6553_4c51;

const FILLER: u64 = 0x7853_4c51;

// A record of this kind stands there, with the serial of the file where it starts and this rid.
fn check_record(rt: &impl Abort, files: &Seq<ImageFile>, file: u16, at: u16, magic: u64, rid: u64) {
    assert_eq!(rt;
        magic_at(files, file as usize, at as usize),
        Some(magic),
        "file {file} at {at}"
    );
    assert_eq!(rt;
        number_at(files, file as usize, at as usize + 8),
        Some(file as u64 + 7),
        "file {file} at {at}"
    );
    assert_eq!(rt;
        number_at(files, file as usize, at as usize + 16),
        Some(rid),
        "file {file} at {at}"
    );
}

// Runs the puts over files of 4 KiB, and looks at what was answered.
fn grown(
    rt: &impl Abort,
    alloc: Global,
    sizes: &[usize],
    answers: &str,
    syncs: u64,
) -> Result<Seq<ImageFile>, Fail> {
    let mut site = new_site(alloc);
    let status = run_on(alloc, "d run 1 4", puts(alloc, sizes)?, 65_536, &mut site)?;
    assert_eq!(rt; status, 0);
    assert_eq!(rt; site.answered(), answers.as_bytes());
    assert_eq!(rt; site.sync_count(), syncs);
    image_before_end(rt, alloc, &site, 0)
}

#[test]
fn an_empty_body_is_followed_by_31_fillers(rt: HostRuntime) -> Result<(), Fail> {
    let files = grown(&rt, rt.alloc(), &[0], "ok\nok 1\n", 2)?;
    assert_eq!(rt; files.len(), 1);
    check_header(&rt, &files, 0, 4096, 0)?;
    check_record(&rt, &files, 0, 4096, ENQUEUE, 1);
    for unit in 1..32 {
        check_record(&rt, &files, 0, 4096 + 128 * unit, FILLER, 1);
    }
    Ok(())
}

#[test]
fn a_full_file_is_followed_by_the_next(rt: HostRuntime) -> Result<(), Fail> {
    let files = grown(&rt, rt.alloc(), &[4_032, 1], "ok\nok 1\nok 2\n", 4)?;
    assert_eq!(rt; files.len(), 2);
    check_header(&rt, &files, 0, 4096, 0)?;
    check_record(&rt, &files, 0, 4096, ENQUEUE, 1);
    check_header(&rt, &files, 1, 4096, 1)?;
    check_record(&rt, &files, 1, 4096, ENQUEUE, 2);
    check_record(&rt, &files, 1, 4096 + 128, FILLER, 2);
    Ok(())
}

#[test]
fn a_record_goes_on_in_the_next_file(rt: HostRuntime) -> Result<(), Fail> {
    let files = grown(&rt, rt.alloc(), &[4_033], "ok\nok 1\n", 4)?;
    assert_eq!(rt; files.len(), 2);
    check_header(&rt, &files, 0, 4096, 0)?;
    check_record(&rt, &files, 0, 4096, ENQUEUE, 1);
    check_header(&rt, &files, 1, 4224, 1)?;
    for unit in 1..32 {
        check_record(&rt, &files, 1, 4096 + 128 * unit, FILLER, 1);
    }
    Ok(())
}

#[test]
fn a_body_of_a_mebibyte_takes_257_files(rt: HostRuntime) -> Result<(), Fail> {
    let files = grown(&rt, rt.alloc(), &[1_048_576], "ok\nok 1\n", 514)?;
    assert_eq!(rt; files.len(), 257);
    check_header(&rt, &files, 0, 4096, 0)?;
    check_record(&rt, &files, 0, 4096, ENQUEUE, 1);
    for file in 1..256 {
        check_header(&rt, &files, file, 0, 1)?;
    }
    check_header(&rt, &files, 256, 4224, 1)?;
    check_record(&rt, &files, 256, 4224, FILLER, 1);
    Ok(())
}

#[test]
fn a_body_of_a_byte_more_is_no_line(rt: HostRuntime) -> Result<(), Fail> {
    let files = grown(&rt, rt.alloc(), &[1_048_577], "ok\nrefused line\n", 1)?;
    assert_eq!(rt; files.len(), 1);
    check_header(&rt, &files, 0, 4096, 0)
}

// Both files of the pool are taken, and for the third part of the body there is neither a file nor an id.
#[test]
fn no_file_for_the_rest_of_a_put_ends_a_run(rt: HostRuntime) -> Result<(), Fail> {
    let alloc = rt.alloc();
    let mut files = Seq::new(alloc);
    files.push(empty_file(alloc, 5, 1, 4, 8_192, 0)?)?;
    files.push(empty_file(alloc, 6, 1, 4, 8_192, 0)?)?;
    files.push(empty_file(alloc, (1 << 62) - 1, 2, 4, 8_192, 0)?)?;
    let mut site = site_on(alloc, files)?;
    let words = words_of(alloc, "d run 1 4")?;
    let mut source = MemSource::new(alloc, puts(alloc, &[1, 8_192])?, 65_536);
    let mut serials = MemSerials::counting(7);
    let status = run(alloc, &words, &mut source, &mut site, &mut serials);
    assert_eq!(rt; status, 9);
    assert_eq!(rt; site.answered(), b"ok\nok 1\n".as_slice());
    assert_eq!(rt; serials.draw().ok(), Some(9));
    let image = image_before_end(&rt, alloc, &site, 0)?;
    let [five, six, last] = image.as_slice() else {
        return Err(Fail::from("not three files"));
    };
    assert_eq!(rt; (five.id, five.place), (5, Place::InUse));
    assert_eq!(rt; (six.id, six.place), (6, Place::InUse));
    // nothing was written behind its header
    assert!(rt;
        six.bytes
            .as_slice()
            .iter()
            .skip(4_096)
            .all(|byte| *byte == 0)
    );
    assert_eq!(rt; number_at(&image, 1, 40), Some(2));
    assert_eq!(rt;
        (last.id, last.place),
        ((1 << 62) - 1, Place::Empty { part: 2, kib: 4 })
    );
    Ok(())
}
