// Worked sizes, the bytes of a small batch, and one sync a file.
ghost use Rattle.std.specs.Prelude.{◌≤◌};

use crate::{Batch, FreshFile, sync_parts, write_part};
use qls_memsite::MemSite;
use qls_model::{Bytes, NoMemory, Seq, Xid};
use qls_record::{Head, Kind};
use qls_site::Site;
use std::alloc::Global;
use std::test::Fail;

/// An enqueue of the body `hi`, for serial 7, up to its padding.
const ENQUEUE: [u8; 66] = *b"QLSe\x02\0\0\0\x07\0\0\0\0\0\0\0\x01\0\0\0\0\0\0\0\
    \0\0\0\0\0\0\0\0\x02\0\0\0\0\0\0\0hi\
    \xae\xb3\xac\x9a\x33\x02\x9c\x38\x07\0\0\0\0\0\0\0\x01\0\0\0\0\0\0\0";

/// A filler, for serial 7, up to its padding.
const FILLER: [u8; 24] = *b"QLSx\x02\0\0\0\x07\0\0\0\0\0\0\0\x01\0\0\0\0\0\0\0";

// Puts an enqueue of the body at the end of the batch.
fn put(batch: &mut Batch, body: Bytes, rid: u64) -> Result<(), NoMemory> {
    let size = body.as_slice().len();
    if size > 1_048_576 {
        return Err(NoMemory);
    }
    let head = Head {
        kind: Kind::Enqueue,
        flagged: false,
        rid,
        target: 0,
        xid_size: 0,
        body_size: size as u64,
    };
    batch.push(head, Xid::new(&[]).unwrap(), body)
}

// A batch of one enqueue, of so many bytes 5a.
fn batch_of(alloc: Global, size: usize, rid: u64) -> Result<Batch, NoMemory>
    requires { size ≤ 1048576 }
{
    let mut batch = Batch::new(alloc);
    put(
        &mut batch,
        Bytes::from_vec(vec![in alloc; 0x5au8; size]?),
        rid,
    )?;
    Ok(batch)
}

fn file(first: u64, rid: u64) -> FreshFile {
    FreshFile { first, rid }
}

#[test]
fn plans_lie_over_files(rt: HostRuntime) -> Result<(), Fail> {
    let alloc = rt.alloc();
    let plan = batch_of(alloc, 0, 1)?.plan(0, 4096, 0)?;
    assert_eq!(rt;
        [plan.length, plan.fillers, plan.fresh.len() as u64],
        [4096, 31, 0]
    );
    let plan = batch_of(alloc, 4032, 1)?.plan(0, 4096, 0)?;
    assert_eq!(rt;
        [plan.length, plan.fillers, plan.fresh.len() as u64],
        [4096, 0, 0]
    );
    let plan = batch_of(alloc, 1, 2)?.plan(4096, 4096, 1)?;
    assert_eq!(rt;
        [plan.length, plan.fillers, plan.fresh.len() as u64],
        [4096, 31, 1]
    );
    assert_eq!(rt; plan.fresh.get(0).copied(), Some(file(4096, 1)));
    let plan = batch_of(alloc, 4033, 1)?.plan(0, 4096, 0)?;
    assert_eq!(rt;
        [plan.length, plan.fillers, plan.fresh.len() as u64],
        [8192, 31, 1]
    );
    assert_eq!(rt; plan.fresh.get(0).copied(), Some(file(4224, 1)));
    let ends_inside = batch_of(alloc, 8128, 2)?.plan(4096, 8192, 1)?;
    assert_eq!(rt;
        [
            ends_inside.length,
            ends_inside.fillers,
            ends_inside.fresh.len() as u64
        ],
        [8192, 0, 1]
    );
    assert_eq!(rt; ends_inside.fresh.get(0).copied(), Some(file(8192, 2)));
    Ok(())
}

#[test]
fn a_long_record_covers_files(rt: HostRuntime) -> Result<(), Fail> {
    let batch = batch_of(rt.alloc(), 1_048_576, 1)?;
    let plan = batch.plan(0, 4096, 0)?;
    assert_eq!(rt;
        [plan.length, plan.fillers, plan.fresh.len() as u64],
        [1_052_672, 31, 256]
    );
    for index in 0..255 {
        assert_eq!(rt;
            plan.fresh.get(index).copied(),
            Some(file(0, 1)),
            "file {index}"
        );
    }
    assert_eq!(rt; plan.fresh.get(255).copied(), Some(file(4224, 1)));
    Ok(())
}

// The bytes from a place on begin with these.
fn stands(bytes: &[u8], at: usize, front: &[u8]) -> bool {
    match bytes.get(at..) {
        Some(rest) => rest.starts_with(front),
        None => false,
    }
}

#[test]
fn each_record_has_its_files_serial(rt: HostRuntime) -> Result<(), Fail> {
    let alloc = rt.alloc();
    let mut batch = Batch::new(alloc);
    put(&mut batch, Bytes::new(alloc, b"hi")?, 1)?;
    let plan = batch.plan(0, 4096, 0)?;
    let mut serials = Seq::new(alloc);
    serials.push(7)?;
    if serials.len() != plan.fresh.len() + 1 {
        return Err(Fail::from("a file too many"));
    }
    let spelled = batch.spell(&plan, 0, 4096, &serials)?;
    let bytes = spelled.as_slice();
    assert_eq!(rt; bytes.len(), 4096);
    assert!(rt; stands(bytes, 0, &ENQUEUE) && stands(bytes, 66, &[0xff; 62]));
    for index in 1..32 {
        assert!(rt;
            stands(bytes, 128 * index, &FILLER) && stands(bytes, 128 * index + 24, &[0xff; 104]),
            "filler {index}"
        );
    }

    let batch = batch_of(alloc, 4033, 1)?;
    let plan = batch.plan(0, 4096, 0)?;
    serials.push(8)?;
    if serials.len() != plan.fresh.len() + 1 {
        return Err(Fail::from("a file too many or too few"));
    }
    let spelled = batch.spell(&plan, 0, 4096, &serials)?;
    let bytes = spelled.as_slice();
    assert_eq!(rt; bytes.len(), 8192);
    assert!(rt;
        stands(bytes, 8, &[7, 0, 0, 0, 0, 0, 0, 0]),
        "the record starts in the first file"
    );
    assert!(rt;
        stands(bytes, 4224, b"QLSx\x02\0\0\0\x08\0\0\0\0\0\0\0\x01"),
        "a filler in the second"
    );
    Ok(())
}

#[test]
fn each_file_has_one_sync(rt: HostRuntime) -> Result<(), Fail> {
    let alloc = rt.alloc();
    let mut site = MemSite::new(alloc);
    site.create(1, 1, 4)?;
    write_part(&mut site, 1, 4096, &[0x5a; 512])?;
    site.create(2, 1, 4)?;
    let mut ids = Seq::new(alloc);
    ids.push(1)?;
    ids.push(2)?;
    sync_parts(&mut site, &ids)?;
    assert_eq!(rt; site.sync_count(), 2);
    assert_eq!(rt; site.moment_count(), 6);
    Ok(())
}
