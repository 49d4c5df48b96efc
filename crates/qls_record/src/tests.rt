//! Outside values: records byte by byte, what must not be read as one, and worked lengths.
ghost use Rattle.std.specs.Prelude.{◌≡◌, ◌≤◌, false, length};

use crate::{Head, Kind, encode_into, length, read_head, read_whole, rid_after};

/// An enqueue of the body `hi`, for serial 7, up to its padding.
const ENQUEUE: [u8; 66] = *b"QLSe\x02\0\0\0\x07\0\0\0\0\0\0\0\x01\0\0\0\0\0\0\0\
    \0\0\0\0\0\0\0\0\x02\0\0\0\0\0\0\0hi\
    \xae\xb3\xac\x9a\x33\x02\x9c\x38\x07\0\0\0\0\0\0\0\x01\0\0\0\0\0\0\0";

/// A dequeue with the commit flag, for serial 9, up to its padding.
const DEQUEUE: [u8; 65] = *b"QLSd\x02\0\x10\0\x09\0\0\0\0\0\0\0\x04\0\0\0\0\0\0\0\
    \x04\0\0\0\0\0\0\0\x01\0\0\0\0\0\0\0\x01\
    \xae\xb3\xac\x9b\x7a\x01\xd4\x38\x09\0\0\0\0\0\0\0\x04\0\0\0\0\0\0\0";

/// A filler, for serial 7, up to its padding.
const FILLER: [u8; 24] = *b"QLSx\x02\0\0\0\x07\0\0\0\0\0\0\0\x01\0\0\0\0\0\0\0";

/// The bytes, with 0xff behind them up to 128.
fn unit(front: &[u8]) -> [u8; 128]
    requires { length front.now ≤ 128 }
{
    let mut bytes = [0xff; 128];
    bytes[..front.len()].copy_from_slice(front);
    bytes
}

/// A head of that kind with record id 1, and nothing else.
fn plain(kind: Kind) -> Head
    ensures { result ≡ record { kind = kind; flagged = false; rid = 1; target = 0; xid_size = 0; body_size = 0 } }
{
    Head {
        kind,
        flagged: false,
        rid: 1,
        target: 0,
        xid_size: 0,
        body_size: 0,
    }
}

#[test]
fn writes_and_reads(rt: HostRuntime) {
    let enqueue = Head {
        body_size: 2,
        ..plain(Kind::Enqueue)
    };
    let mut bytes = [0; 128];
    encode_into(&enqueue, 7, b"", b"hi", &mut bytes);
    assert_eq!(rt; bytes, unit(&ENQUEUE));
    assert_eq!(rt; read_whole(&bytes, 7), Some(enqueue));
    assert_eq!(rt; read_head(&bytes[..40], 7), Some(enqueue));

    let dequeue = Head {
        kind: Kind::Dequeue,
        flagged: true,
        rid: 4,
        target: 4,
        xid_size: 1,
        body_size: 0,
    };
    encode_into(&dequeue, 9, b"\x01", b"", &mut bytes);
    assert_eq!(rt; bytes, unit(&DEQUEUE));
    assert_eq!(rt; read_whole(&bytes, 9), Some(dequeue));

    let filler = plain(Kind::Filler);
    encode_into(&filler, 7, b"", b"", &mut bytes);
    assert_eq!(rt; bytes, unit(&FILLER));
    assert_eq!(rt; read_whole(&bytes, 7), Some(filler));
}

#[test]
fn reads_no_part(rt: HostRuntime) {
    let enqueue = unit(&ENQUEUE);
    assert!(rt; read_whole(&enqueue, 7).is_some());
    assert_eq!(rt; read_whole(&enqueue, 8), None, "another serial");
    assert_eq!(rt; read_head(&enqueue, 8), None, "another serial");
    for cut in 0..128 {
        let front = &enqueue[..cut];
        assert_eq!(rt; read_whole(front, 7), None, "cut to {cut}");
        assert_eq!(rt; read_head(front, 7).is_some(), cut >= 40, "cut to {cut}");
    }
}

#[test]
fn reads_nothing_changed(rt: HostRuntime) {
    let enqueue = unit(&ENQUEUE);
    for at in 66..128 {
        let mut bytes = enqueue;
        bytes[at] = 0xfe;
        assert_eq!(rt; read_whole(&bytes, 7), None, "padding at {at}");
    }
    for (at, byte) in [
        (6, 0x01),
        (50, 0x08),
        (4, 0x03),
        (40, 0x69),
        (58, 0x02),
        (42, 0xaf),
        (24, 0x81),
    ] {
        let mut bytes = enqueue;
        assert!(rt; at < bytes.len());
        bytes[at] = byte;
        assert_eq!(rt; read_whole(&bytes, 7), None, "{byte} at {at}");
    }
}

/// The enqueue with another body size in its header.
fn with_body_size(size: u32) -> [u8; 128] {
    let mut bytes = unit(&ENQUEUE);
    bytes[32..36].copy_from_slice(&size.to_le_bytes());
    bytes
}

#[test]
fn reads_no_large_body(rt: HostRuntime) {
    let largest = with_body_size(1_048_576);
    assert!(rt; read_head(&largest, 7).is_some());
    assert_eq!(rt; read_whole(&largest, 7), None, "the rest is missing");
    let larger = with_body_size(1_048_577);
    assert_eq!(rt; read_head(&larger, 7), None, "a body of 1,048,577 bytes");
    assert_eq!(rt; read_whole(&larger, 7), None, "a body of 1,048,577 bytes");
}

#[test]
fn measures(rt: HostRuntime) {
    for (body_size, xid_size, want) in [
        (0, 0, 128),
        (2, 0, 128),
        (64, 0, 128),
        (65, 0, 256),
        (4_032, 0, 4_096),
        (4_033, 0, 4_224),
        (1_048_576, 0, 1_048_704),
        (1_048_576, 128, 1_048_832),
    ] {
        assert!(rt; xid_size <= 128 && body_size <= 1_048_576);
        let head = Head {
            xid_size,
            body_size,
            ..plain(Kind::Enqueue)
        };
        assert_eq!(rt; length(&head), want, "at {body_size} and {xid_size}");
    }
    for (kind, xid_size, want) in [
        (Kind::Dequeue, 64, 128),
        (Kind::Dequeue, 65, 256),
        (Kind::Commit, 72, 128),
        (Kind::Abort, 73, 256),
    ] {
        assert!(rt; xid_size <= 128);
        let head = Head {
            xid_size,
            ..plain(kind)
        };
        assert_eq!(rt; length(&head), want, "at {xid_size}");
    }
    assert_eq!(rt; rid_after(4, Kind::Enqueue), 5);
    for kind in [Kind::Dequeue, Kind::Commit, Kind::Abort, Kind::Filler] {
        assert_eq!(rt; rid_after(4, kind), 4);
    }
}
