//! Outside values: the vectors of RFC 1950's checksum, worked lengths, and the header of a record byte by byte.
use crate::{AdlerSum, Field, Layout, Split, Version, adler, padded, split_over};
use std::test::Fail;

/// A record's header: magic, version, flags, serial, record id.
const HEADER: [Field; 5] = [
    Field { at: 0, width: 4 },
    Field { at: 4, width: 2 },
    Field { at: 6, width: 2 },
    Field { at: 8, width: 8 },
    Field { at: 16, width: 8 },
];

#[test]
fn sums_bytes(rt: HostRuntime) {
    assert_eq!(rt; adler(b""), 0x0000_0001);
    assert_eq!(rt; adler(b"abc"), 0x024d_0127);
    assert_eq!(rt; adler(b"Wikipedia"), 0x11e6_0398);
    assert_eq!(rt; adler(&[0xff; 8192]), 0xf4a3_e1d2);
    let mut sum = AdlerSum::new();
    sum.add(b"Wiki");
    sum.add(b"pedia");
    assert_eq!(rt; sum.value(), 0x11e6_0398);
}

#[test]
fn measures_lengths(rt: HostRuntime) {
    for (length, want) in [
        (0, 0),
        (64, 128),
        (66, 128),
        (128, 128),
        (129, 256),
        (4_096, 4_096),
        (4_097, 4_224),
        (1_048_640, 1_048_704),
        (1_048_768, 1_048_832),
    ] {
        assert_eq!(rt; padded(length), want, "at {length}");
    }
    for (used, length, first, whole, last) in [
        (0, 4_096, 4_096, 0, 0),
        (128, 4_096, 3_968, 0, 128),
        (4_096, 8_193, 0, 2, 1),
        (4_000, 4_192, 96, 1, 0),
    ] {
        let want = Split { first, whole, last };
        assert_eq!(rt; split_over(used, 4_096, length), want, "at {used}");
    }
}

#[test]
fn checks_tables(rt: HostRuntime) {
    let pair = |at, width| [Field { at: 0, width: 4 }, Field { at, width }];
    assert!(rt; Layout::checked(8, pair(4, 4)).is_some());
    assert!(rt; Layout::checked(8, pair(6, 2)).is_some());
    assert!(rt; Layout::checked(8, pair(3, 4)).is_none(), "an overlap");
    assert!(rt; Layout::checked(8, pair(4, 3)).is_none(), "a width of 3");
    assert!(rt; Layout::checked(8, pair(6, 4)).is_none(), "past the total");
    assert!(rt;
        Layout::checked(8, pair(usize::MAX, 4)).is_none(),
        "far past the total"
    );
    let falling = [Field { at: 4, width: 4 }, Field { at: 0, width: 4 }];
    assert!(rt; Layout::checked(8, falling).is_none(), "out of order");
}

#[test]
fn gets_and_puts(rt: HostRuntime) -> Result<(), Fail> {
    let header = Layout::checked(24, HEADER).ok_or("no table")?;
    let bytes = *b"QLSe\x02\0\0\0\x07\0\0\0\0\0\0\0\x01\0\0\0\0\0\0\0\xaa\xbb";
    let numbers = [0x6553_4c51, 2, 0, 7, 1];
    assert_eq!(rt; header.get_fields(&bytes), numbers);
    let mut into = [0xff; 26];
    header.put_fields(&numbers, &mut into);
    assert_eq!(rt; into[..24], bytes[..24]);
    assert!(rt; into[24..] == [0xff, 0xff]);
    assert_ne!(rt; Version::Two, Version::Three);
    Ok(())
}
