//! One header byte by byte, and what each rule refuses.
use crate::{FileHeader, JournalKind, Rule, rule_text};
use qls_model::Name;
use std::test::Fail;

/// A queue's first file: serial 7, pool 1 4, named `a`. Zeros follow up to 4,096.
const FIRST_FILE: [u8; 65] = [
    0x51, 0x4c, 0x53, 0x66, 0x02, 0x00, 0x00, 0x00, 0x07, 0x00, 0x00, 0x00, 0x00, 0x00, 0x00, 0x00,
    0x00, 0x00, 0x00, 0x00, 0x00, 0x00, 0x00, 0x00, 0x01, 0x00, 0x00, 0x00, 0x04, 0x00, 0x00, 0x00,
    0x00, 0x10, 0x00, 0x00, 0x00, 0x00, 0x00, 0x00, 0x01, 0x00, 0x00, 0x00, 0x00, 0x00, 0x00, 0x00,
    0x01, 0x00, 0x00, 0x00, 0x00, 0x00, 0x00, 0x00, 0x01, 0x00, 0x01, 0x00, 0x61, 0xda, 0x01, 0x70,
    0x54,
];

fn first_file() -> [u8; 4096] {
    let mut bytes = [0; 4096];
    bytes[..65].copy_from_slice(&FIRST_FILE);
    bytes
}

#[test]
fn spells_a_header(rt: HostRuntime) -> Result<(), Fail> {
    let header = FileHeader {
        serial: 7,
        rid: 0,
        part: 1,
        kib: 4,
        first: 4096,
        number: 1,
        epoch: 1,
        kind: JournalKind::Queue,
        name: Name::new(b"a").ok_or("a long name")?,
    };
    let mut into = [0xff; 4096];
    header.encode_into(&mut into);
    assert_eq!(rt; &into[..65], FIRST_FILE.as_slice());
    assert!(rt; into[65..].iter().all(|byte| *byte == 0));
    Ok(())
}

#[test]
fn reads_a_header(rt: HostRuntime) -> Result<(), Fail> {
    let header = FileHeader::read(&first_file())?;
    assert_eq!(rt;
        (header.serial, header.rid, header.part, header.kib),
        (7, 0, 1, 4)
    );
    assert_eq!(rt; (header.first, header.number, header.epoch), (4096, 1, 1));
    assert_eq!(rt; header.kind, JournalKind::Queue);
    assert_eq!(rt; header.name.as_slice(), b"a".as_slice());
    Ok(())
}

#[test]
fn names_the_first_rule(rt: HostRuntime) {
    for (at, byte, rule, word) in [
        (0, 0x00, Rule::Magic, "magic"),
        (4, 0x09, Rule::Version, "version"),
        (6, 0x10, Rule::Flags, "flags"),
        (24, 0x00, Rule::Partition, "partition"),
        (28, 0x05, Rule::Kib, "kib"),
        (32, 0x01, Rule::Place, "place"),
        (48, 0x00, Rule::Counter, "counter"),
        (56, 0x03, Rule::Kind, "kind"),
        (60, 0x20, Rule::Name, "name"),
        (48, 0x03, Rule::Checksum, "checksum"),
        (4095, 0x01, Rule::Zeros, "zeros"),
    ] {
        let mut bytes = first_file();
        bytes[at] = byte;
        assert_eq!(rt; FileHeader::read(&bytes).err(), Some(rule), "byte {at}");
        assert_eq!(rt; rule_text(rule), word);
    }
}
