// A record as a batch holds it.
ghost use Rattle.std.specs.Prelude.{◌≡◌, length, IsTrue};
ghost use Rattle.qls_record.specs.Head.{is_legal_head};

use qls_model::{Bytes, Xid};
use qls_record::Head;

/// A record as a batch holds it: a legal head, and the xid and body of its sizes.
#[derive(Drop)]
pub struct Entry {
    pub head: Head,
    pub xid: Xid,
    pub body: Bytes,
    ghost legal: { IsTrue (is_legal_head head) },
    ghost xid_size: { length xid ≡ head.xid_size },
    ghost body_size: { length body ≡ head.body_size },
}

impl Entry {
    ghost use Rattle.std.specs.Prelude.{◌≤◌};
    ghost use Rattle.qls_shape.specs.declared.Version.TheVariants.{Two};
    ghost use Rattle.qls_record.specs.Record.{record_length};
    ghost use Rattle.qls_blocks.specs.Entries.{record_of};

    /// How many bytes the record takes, padding included.
    #[tactic(auto, using(crate::proofs::Lengths::legal_xid, crate::proofs::Lengths::legal_body, crate::proofs::Lengths::entry_length, crate::proofs::Lengths::length_within))]
    pub fn length(&self) -> u64
        ensures exact { result ≡ record_length Two (record_of self.now) }
        ensures few { result ≤ 1048832 }
    {
        qls_record::length(&self.head)
    }
}
