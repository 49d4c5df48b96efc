// Parts of a batch on their way to the site.
ghost use Rattle.std.specs.Prelude.{◌≡◌, ℕ, ◌%◌, ◌<◌, length, IfSome};
ghost use Rattle.qls_site.specs.Disk.{write_at};
ghost use Rattle.qls_site.specs.Content.{Tells, Leads, Acts, Causes, HasRange, on_disk};
ghost use Rattle.qls_blocks.specs.Parts.{HasFiles, Syncs, CountsUpTo};

use qls_model::Seq;
use qls_site::{Site, SiteError};

/// Writes the part of one file, at a place of the file in bytes: one write, which is pending then.
///
/// The file is there and has this range; the place and the length are multiples of 512, and the length isn't 0. Failed
/// comes only where the site's count of faults rose; the write counts as pending then too. Want of memory changes nothing.
pub fn write_part<S: Site>(site: &mut S, id: u64, at: u64, bytes: &[u8]) -> Result<(), SiteError>
    requires range { IfSome (S.told site.old) (HasRange id at (length bytes.now)) }
    requires sectors { (at % 512 ≡ 0) × (length bytes.now % 512 ≡ 0) × (0 < length bytes.now) }
    ensures told { Tells (Leads (Acts (on_disk (write_at id at bytes.now))) (Acts (on_disk (write_at id at bytes.now))) result) (S.told site.old) (S.told site.new) }
    ensures cause { Causes (S.faults site.old) (S.faults site.new) result }
    ensures syncs { S.syncs site.new ≡ S.syncs site.old }
    ensures reads { S.reads site.new ≡ S.reads site.old }
{
    site.write(id, at, bytes)
}

/// Syncs each file, in order: one sync each. The files are there.
///
/// An error ends it: the files before that one are synced. Failed comes only where the site's count of faults rose.
pub fn sync_parts<S: Site>(site: &mut S, ids: &Seq<u64>) -> Result<(), SiteError>
    requires there { IfSome (S.told site.old) (HasFiles ids.now) }
    ensures told { Tells (Syncs ids.now result) (S.told site.old) (S.told site.new) }
    ensures cause { Causes (S.faults site.old) (S.faults site.new) result }
    ensures syncs { CountsUpTo (S.told site.old) result (length ids.now) (S.syncs site.old) (S.syncs site.new) }
    ensures reads { S.reads site.new ≡ S.reads site.old }
{
    for id in ids.as_slice() {
        site.sync(*id)?;
    }
    Ok(())
}
