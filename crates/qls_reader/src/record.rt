// The record that stands at a place.
ghost use Rattle.std.specs.Prelude.{◌≡◌, ◌≤◌, length, drop, IfOk, IfSome};
ghost use Rattle.std.specs.Option.{option_map};
ghost use Rattle.qls_record.specs.Head.{head_record_length};
ghost use Rattle.qls_site.specs.Content.{Content, Tells, Causes};
ghost use Rattle.qls_reader.specs.Spots.{AreThere};
ghost use Rattle.qls_reader.specs.Windows.{held, IsWindow, IsAhead, ReadsOnce};
ghost use Rattle.qls_reader.specs.Reads.{OnlyReads};
ghost use Rattle.qls_reader.specs.Records.{record_on, record_from};

use crate::spot::FileSpot;
use crate::window::{Window, read_ahead};
use qls_record::{Head, length, read_head, read_whole};
use qls_site::{Site, SiteError};

/// How many bytes a record's head has at most, which tells how long the record is.
const HEAD: u64 = 40;

/// The head of the record that stands at the window's place; the record itself is then the first of what is held. None
/// exactly where no record is spelled there for the serial of the file that holds the place.
pub fn read_record<S: Site>(
    site: &mut S,
    files: &[FileSpot],
    window: &mut Window,
) -> Result<Option<Head>, SiteError>
    requires there { IfSome (S.told site.old) (AreThere files.now) }
    requires sound { IsWindow files.now window.old }
    requires ahead { IfSome (S.told site.old) (λ c. IsAhead c.now.disk files.now window.old) }
    ensures sound { IsWindow files.now window.new }
    ensures at { window.new.at ≡ window.old.at }
    ensures ahead { IfSome (S.told site.old) (λ c. IsAhead c.now.disk files.now window.new) }
    ensures stands { IfOk result (λ o. IfSome (S.told site.old) (λ c. option_map (record_from (held window.new)) o ≡ record_on c.now.disk (drop window.old.at.file files.now) window.old.at.within)) }
    ensures sizes { IfOk result (λ o. IfSome o (λ h. (h.xid_size ≤ 128) × (h.body_size ≤ 1048576) × (head_record_length h ≤ length (held window.new)))) }
    ensures once { IfOk result (λ _. ReadsOnce files.now window.old window.new (S.reads site.old) (S.reads site.new)) }
    ensures told { Tells OnlyReads (S.told site.old) (S.told site.new) }
    ensures cause { Causes (S.faults site.old) (S.faults site.new) result }
    ensures syncs { S.syncs site.new ≡ S.syncs site.old }
    ensures reads { S.reads site.old ≤ S.reads site.new }
{
    if window.at.file >= files.len() {
        return Ok(None);
    }
    let serial = files[window.at.file].serial;
    read_ahead(site, files, window, HEAD)?;
    let Some(head) = read_head(&window.bytes[window.passed..], serial) else {
        return Ok(None);
    };
    read_ahead(site, files, window, length(&head))?;
    Ok(read_whole(&window.bytes[window.passed..], serial))
}
