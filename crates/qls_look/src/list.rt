// The prepared list, from its journal's records.
ghost use Rattle.std.specs.Prelude.{◌≡◌, [], map, IfOk, IfSome};
ghost use Rattle.qls_site.specs.Disk.{full};
ghost use Rattle.qls_site.specs.Content.{Tells, OnlyLooks};
ghost use Rattle.qls_meaning.specs.Damage.{reading_claims};
ghost use Rattle.qls_meaning.specs.Meaning.{records_of};
ghost use Rattle.qls_meaning.specs.Reading.{read_of};
ghost use Rattle.qls_meaning.specs.Replay.{entries_after};
ghost use Rattle.qls_scan.specs.Found.{IsInOrder};
ghost use Rattle.qls_reading.specs.ReadLogs.{journal_in, IsThere};
ghost use Rattle.qls_look.specs.Looking.{Says, NeverTakes, LookCauses};
ghost use Rattle.qls_look.specs.Seen.{XidsRise, answered};

use crate::fault::OpenFault;
use qls_decide::ListEntry;
use qls_model::{NoMemory, Seq};
use qls_reading::ReadLog;
use qls_record::Got;
use qls_replay::ListReplay;
use qls_scan::JournalFiles;
use qls_site::Site;
use std::alloc::Global;

/// The entries of the prepared list of these files, in byte order of xid, or the first damage of its reading.
pub fn entries_in<S: Site>(
    alloc: Global,
    site: &mut S,
    files: JournalFiles,
) -> Result<Seq<ListEntry>, OpenFault>
    requires order { IsInOrder files }
    requires there { IfSome (S.told site.old) (IsThere files) }
    ensures says { IfSome (S.told site.old) (λ c. let j = journal_in (full c.now.disk) files in Says (answered (entries_after (records_of j) []) (reading_claims j)) result) }
    ensures rise { IfOk result XidsRise }
    ensures only { NeverTakes result }
    ensures told { Tells OnlyLooks (S.told site.old) (S.told site.new) }
    ensures cause { LookCauses (S.faults site.old) (S.faults site.new) result }
    ensures syncs { S.syncs site.new ≡ S.syncs site.old }
{
    let (_, reads) = ReadLog::read(alloc, site, files)?;
    Ok(entries_left(alloc, reads.as_slice())?)
}

// The entries that these records leave.
fn entries_left(alloc: Global, reads: &[Got]) -> Result<Seq<ListEntry>, NoMemory>
    ensures left { IfOk result (λ entries. entries ≡ entries_after (map (λ got. (read_of got).what) reads.now) []) }
    ensures rise { IfOk result XidsRise }
{
    let mut replay = ListReplay::new(alloc);
    for got in reads {
        replay.apply(got)?;
    }
    Ok(replay.finish())
}
