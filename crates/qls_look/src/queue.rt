// A queue, from its journal's records.
ghost use Rattle.std.specs.Prelude.{◌≡◌, [], map, IfOk, IfSome};
ghost use Rattle.qls_model.specs.Ends.{messages_left};
ghost use Rattle.qls_model.specs.Messages.{decided};
ghost use Rattle.qls_model.specs.Sound.{IsNumbered, RisesTo};
ghost use Rattle.qls_site.specs.Disk.{full};
ghost use Rattle.qls_site.specs.Content.{Tells, OnlyLooks};
ghost use Rattle.qls_meaning.specs.Damage.{reading_claims};
ghost use Rattle.qls_meaning.specs.Meaning.{queue_of};
ghost use Rattle.qls_meaning.specs.Reading.{read_of};
ghost use Rattle.qls_replay.specs.Held.{held_after_all, messages_of};
ghost use Rattle.qls_scan.specs.Found.{IsInOrder};
ghost use Rattle.qls_reading.specs.ReadLogs.{journal_in, IsThere, IsGiven};
ghost use Rattle.qls_look.specs.Looking.{Says, NeverTakes, LookCauses};
ghost use Rattle.qls_look.specs.Seen.{verdict_in, answered};

use crate::fault::OpenFault;
use crate::settle::{States, messages_in};
use qls_model::{Name, NoMemory, QueueState, Seq};
use qls_reading::ReadLog;
use qls_record::Got;
use qls_replay::QueueReplay;
use qls_scan::JournalFiles;
use qls_site::Site;
use std::alloc::Global;

/// The queue of these files, its transactions ended by these states of the prepared list's entries, or the first damage of
/// its reading.
pub fn queue_in<S: Site>(
    alloc: Global,
    site: &mut S,
    files: JournalFiles,
    states: &States,
) -> Result<QueueState, OpenFault>
    requires order { IsInOrder files }
    requires there { IfSome (S.told site.old) (IsThere files) }
    ensures says { IfSome (S.told site.old) (λ c. let j = journal_in (full c.now.disk) files in Says (answered (decided (verdict_in states.now) (queue_of j)) (reading_claims j)) result) }
    ensures name { IfOk result (λ queue. queue.name ≡ files.name) }
    ensures numbered { IfOk result IsNumbered }
    ensures only { NeverTakes result }
    ensures told { Tells OnlyLooks (S.told site.old) (S.told site.new) }
    ensures cause { LookCauses (S.faults site.old) (S.faults site.new) result }
    ensures syncs { S.syncs site.new ≡ S.syncs site.old }
{
    let name = files.name;
    let (log, reads) = ReadLog::read(alloc, site, files)?;
    Ok(queue_left(alloc, name, &log, reads, states)?)
}

// The queue that is left of these records.
fn queue_left(
    alloc: Global,
    name: Name,
    log: &ReadLog,
    reads: Seq<Got>,
    states: &States,
) -> Result<QueueState, NoMemory>
    requires given { IsGiven log.now.journal log.now reads }
    ensures left { IfOk result (λ queue. queue ≡ record { name = name; last = log.now.rid; messages = messages_left (verdict_in states.now) (messages_of (held_after_all (map read_of reads) [])) }) }
    ensures rising { IfOk result (λ queue. RisesTo queue.last queue.messages) }
{
    let mut replay = QueueReplay::new(alloc);
    for got in reads.into_vec() {
        replay.take_in(got)?;
    }
    let (held, _) = replay.finish();
    Ok(QueueState {
        name,
        last: log.rid(),
        messages: messages_in(alloc, held, states)?,
    })
}
