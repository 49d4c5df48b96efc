// Laws over open journals. Each is the contract of a function that does nothing: calling it hands the law to the caller.
ghost use Rattle.std.specs.Prelude.{◌≡◌, List, [], map, Ok};
ghost use Rattle.std.specs.List.{filter_map};
ghost use Rattle.qls_model.specs.Messages.{decided};
ghost use Rattle.qls_site.specs.Disk.{Disk, full};
ghost use Rattle.qls_decide.specs.Entries.{verdict_by};
ghost use Rattle.qls_meaning.specs.Chance.{EachPlaceOf, SpellsWritten};
ghost use Rattle.qls_meaning.specs.Dead.{NoneDead};
ghost use Rattle.qls_meaning.specs.History.{History, FreeArea, now};
ghost use Rattle.qls_meaning.specs.Meaning.{meaning, in_doubt};
ghost use Rattle.qls_meaning.specs.Spent.{list_rid};
ghost use Rattle.qls_prepared.specs.Lists.{rid_of};
ghost use Rattle.qls_journals.specs.Moments.{AreWritten};
ghost use Rattle.qls_journals.specs.State.{JournalsState, queues_of, AreJournals, Fits, IsWhole, IsClean, NonePast};

/// A disk that whole journals fit means their queues, each transaction ended as the list says, and in doubt are those that
/// are prepared. No file lies past the reading of its journal, and where the list's oldest file isn't dead no journal has a
/// dead oldest file.
pub fn whole_journals_are_their_meaning()
    ensures meaning { (s : JournalsState) (d : Disk) → AreJournals s → Fits s d → IsWhole s d
        → meaning (full d) ≡ Ok (record { queues = map (decided (verdict_by s.list.entries)) (queues_of s); xids = filter_map in_doubt s.list.entries }) }
    ensures alive { (s : JournalsState) (d : Disk) → AreJournals s → Fits s d → IsClean s d → NoneDead (full d) }
    ensures past { (s : JournalsState) (d : Disk) → AreJournals s → Fits s d → IsWhole s d → NonePast d }
    ensures rid { (s : JournalsState) (d : Disk) → AreJournals s → Fits s d → IsWhole s d → list_rid d ≡ rid_of s.list }
{}

/// No record that is read of whole journals has a byte in an unwritten sector.
pub fn what_journals_read_was_written()
    ensures written { (areas : List FreeArea) (h : History) (s : JournalsState) → AreJournals s → Fits s (now h).disk → IsWhole s (now h).disk → AreWritten areas h s
        → EachPlaceOf (SpellsWritten areas h) (full (now h).disk) }
{
    qls_log::laws::what_is_read_was_written();
}
