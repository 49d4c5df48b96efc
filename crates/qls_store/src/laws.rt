// Laws over stores. Each is the contract of a function that does nothing: calling it hands the law to the caller.
ghost use Rattle.std.specs.Prelude.{◌≡◌, List, [], Ok};
ghost use Rattle.qls_model.specs.Machine.{settle};
ghost use Rattle.qls_site.specs.Disk.{Disk, full};
ghost use Rattle.qls_meaning.specs.Chance.{EachPlaceOf, SpellsWritten};
ghost use Rattle.qls_meaning.specs.Dead.{NoneDead};
ghost use Rattle.qls_meaning.specs.History.{History, FreeArea, now};
ghost use Rattle.qls_meaning.specs.Meaning.{meaning};
ghost use Rattle.qls_meaning.specs.Spent.{list_rid};
ghost use Rattle.qls_journals.specs.State.{NonePast};
ghost use Rattle.qls_journals.specs.Moments.{AreWritten};
ghost use Rattle.qls_store.specs.Stores.{StoreState, state_of, rid_of, IsStore, Fits, IsClean};

/// A disk that a clean store fits means the store's state, settled. No journal has a dead oldest file, nor a file past its
/// reading, and the record id in force in the list is the store's.
pub fn clean_store_is_its_meaning()
    ensures meaning { (s : StoreState) (d : Disk) → IsStore s → Fits s d → IsClean s d → meaning (full d) ≡ Ok (settle (state_of s)) }
    ensures alive { (s : StoreState) (d : Disk) → IsStore s → Fits s d → IsClean s d → NoneDead (full d) }
    ensures past { (s : StoreState) (d : Disk) → IsStore s → Fits s d → IsClean s d → NonePast d }
    ensures rid { (s : StoreState) (d : Disk) → IsStore s → Fits s d → IsClean s d → list_rid d ≡ rid_of s }
{
    qls_journals::laws::whole_journals_are_their_meaning();
}

/// No record that is read of a clean store's journals has a byte in an unwritten sector.
pub fn what_a_store_reads_was_written()
    ensures written { (areas : List FreeArea) (h : History) (s : StoreState) → IsStore s → Fits s (now h).disk → IsClean s (now h).disk → AreWritten areas h s.journals
        → EachPlaceOf (SpellsWritten areas h) (full (now h).disk) }
{
    qls_journals::laws::what_journals_read_was_written();
}
