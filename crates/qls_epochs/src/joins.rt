// Laws of a journal that goes on in a later epoch.
ghost use Rattle.std.specs.Prelude.{◌≡◌, ◌<◌, List, [], ◌∷◌, ◌++◌, length, None, false};
ghost use Rattle.std.specs.List.{AllByRecursion};
ghost use Rattle.qls_meaning.specs.Journals.{Headed, Journal, is_queue};
ghost use Rattle.qls_meaning.specs.Reading.{record_in, journal_reading};
ghost use Rattle.qls_meaning.specs.Dead.{past_files};
ghost use Rattle.qls_meaning.specs.Meaning.{records_of, queue_of, entries_of};
ghost use Rattle.qls_meaning.specs.Replay.{queue_after, entries_after};
ghost use Rattle.qls_laws.specs.Undamaged.{BreaksNoRule};
ghost use Rattle.qls_epochs.specs.Whole.{IsWhole};
ghost use Rattle.qls_epochs.specs.Joins.{joined, alone, Begins, IsNextEpoch};

/// A whole journal with the files of a later epoch behind it breaks no rule. What is read of it is what was read, and then what is
/// read of those files alone; and those of them lie past the reading that do so alone.
pub fn later_epoch_goes_on()
    ensures rules { (j : Journal) (own : List Headed) → IsWhole j → IsNextEpoch j own → BreaksNoRule (joined j own) }
    ensures reading { (j : Journal) (own : List Headed) → IsWhole j → IsNextEpoch j own
        → journal_reading (joined j own) ≡ journal_reading j ++ journal_reading (alone j own) }
    ensures past { (j : Journal) (own : List Headed) → IsWhole j → IsNextEpoch j own → past_files (joined j own) ≡ past_files (alone j own) }
    ensures whole { (j : Journal) (own : List Headed) → IsWhole j → IsNextEpoch j own → past_files (alone j own) ≡ [] → IsWhole (joined j own) }
{}

/// And it means what the records of those files make of what it meant: of a queue, or of the prepared list's entries.
pub fn later_epoch_is_replayed()
    ensures queue { (j : Journal) (own : List Headed) → IsWhole j → IsNextEpoch j own
        → queue_of (joined j own) ≡ queue_after (records_of (alone j own)) (queue_of j) }
    ensures list { (j : Journal) (own : List Headed) → IsWhole j → IsNextEpoch j own → is_queue j.kind ≡ false
        → entries_of (joined j own ∷ []) ≡ entries_after (records_of (alone j own)) (entries_of (j ∷ [])) }
{}

/// A file that begins there, with a data area in which no record stands at the front, is such a later epoch. Nothing is read of it, and
/// the only file of a journal doesn't lie past its reading.
pub fn empty_file_is_an_epoch()
    ensures epoch { (j : Journal) (g : Headed) → AllByRecursion (λ f. f.header.epoch < g.header.epoch) j.files → Begins j g
        → 0 < length g.area → record_in (g ∷ []) 0 ≡ None → IsNextEpoch j (g ∷ []) }
    ensures reading { (j : Journal) (g : Headed) → g.header.first ≡ 4096 → record_in (g ∷ []) 0 ≡ None → journal_reading (alone j (g ∷ [])) ≡ [] }
    ensures past { (j : Journal) (g : Headed) → past_files (alone j (g ∷ [])) ≡ [] }
{}
