// A batch lies over files as a reading sees it.
ghost use Rattle.std.specs.Prelude.{◌≡◌, ℕ, ◌+◌, ◌≤◌, ◌<◌, ◌++◌, ◌∷◌, [], List, length, map};
ghost use Rattle.qls_record.specs.Record.{Record};
ghost use Rattle.qls_meaning.specs.Journals.{Headed};
ghost use Rattle.qls_meaning.specs.Reading.{stream, spelled_from, placed_from, end_from};
ghost use Rattle.qls_meaning.specs.Damage.{first_in, rid_before};
ghost use Rattle.qls_blocks.specs.Batching.{length_of, laid_from, places_from};
ghost use Rattle.qls_blocks.specs.Spelled.{spelled_over};
ghost use Rattle.qls_blocks.specs.Laws.{HaveCapacity, serials_of};

/// What is spelled over files of one capacity, for their serials, is what is spelled in the stream of these files and of
/// those before them; the records lie there at the same places, which count on from the files before.
pub fn batch_over_files()
    ensures spelled { (capacity p : ℕ) (before fs : List Headed) (rs : List Record) → 0 < capacity → HaveCapacity capacity fs → p + length_of rs ≤ length (stream fs)
        → spelled_from (before ++ fs) (length (stream before) + p) rs ≡ spelled_over capacity (serials_of fs) p rs }
    ensures placed { (p : ℕ) (fs : List Headed) (rs : List Record) → p + length_of rs ≤ length (stream fs) → placed_from fs p rs ≡ laid_from p rs }
    ensures places { (p : ℕ) (rs : List Record) → map (λ r. r.at) (laid_from p rs) ++ end_from p (laid_from p rs) ∷ [] ≡ places_from p rs }
    ensures first { (k start size p : ℕ) (rs : List Record) → first_in (k + start) size (places_from (k + p) rs) ≡ first_in start size (places_from p rs) }
    ensures rid { (k start rid p : ℕ) (rs : List Record) → rid_before rid (laid_from (k + p) rs) (k + start) ≡ rid_before rid (laid_from p rs) start }
{}
