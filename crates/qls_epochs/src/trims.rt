// Laws of a journal without its newest file, where that lies past the reading.
ghost use Rattle.std.specs.Prelude.{◌≡◌, ℕ, List, [], ◌∷◌, ◌++◌, map, length, true};
ghost use Rattle.qls_site.specs.declared.site.Place.TheVariants.{InUse, Empty};
ghost use Rattle.qls_site.specs.declared.site.ImageFile.{ImageFile};
ghost use Rattle.qls_site.specs.Disk.{Image};
ghost use Rattle.qls_meaning.specs.Journals.{Headed, Journal, in_use, headed};
ghost use Rattle.qls_meaning.specs.Reading.{journal_reading};
ghost use Rattle.qls_meaning.specs.Dead.{past_files};
ghost use Rattle.qls_meaning.specs.Damage.{is_pool};
ghost use Rattle.qls_meaning.specs.Meaning.{meaning};
ghost use Rattle.qls_laws.specs.Undamaged.{BreaksNoRule, journal_with};
ghost use Rattle.qls_laws.specs.Returns.{with_between, KeepsAllRules};
ghost use Rattle.qls_epochs.specs.Trims.{without_newest};

/// The last of the files past a journal's reading is its newest file. Without it the journal reads the same and breaks no rule that
/// it didn't break, and the others are the files past its reading.
pub fn file_past_the_reading_may_go()
    ensures newest { (j : Journal) (ps : List Headed) (f : Headed) → past_files j ≡ ps ++ f ∷ [] → j.files ≡ (without_newest j).files ++ f ∷ [] }
    ensures rules { (j : Journal) (ps : List Headed) (f : Headed) → past_files j ≡ ps ++ f ∷ [] → BreaksNoRule j → BreaksNoRule (without_newest j) }
    ensures past { (j : Journal) (ps : List Headed) (f : Headed) → past_files j ≡ ps ++ f ∷ [] → past_files (without_newest j) ≡ ps }
    ensures reading { (j : Journal) (ps : List Headed) (f : Headed) → past_files j ≡ ps ++ f ∷ []
        → journal_reading (without_newest j) ≡ journal_reading j }
{}

/// An image that breaks no rule breaks none and means the same once such a file went to a pool of its size.
pub fn image_without_a_file_past_the_reading()
    ensures back { (before after : Image) (f : ImageFile) (part kib : ℕ) (ps : List Headed) → KeepsAllRules (with_between before f InUse after)
        → past_files (journal_with (map headed (in_use (with_between before f InUse after))) (headed f)) ≡ ps ++ headed f ∷ []
        → is_pool (length f.bytes) (Empty part kib) ≡ true
        → KeepsAllRules (with_between before f (Empty part kib) after)
        × (meaning (with_between before f (Empty part kib) after) ≡ meaning (with_between before f InUse after)) }
{}
