// Laws of a journal of any number of epochs without its oldest file.
ghost use Rattle.std.specs.Prelude.{◌≡◌, ◌<◌, ℕ, [], ◌∷◌, length, true, false};
ghost use Rattle.std.specs.List.{filter};
ghost use Rattle.qls_site.specs.declared.site.Place.TheVariants.{InUse, Empty};
ghost use Rattle.qls_site.specs.declared.site.ImageFile.{ImageFile};
ghost use Rattle.qls_site.specs.Disk.{Image};
ghost use Rattle.qls_meaning.specs.Journals.{Journal, headed, is_queue};
ghost use Rattle.qls_meaning.specs.Reading.{journal_reading};
ghost use Rattle.qls_meaning.specs.Dead.{oldest_number, has_dead_oldest};
ghost use Rattle.qls_meaning.specs.Damage.{is_pool};
ghost use Rattle.qls_meaning.specs.Meaning.{queue_of, entries_of, meaning};
ghost use Rattle.qls_laws.specs.Returns.{without_oldest, starts_elsewhere, with_between, KeepsAllRules};
ghost use Rattle.qls_epochs.specs.Whole.{IsWhole, MayGoBack};

/// Where a journal breaks no rule and none of its files lies past its reading, the same holds without its oldest file, and what is
/// read then are the records that start in the files that are left, at the places where they lay. Where the oldest file is the only
/// one of its epoch, the next epoch becomes the oldest.
pub fn oldest_file_may_go()
    ensures whole { (j : Journal) → 1 < length j.files → IsWhole j → IsWhole (without_oldest j) }
    ensures reading { (j : Journal) → 1 < length j.files → IsWhole j
        → journal_reading (without_oldest j) ≡ filter (starts_elsewhere (oldest_number j.files)) (journal_reading j) }
{}

/// Such a journal means the same without its oldest file, where that is dead: a queue has its last number and its messages, and
/// the prepared list its entries.
pub fn dead_file_says_nothing()
    ensures queue { (j : Journal) → IsWhole j → has_dead_oldest j ≡ true → is_queue j.kind ≡ true → queue_of (without_oldest j) ≡ queue_of j }
    ensures list { (j : Journal) → IsWhole j → has_dead_oldest j ≡ true → is_queue j.kind ≡ false
        → entries_of (without_oldest j ∷ []) ≡ entries_of (j ∷ []) }
{}

/// An image that breaks no rule breaks none and means the same once such a file went back to a pool of its size.
pub fn image_without_a_dead_file()
    ensures back { (before after : Image) (f : ImageFile) (part kib : ℕ) → KeepsAllRules (with_between before f InUse after)
        → MayGoBack (with_between before f InUse after) (headed f) → is_pool (length f.bytes) (Empty part kib) ≡ true
        → KeepsAllRules (with_between before f (Empty part kib) after)
        × (meaning (with_between before f (Empty part kib) after) ≡ meaning (with_between before f InUse after)) }
{}
