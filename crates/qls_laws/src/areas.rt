// Laws of files that came into use over old bytes: from where on they are clean, and that no record stands there.
ghost use Rattle.std.specs.Prelude.{◌≡◌, ◌≢◌, ◌≤◌, ◌<◌, ◌+◌, ◌*◌, ◌^◌, ℕ, List, [], ◌∷◌, ◌++◌, map, length, drop, Some, None, true, false, Bool};
ghost use Rattle.std.specs.List.{AllByRecursion};
ghost use Rattle.std.specs.Int.{w64};
ghost use Rattle.qls_shape.specs.Fields.{number_at};
ghost use Rattle.qls_record.specs.Record.{Record};
ghost use Rattle.qls_site.specs.declared.site.Place.{Place};
ghost use Rattle.qls_site.specs.Disk.{Disk, FileState, full_file, bare_file, file_of, write_at, sync_at, relocate_at, create_at};
ghost use Rattle.qls_site.specs.Content.{Moment, InFile};
ghost use Rattle.qls_meaning.specs.Journals.{Headed, headed, is_in_use};
ghost use Rattle.qls_meaning.specs.Reading.{Holder, holder, stream, record_in, placed_from, spelled_from, end_from, begin_place, epoch_reading};
ghost use Rattle.qls_meaning.specs.History.{FreeArea, IsUnmarked, IsCleanIn, CleanFile, IsClean, is_taken_before, is_free, uses, newly_used};
ghost use Rattle.qls_meaning.specs.Kept.{NothingPending, BeginsWith};
ghost use Rattle.qls_laws.specs.Readings.{LegalFrom};
ghost use Rattle.qls_laws.specs.Areas.{IsUnmarkedFrom, HasSameFiles, with_free_from, IsMarkedAt, IsUnmarkedAt, AllLegal, spelled};

/// An unmarked file with nothing pending is clean behind its header, and a clean one is unmarked from there on in its data
/// area. A file that came into use is unmarked, where all are that did.
pub fn unmarked_files_are_clean()
    ensures full { (f : FileState) → f.pending ≡ [] → IsUnmarked (headed (full_file f)) → IsCleanIn 4096 f (number_at w64 8 f.stable) }
    ensures bare { (f : FileState) → f.pending ≡ [] → IsUnmarked (headed (bare_file f)) → IsCleanIn 4096 f (number_at w64 8 f.stable) }
    ensures there { (id : ℕ) (d : Disk) (f : FileState) → file_of id d ≡ Some f → f.pending ≡ [] → IsUnmarked (headed (full_file f)) → CleanFile 4096 (file_of id d) }
    ensures area { (p : ℕ) (f : FileState) → f.pending ≡ [] → IsCleanIn (4096 + p) f (number_at w64 8 f.stable)
        → IsUnmarkedFrom (headed (full_file f)).header.serial p (headed (full_file f)).area }
    ensures newly { (m n : Moment) (f : FileState) → file_of f.id n.disk ≡ Some f → is_in_use f.place ≡ true → uses f.id m ≡ false
        → AllByRecursion IsUnmarked (newly_used m n) → IsUnmarked (headed (full_file f)) }
{}

/// A call on a file that none of the areas names leaves the files of the areas as they are.
pub fn other_calls_leave_the_areas()
    ensures write { (areas : List FreeArea) (id at : ℕ) (bytes : List ℕ) (d : Disk) → is_taken_before areas id ≡ false → HasSameFiles areas d (write_at id at bytes d) }
    ensures sync { (areas : List FreeArea) (id : ℕ) (d : Disk) → is_taken_before areas id ≡ false → HasSameFiles areas d (sync_at id d) }
    ensures relocate { (areas : List FreeArea) (id : ℕ) (to : Place) (d : Disk) → is_taken_before areas id ≡ false → HasSameFiles areas d (relocate_at id to d) }
    ensures create { (areas : List FreeArea) (id part kib : ℕ) (d : Disk) → is_taken_before areas id ≡ false → HasSameFiles areas d (create_at id part kib d) }
    ensures absent { (areas : List FreeArea) (id : ℕ) (d : Disk) → IsClean areas d → file_of id d ≡ None → is_taken_before areas id ≡ false }
    ensures clean { (areas : List FreeArea) (d e : Disk) → HasSameFiles areas d e → IsClean areas d → IsClean areas e }
{}

/// Clean areas stay clean: after a call on a file that none of them names, as one that isn't there yet, and after any file
/// is relocated.
pub fn clean_areas_stay_clean()
    ensures write { (areas : List FreeArea) (id at : ℕ) (bytes : List ℕ) (d : Disk) → is_taken_before areas id ≡ false → IsClean areas d → IsClean areas (write_at id at bytes d) }
    ensures sync { (areas : List FreeArea) (id : ℕ) (d : Disk) → is_taken_before areas id ≡ false → IsClean areas d → IsClean areas (sync_at id d) }
    ensures relocate { (areas : List FreeArea) (id : ℕ) (to : Place) (d : Disk) → IsClean areas d → IsClean areas (relocate_at id to d) }
    ensures create { (areas : List FreeArea) (id part kib : ℕ) (d : Disk) → is_taken_before areas id ≡ false → IsClean areas d → IsClean areas (create_at id part kib d) }
    ensures create_new { (areas : List FreeArea) (id part kib : ℕ) (d : Disk) → file_of id d ≡ None → IsClean areas d → IsClean areas (create_at id part kib d) }
{}

/// A write at the front of a free area leaves the area behind it clean, while it is pending and once it is synced. The size
/// of the file and its header stay.
pub fn appending_leaves_the_rest_clean()
    ensures later { (id from more : ℕ) (d : Disk) → from ≤ more → CleanFile from (file_of id d) → CleanFile more (file_of id d) }
    ensures free { (areas : List FreeArea) (id k : ℕ) (d : Disk) → is_free areas id k ≡ true → IsClean areas d → CleanFile (512 * k) (file_of id d) }
    ensures write { (id from : ℕ) (bytes : List ℕ) (d : Disk) → CleanFile from (file_of id d) → CleanFile (from + length bytes) (file_of id (write_at id from bytes d)) }
    ensures sync { (id from : ℕ) (bytes : List ℕ) (d : Disk) → 4096 ≤ from → InFile from (length bytes) (file_of id d) → NothingPending (file_of id d)
        → CleanFile from (file_of id d) → CleanFile (from + length bytes) (file_of id (sync_at id (write_at id from bytes d))) }
    ensures areas_write { (areas : List FreeArea) (id from : ℕ) (bytes : List ℕ) (d : Disk) → CleanFile from (file_of id d)
        → IsClean areas d → IsClean (with_free_from id (from + length bytes) areas) (write_at id from bytes d) }
    ensures areas_sync { (areas : List FreeArea) (id from : ℕ) (bytes : List ℕ) (d : Disk) → 4096 ≤ from → InFile from (length bytes) (file_of id d) → NothingPending (file_of id d)
        → CleanFile from (file_of id d) → IsClean areas d → IsClean (with_free_from id (from + length bytes) areas) (sync_at id (write_at id from bytes d)) }
{}

/// A record stands only where the serial of its file stands at byte 8, and so none in what is unmarked.
pub fn records_have_their_serial()
    ensures marked { (fs : List Headed) (p : ℕ) (r : Record) → record_in fs p ≡ Some r → IsMarkedAt fs p }
    ensures none { (fs : List Headed) (p : ℕ) → IsUnmarkedAt fs p → record_in fs p ≡ None }
    ensures held { (fs : List Headed) (p unit : ℕ) (h : Holder) → holder fs p ≡ Some h → h.file.header.serial < 2 ^ 64 → h.within ≡ 128 * unit
        → 128 * unit + 128 ≤ length h.file.area → IsUnmarkedFrom h.file.header.serial (128 * unit) h.file.area → IsUnmarkedAt fs p }
    ensures behind { (f : Headed) (front rest : List ℕ) → f.header.serial < 2 ^ 64 → f.area ≡ front ++ rest
        → (128 ≤ length rest → number_at w64 8 rest ≢ f.header.serial) → record_in (f ∷ []) (length front) ≡ None }
{}

/// What is read of an epoch is what was spelled there, where what lies behind it is unmarked; of one file these are all its
/// records.
pub fn reading_ends_at_the_unmarked()
    ensures epoch { (oldest : Bool) (fs : List Headed) (rs : List Record) → LegalFrom fs (begin_place oldest fs) rs
        → BeginsWith (drop (begin_place oldest fs) (stream fs)) (spelled_from fs (begin_place oldest fs) rs)
        → IsUnmarkedAt fs (end_from (begin_place oldest fs) (placed_from fs (begin_place oldest fs) rs))
        → epoch_reading oldest fs ≡ placed_from fs (begin_place oldest fs) rs }
    ensures file { (f : Headed) (rs : List Record) (rest : List ℕ) → AllLegal rs → f.header.first ≡ 4096 → f.header.serial < 2 ^ 64
        → f.area ≡ spelled f.header.serial rs ++ rest → IsUnmarkedFrom f.header.serial (length (spelled f.header.serial rs)) f.area
        → map (λ r. r.what) (epoch_reading true (f ∷ [])) ≡ rs }
{}
