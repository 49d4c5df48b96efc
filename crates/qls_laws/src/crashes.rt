// Laws of what a crash leaves of journals, under the premise of no chance match, and of calls within calls.
ghost use Rattle.std.specs.Prelude.{◌≡◌, ℕ, Bool, true, List, ◌++◌, Some, Ok, map};
ghost use Rattle.std.specs.List.{AllByRecursion};
ghost use Rattle.qls_site.specs.Disk.{Disk, Image, IsImage, IsQuiet, full};
ghost use Rattle.qls_site.specs.Content.{Moment, Content};
ghost use Rattle.qls_meaning.specs.Journals.{Headed, Journal, journals_of};
ghost use Rattle.qls_meaning.specs.Damage.{undamaged};
ghost use Rattle.qls_meaning.specs.Chance.{EachPlaceOf, SpellsNoOther, SpellsWritten};
ghost use Rattle.qls_meaning.specs.History.{History, FreeArea, last_of, is_free, is_unwritten, AllUnmarked};
ghost use Rattle.qls_meaning.specs.Crash.{IsFairImage, AnyCrashLeaves};
ghost use Rattle.qls_meaning.specs.Kept.{IsWellKept, ReadsBegin, Differ, ids_of, seen_journal};
ghost use Rattle.qls_laws.specs.Readings.{SpellsWithin, UnwrittenFrom};
ghost use Rattle.qls_laws.specs.Histories.{inner, outer};

/// A crash that loses nothing spells no other record, so this premise can always be met.
pub fn nothing_lost_spells_no_other()
    ensures own { (i : Image) → Differ (ids_of i) → EachPlaceOf (SpellsNoOther i) i }
{}

/// What a crash leaves has the journals of the disk, and reads a prefix of each, where no torn write spells another record.
pub fn image_reads_prefix()
    ensures prefix { (d : Disk) (i : Image) → IsWellKept d → IsImage d i → EachPlaceOf (SpellsNoOther i) (full d)
        → (journals_of i ≡ map (seen_journal i) (journals_of (full d))) × AllByRecursion (ReadsBegin i) (journals_of (full d)) }
{}

/// A crash leaves no damage where there was none: always on a quiet disk, and on any other where no torn write spells another record.
pub fn image_is_undamaged()
    ensures quiet { (d : Disk) (i : Image) (js : List Journal) → IsQuiet d → IsImage d i → undamaged (full d) ≡ Ok js → undamaged i ≡ Ok js }
    ensures torn { (d : Disk) (i : Image) (js : List Journal) → IsWellKept d → IsImage d i → EachPlaceOf (SpellsNoOther i) (full d)
        → undamaged (full d) ≡ Ok js → undamaged i ≡ Ok (map (seen_journal i) (journals_of (full d))) }
{}

/// No record that is read ends past a place from which on all is unwritten, where no old byte completes a record.
pub fn records_end_in_what_is_written()
    ensures within { (areas : List FreeArea) (h : History) (fs : List Headed) (limit p : ℕ) → UnwrittenFrom areas h fs limit
        → SpellsWritten areas h fs p → SpellsWithin limit fs p }
{}

/// What is unwritten for a call within a call is unwritten for the outer one, and its files are among those of the outer one.
pub fn inner_call_serves_the_outer()
    ensures unwritten { (areas inner_areas : List FreeArea) (h : History) (ys : List Moment) (id k : ℕ)
        → (is_free inner_areas id k ≡ true → is_unwritten areas h id k ≡ true)
        → is_unwritten inner_areas (inner h ys) id k ≡ true → is_unwritten areas (outer h ys) id k ≡ true }
    ensures unmarked { (m : Moment) (xs ys : List Moment) → AllUnmarked m (xs ++ ys) → AllUnmarked (last_of m xs) ys }
{}

/// What a crash may leave in a call within a call, under the premises of the outer call, it may leave under those of the inner one,
/// where what the inner call has free was unwritten as it began.
pub fn fair_for_the_inner_call()
    ensures fair { (areas inner_areas : List FreeArea) (h : History) (ys : List Moment) (i : Image)
        → ((id k : ℕ) → is_free inner_areas id k ≡ true → is_unwritten areas h id k ≡ true)
        → IsFairImage areas (outer h ys) i → IsFairImage inner_areas (inner h ys) i }
{}

/// What each crash leaves in the first of two calls and in the second it leaves in both together, where the first one answered, and
/// what the second has free was unwritten as it began. Said here of claims that a test decides; the lemma serves every claim.
pub fn one_call_after_another()
    ensures composed { (areas inner_areas : List FreeArea) (test : Moment → Image → Bool) (old mid new : Content) (xs ys : List Moment)
        → mid.moments ≡ old.moments ++ xs → new.moments ≡ mid.moments ++ ys → last_of old.now xs ≡ mid.now
        → ((id k : ℕ) → is_free inner_areas id k ≡ true → is_unwritten areas (record { start = old.now; since = xs }) id k ≡ true)
        → AnyCrashLeaves areas (Some old) (Some mid) (λ m i. test m i ≡ true)
        → AnyCrashLeaves inner_areas (Some mid) (Some new) (λ m i. test m i ≡ true)
        → AnyCrashLeaves areas (Some old) (Some new) (λ m i. test m i ≡ true) }
{}
