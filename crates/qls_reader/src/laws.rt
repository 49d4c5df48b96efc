// Places of spots and places of files are the same.
ghost use Rattle.std.specs.Prelude.{◌≡◌, ◌<◌, ◌∷◌, ℕ, Bool, List};
ghost use Rattle.qls_meaning.specs.Journals.{Headed};
ghost use Rattle.qls_meaning.specs.Reading.{begin_place, holder, number_of, place_of};
ghost use Rattle.qls_meaning.specs.Damage.{ends_in};
ghost use Rattle.qls_reader.specs.declared.spot.FileSpot.{FileSpot};
ghost use Rattle.qls_reader.specs.Spots.{all_length, begin_of, end_spot, AreSpotsOf};

/// A reading of files begins where the reader of their spots begins, and ends in the file that the reader names: at
/// the place that it names where that lies in a file.
pub fn spots_are_of_files()
    ensures begin { (oldest : Bool) (ss : List FileSpot) (fs : List Headed) → AreSpotsOf ss fs → begin_of oldest ss ≡ begin_place oldest fs }
    ensures file { (p : ℕ) (s : FileSpot) (ss : List FileSpot) (f : Headed) (fs : List Headed) → AreSpotsOf (s ∷ ss) (f ∷ fs) → (end_spot (s ∷ ss) p).file ≡ (ends_in p f fs).header.number }
    ensures place { (p : ℕ) (ss : List FileSpot) (fs : List Headed) → AreSpotsOf ss fs → p < all_length ss → end_spot ss p ≡ record { file = number_of (holder fs p); at = place_of (holder fs p) } }
{}
