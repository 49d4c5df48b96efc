// Laws of the readings of files as they are.
ghost use Rattle.std.specs.Prelude.{◌≡◌, ◌≤◌, ℕ, Bool, List, ◌++◌, None};
ghost use Rattle.std.specs.List.{AllByRecursion};
ghost use Rattle.qls_record.specs.Record.{Record};
ghost use Rattle.qls_meaning.specs.Journals.{Headed};
ghost use Rattle.qls_meaning.specs.Reading.{Placed, record_in, records_from, placed_from, end_from, begin_place, epoch_reading, epoch_end};
ghost use Rattle.qls_meaning.specs.Kept.{BeginsWith};
ghost use Rattle.qls_laws.specs.Readings.{IsReading, IsBegun, AgreeUpTo, fuel};

/// The reading of an epoch is spelled record by record from where it begins, up to a place where no record is spelled, and no other
/// list of records is so.
pub fn reading_is_unique()
    ensures reading { (oldest : Bool) (fs : List Headed) → IsReading fs (begin_place oldest fs) (epoch_reading oldest fs) }
    ensures only { (oldest : Bool) (fs : List Headed) (rs : List Placed) → IsReading fs (begin_place oldest fs) rs → rs ≡ epoch_reading oldest fs }
    ensures end { (oldest : Bool) (fs : List Headed) → record_in fs (epoch_end oldest fs) ≡ None }
{}

/// While a batch is being written, what is read from its place on is a prefix of the batch, where no record that is read ends past
/// the bytes that are written.
pub fn batch_reads_a_prefix()
    ensures prefix { (fs : List Headed) (n p w : ℕ) (rs : List Record) → IsBegun fs n p w rs → BeginsWith (placed_from fs p rs) (records_from fs n p) }
{}

/// What was read up to a place is read again where the streams agree so far, and then what stands there.
pub fn reads_again()
    ensures again { (limit : ℕ) (fs gs : List Headed) → AgreeUpTo limit fs gs → (n m p : ℕ) → end_from p (records_from fs n p) ≤ limit
        → records_from gs (fuel (records_from fs n p) m) p ≡ records_from fs n p ++ records_from gs m (end_from p (records_from fs n p)) }
{}
