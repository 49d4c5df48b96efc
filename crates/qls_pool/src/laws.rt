// Laws of a file's states and of the pools: what other calls leave of them, and in which order files come into use.
ghost use Rattle.std.specs.Prelude.{◌≡◌, ℕ, ◌+◌, ◌≤◌, List, [], ◌++◌, length, true, IsTrue};
ghost use Rattle.qls_model.specs.Limits.{file_size};
ghost use Rattle.qls_site.specs.declared.site.Place.TheVariants.{InUse, Empty};
ghost use Rattle.qls_site.specs.Disk.{Disk, file_of, write_at, sync_at, create_at, relocate_at};
ghost use Rattle.qls_site.specs.Content.{Moment, Content, InFile};
ghost use Rattle.qls_filehdr.specs.Limits.{is_legal_header};
ghost use Rattle.qls_meaning.specs.History.{History, FreeArea, last_of, now, uses};
ghost use Rattle.qls_meaning.specs.Orderly.{IsOrderlyFrom, journal_on};
ghost use Rattle.qls_pool.specs.Pools.{PoolState};
ghost use Rattle.qls_pool.specs.Files.{BlankFile, HeadedFile, BlankThere, HeadedThere, LinkedThere, RestsThere, IsPoolOf, IdsDiffer};
ghost use Rattle.qls_pool.specs.Discipline.{IsPoolStep, ArePoolSteps, AddsPoolSteps, EndsPoolSteps, IsTakingStep, TakesInOrder, IsFirstTaken, AreFirstTaken};
ghost use Rattle.qls_pool.specs.Laws.{StaysByOthers, DataIsWritten};

/// A file stays as its value names it whatever calls are made on other files: a header that is stable stays stable.
pub fn other_calls_leave_a_file()
    ensures blank { (b : BlankFile) → StaysByOthers (BlankThere b) b.id }
    ensures headed { (h : HeadedFile) → StaysByOthers (HeadedThere h) h.id }
    ensures linked { (h : HeadedFile) → StaysByOthers (LinkedThere h) h.id }
    ensures rests { (h : HeadedFile) → StaysByOthers (RestsThere h) h.id }
{}

/// A file at rest is linked, and stays so where its data area is written and synced.
pub fn data_writes_leave_a_file()
    ensures linked { (h : HeadedFile) (d : Disk) → RestsThere h d → LinkedThere h d }
    ensures written { (h : HeadedFile) (at : ℕ) (bytes : List ℕ) (d : Disk) → 4096 ≤ at → at + length bytes ≤ file_size h.header.kib → RestsThere h d → DataIsWritten h at bytes d }
{}

/// The steps of calls in a row join: each is orderly in what the pool decides, and so are all of them, where every call
/// but the last answered Ok.
pub fn steps_join()
    ensures done { (x : Content) (y : Content) (z : Content) → EndsPoolSteps x y → EndsPoolSteps y z → EndsPoolSteps x z }
    ensures failed { (x : Content) (y : Content) (z : Content) → EndsPoolSteps x y → AddsPoolSteps y z → AddsPoolSteps x z }
{}

/// No pool changes by a write that lies within its file, nor by a sync.
pub fn data_calls_leave_the_pools()
    ensures write { (pool : PoolState) (out : List ℕ) (id at : ℕ) (bytes : List ℕ) (d : Disk) → InFile at (length bytes) (file_of id d) → IsPoolOf pool out d → IsPoolOf pool out (write_at id at bytes d) }
    ensures sync { (pool : PoolState) (out : List ℕ) (id : ℕ) (d : Disk) → IsPoolOf pool out d → IsPoolOf pool out (sync_at id d) }
    ensures write_ids { (id at : ℕ) (bytes : List ℕ) (d : Disk) → IdsDiffer d → IdsDiffer (write_at id at bytes d) }
    ensures sync_ids { (id : ℕ) (d : Disk) → IdsDiffer d → IdsDiffer (sync_at id d) }
{}

/// The pool decides nothing in a moment without a change, in an answer, in a sync, in a write to a file in use, and in one to
/// the first 4,096 bytes of any file.
pub fn other_calls_are_pool_steps()
    ensures same { (m n : Moment) → IdsDiffer m.disk → n.disk ≡ m.disk → IsPoolStep m n }
    ensures write { (id at : ℕ) (bytes : List ℕ) (m n : Moment) → IdsDiffer m.disk → uses id m ≡ true → n.disk ≡ write_at id at bytes m.disk → IsPoolStep m n }
    ensures front { (id at : ℕ) (bytes : List ℕ) (m n : Moment) → IdsDiffer m.disk → at + length bytes ≤ 4096 → n.disk ≡ write_at id at bytes m.disk → IsPoolStep m n }
    ensures sync { (id : ℕ) (m n : Moment) → IdsDiffer m.disk → n.disk ≡ sync_at id m.disk → IsPoolStep m n }
{}

/// No file comes into use in a moment without a change, in an answer, a write, a sync or a creation, and as a file goes back.
pub fn other_calls_take_no_file()
    ensures same { (m n : Moment) → IdsDiffer m.disk → n.disk ≡ m.disk → IsFirstTaken m n }
    ensures write { (id at : ℕ) (bytes : List ℕ) (m n : Moment) → IdsDiffer m.disk → n.disk ≡ write_at id at bytes m.disk → IsFirstTaken m n }
    ensures sync { (id : ℕ) (m n : Moment) → IdsDiffer m.disk → n.disk ≡ sync_at id m.disk → IsFirstTaken m n }
    ensures create { (id part kib : ℕ) (m n : Moment) → IdsDiffer m.disk → n.disk ≡ create_at id part kib m.disk → IsFirstTaken m n }
    ensures back { (id part kib : ℕ) (m n : Moment) → IdsDiffer m.disk → n.disk ≡ relocate_at id (Empty part kib) m.disk → IsFirstTaken m n }
{}

/// A headed file that comes into use as number 1 of epoch 1, where its journal had no file, is the first of its journal; and
/// where each step is the pool's and takes such files alone, files come into use in order.
pub fn first_files_are_taken_in_order()
    ensures link { (h : HeadedFile) (m n : Moment) → IdsDiffer m.disk → IsTrue (is_legal_header h.header) → HeadedThere h m.disk → h.header.epoch ≡ 1 → h.header.number ≡ 1
        → (journal_on m.disk h.header.kind h.header.name).files ≡ [] → n.disk ≡ relocate_at h.id InUse m.disk → IsFirstTaken m n }
    ensures step { (areas : List FreeArea) (h : History) (m n : Moment) → now h ≡ m → IsPoolStep m n → IsFirstTaken m n → IsTakingStep areas h n }
    ensures steps { (areas : List FreeArea) (h : History) (m : Moment) (ms : List Moment) → now h ≡ m → ArePoolSteps m ms → AreFirstTaken m ms → TakesInOrder areas h ms }
    ensures join { (m : Moment) (ms ns : List Moment) → AreFirstTaken m ms → AreFirstTaken (last_of m ms) ns → AreFirstTaken m (ms ++ ns) }
{}

/// What is orderly takes its files in order.
pub fn orderly_moments_take_in_order()
    ensures taken { (areas : List FreeArea) (h : History) (ms : List Moment) → IsOrderlyFrom areas h ms → TakesInOrder areas h ms }
{}
