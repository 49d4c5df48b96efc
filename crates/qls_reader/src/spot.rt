// The files of an epoch, and places in them.
ghost use Rattle.std.specs.Prelude.{◌≡◌, ℕ, ◌+◌, ◌-◌, ◌≤◌, ◌<◌, ◌^◌, Bool, length, take, drop, min, if◌then◌else◌};
ghost use Rattle.qls_reader.specs.Spots.{data_length, all_length, first_spot, begin_of, end_spot};
ghost use Rattle.qls_reader.specs.Places.{IsWithin, IsPlaced, AreSound, number_at};

/// A file of an epoch, as its header and the listing tell.
#[derive(Clone, Copy, Debug, PartialEq, Eq)]
pub struct FileSpot {
    /// The id on the site.
    pub id: u64,
    /// The number in the journal.
    pub number: u64,
    /// The serial of the records that start in it.
    pub serial: u64,
    /// How many KiB its data area has.
    pub kib: u32,
    /// The first record place of its header, in bytes; 0 where one record covers it.
    pub first: u64,
}

/// A place in the joined data areas: so many files on, and so many bytes into the data area there.
#[derive(Clone, Copy)]
pub struct Position {
    pub file: usize,
    pub within: u64,
}

/// The file in which a reading ends, by its number, and the place in it, in bytes.
#[derive(Clone, Copy)]
pub struct EndSpot {
    pub file: u64,
    pub at: u64,
}

/// How many bytes a file's data area has.
pub fn data_length(spot: &FileSpot) -> u64
    ensures exact { result ≡ data_length spot.now }
    ensures few { result < 2 ^ 42 }
{
    1024 * u64::from(spot.kib)
}

/// The same place, in the file that holds it. It lies before the end of the files, or at it.
pub fn settled(files: &[FileSpot], from: Position) -> Position
    requires within { from.file ≤ length files.now }
    requires range { from.within ≤ all_length (drop from.file files.now) }
    ensures same { all_length (take result.file files.now) + result.within ≡ all_length (take from.file files.now) + from.within }
    ensures placed { IsPlaced files.now result }
{
    let mut at = from;
    while at.file < files.len() {
        let length = data_length(&files[at.file]);
        if at.within < length {
            break;
        }
        at = Position {
            file: at.file + 1,
            within: at.within - length,
        };
    }
    at
}

/// The place where the journal's oldest epoch begins to be read.
fn first_of(files: &[FileSpot]) -> Position
    requires sound { AreSound files.now }
    ensures within { result.file ≤ length files.now }
    ensures range { result.within ≤ all_length (drop result.file files.now) }
    ensures place { all_length (take result.file files.now) + result.within ≡ first_spot files.now }
{
    let mut file = 0;
    while file < files.len() {
        let first = files[file].first;
        if first != 0 {
            return Position {
                file,
                within: first - 4096,
            };
        }
        file += 1;
    }
    Position { file, within: 0 }
}

/// The place where a reading of these files begins.
pub fn begin(files: &[FileSpot], oldest: bool) -> Position
    requires sound { AreSound files.now }
    ensures placed { IsPlaced files.now result }
    ensures place { all_length (take result.file files.now) + result.within ≡ begin_of oldest files.now }
{
    if oldest {
        settled(files, first_of(files))
    } else {
        settled(files, Position { file: 0, within: 0 })
    }
}

/// The number of a file, and 0 where there is none.
pub fn number(files: &[FileSpot], file: usize) -> u64
    ensures exact { result ≡ number_at (drop file files.now) }
{
    match files.get(file) {
        Some(spot) => spot.number,
        None => 0,
    }
}

/// Where a reading ends that ends at that place: in the file that holds it, and at the end of them all in the last.
pub fn ending(files: &[FileSpot], at: Position) -> EndSpot
    requires placed { IsPlaced files.now at }
    ensures exact { result ≡ end_spot files.now (all_length (take at.file files.now) + at.within) }
{
    if at.file < files.len() {
        return EndSpot {
            file: files[at.file].number,
            at: 4096 + at.within,
        };
    }
    if files.is_empty() {
        return EndSpot { file: 0, at: 0 };
    }
    let last = &files[files.len() - 1];
    EndSpot {
        file: last.number,
        at: 4096 + data_length(last),
    }
}
