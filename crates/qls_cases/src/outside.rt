// What a test's run is given, and what it reads of the site after it.
ghost use Rattle.std.specs.Prelude.{◌≡◌, IfOk};
ghost use Rattle.qls_memsite.specs.Seen.{IdsDiffer};
ghost use Rattle.qls_cases.specs.Resting.{Rests};

use qls_memsite::{MemSerials, MemSite, MemSource};
use qls_model::{Bytes, Seq};
use qls_site::ImageFile;
use qls_top::run;
use std::alloc::Global;
use std::process::Abort;
use std::test::Fail;

// The words of a line, which single spaces part.
pub(crate) fn words_of(alloc: Global, line: &str) -> Result<Vec<String>, Fail> {
    let mut words = Vec::new(alloc);
    for word in line.split(' ') {
        words.push(String::from_str(alloc, word)?)?;
    }
    Ok(words)
}

// A site without a file.
#[tactic(auto, using(crate::proofs::Resting::begins_at_rest))]
pub(crate) fn new_site(alloc: Global) -> MemSite
    ensures rests { Rests result }
{
    MemSite::new(alloc)
}

// A site that begins on these files.
#[tactic(auto, using(crate::proofs::Resting::begins_at_rest))]
pub(crate) fn site_on(alloc: Global, files: Seq<ImageFile>) -> Result<MemSite, Fail>
    requires differ { IdsDiffer files }
    ensures rests { IfOk result Rests }
{
    Ok(MemSite::from_image(alloc, files)?)
}

// Runs a script that is read in pieces of so many bytes, with serials from 7, and answers the status.
pub(crate) fn run_on(
    alloc: Global,
    words: &str,
    script: Bytes,
    piece: usize,
    site: &mut MemSite,
) -> Result<u8, Fail>
    requires quiet { Rests site.old }
    ensures rests { IfOk result (λ status. status ≡ 0 → Rests site.new) }
{
    run_from(alloc, words, script, piece, 7, site)
}

// The same with serials from this one.
pub(crate) fn run_from(
    alloc: Global,
    words: &str,
    script: Bytes,
    piece: usize,
    serial: u64,
    site: &mut MemSite,
) -> Result<u8, Fail>
    requires quiet { Rests site.old }
    ensures rests { IfOk result (λ status. status ≡ 0 → Rests site.new) }
{
    let words = words_of(alloc, words)?;
    let mut source = MemSource::new(alloc, script, piece.max(1));
    let mut serials = MemSerials::counting(serial);
    Ok(run(alloc, &words, &mut source, site, &mut serials))
}

// What a crash leaves so many moments before the last, with nothing of what is pending.
pub(crate) fn image_before_end(
    rt: &impl Abort,
    alloc: Global,
    site: &MemSite,
    back: usize,
) -> Result<Seq<ImageFile>, Fail> {
    let count = site.moment_count();
    assert!(rt; back < count);
    Ok(site.image(count - 1 - back, &Seq::new(alloc))?)
}

// The one file that a crash leaves there.
pub(crate) fn file_before_end(
    rt: &impl Abort,
    alloc: Global,
    site: &MemSite,
    back: usize,
) -> Result<ImageFile, Fail> {
    let mut files = image_before_end(rt, alloc, site, back)?;
    assert_eq!(rt; files.len(), 1);
    Ok(files.pop().ok_or("no file")?)
}

// The files are those that were there.
pub(crate) fn check_same(rt: &impl Abort, was: &Seq<ImageFile>, now: &Seq<ImageFile>) {
    assert_eq!(rt; now.len(), was.len());
    for (old, new) in was.as_slice().iter().zip(now.as_slice()) {
        assert_eq!(rt; (new.id, new.place), (old.id, old.place));
        assert!(rt; new.bytes.as_slice() == old.bytes.as_slice());
    }
}
