// Runs where no call fails, and what they answer.
ghost use Rattle.std.specs.Prelude.{◌≡◌, IfOk};
ghost use Rattle.qls_site.specs.Disk.{IsQuiet};
ghost use Rattle.qls_memsite.specs.Seen.{IdsDiffer};
ghost use Rattle.qls_steady.specs.Steady.{content_in};

use crate::{SteadySerials, SteadySite, SteadySource, run_steadily};
use qls_memsite::{MemSerials, MemSite, MemSource};
use qls_model::{Bytes, Seq};
use qls_site::{ImageFile, Place};
use std::alloc::Global;
use std::process::Abort;
use std::test::Fail;

// The words of a line, which single spaces part.
fn words_of(alloc: Global, line: &str) -> Result<Vec<String>, Fail> {
    let mut words = Vec::new(alloc);
    for word in line.split(' ') {
        words.push(String::from_str(alloc, word)?)?;
    }
    Ok(words)
}

// A site without a file.
#[tactic(auto, using(crate::proofs::Resting::begins_quietly))]
fn new_site(alloc: Global) -> SteadySite
    ensures quiet { IsQuiet (content_in result).now.disk }
{
    SteadySite::new(MemSite::new(alloc))
}

// A site that begins on these files.
#[tactic(auto, using(crate::proofs::Resting::begins_quietly))]
fn site_on(alloc: Global, files: Seq<ImageFile>) -> Result<SteadySite, Fail>
    requires differ { IdsDiffer files }
    ensures quiet { IfOk result (λ site. IsQuiet (content_in site).now.disk) }
{
    Ok(SteadySite::new(MemSite::from_image(alloc, files)?))
}

// A run of these words on a script that is read in pieces of nine bytes ends with this status, and just this is answered.
fn check_run(
    rt: &impl Abort,
    alloc: Global,
    words: &str,
    script: &str,
    site: &mut SteadySite,
    status: u8,
    text: &str,
) -> Result<(), Fail>
    requires quiet { IsQuiet (content_in site.old).now.disk }
    ensures rests { IfOk result (λ _. status ≡ 0 → IsQuiet (content_in site.new).now.disk) }
{
    let words = words_of(alloc, words)?;
    let script = Bytes::new(alloc, script.as_bytes())?;
    let mut source = SteadySource::new(MemSource::new(alloc, script, 9));
    let mut serials = SteadySerials::new(MemSerials::counting(7));
    let before = site.site().answered().len();
    let ended = run_steadily(alloc, &words, &mut source, site, &mut serials);
    assert_eq!(rt; ended, status);
    assert_eq!(rt; site.site().answered().get(before..), Some(text.as_bytes()));
    Ok(())
}

#[test]
fn a_run_comes_to_its_end(rt: HostRuntime) -> Result<(), Fail> {
    let alloc = rt.alloc();
    let mut site = new_site(alloc);
    let script = "queue a\nput a 6869\nput b 01\nnothing\ntake a 1\n";
    let replies = "ok\nok 1\nrefused queue\nrefused line\nok\n";
    check_run(&rt, alloc, "d run 1 4", script, &mut site, 0, replies)
}

#[test]
fn a_show_comes_to_its_end(rt: HostRuntime) -> Result<(), Fail> {
    let alloc = rt.alloc();
    let mut site = new_site(alloc);
    let script = "queue a\nput a 6869\n";
    check_run(&rt, alloc, "d run 1 4", script, &mut site, 0, "ok\nok 1\n")?;
    let state = "queues 1\nqueue a last 1 messages 1\n1 ready 6869\ndoubt 0\n";
    check_run(&rt, alloc, "d show", script, &mut site, 0, state)
}

// The size of the file isn't that of its pool.
#[test]
fn a_damaged_start_is_told(rt: HostRuntime) -> Result<(), Fail> {
    let alloc = rt.alloc();
    let mut files = Seq::new(alloc);
    files.push(ImageFile {
        id: 1,
        place: Place::Empty { part: 1, kib: 4 },
        bytes: Bytes::from_vec(Vec::from_elem(alloc, 0, 8_704)?),
    })?;
    let mut site = site_on(alloc, files)?;
    let line = "damaged file 1 rule pool\n";
    check_run(&rt, alloc, "d run 1 4", "queue a\n", &mut site, 3, line)
}
