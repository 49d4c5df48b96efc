//! The program `qls`: a store in the folder of its first word, a script on standard input, replies on
//! standard output. A show reads no script, and goes beside others that only read. The exit status is
//! the top call's; after a status that has one, its line goes to standard error.
#![tactic(auto)]

use qls_hostsite::{HostSerials, HostSite, HostSource, Locking};
use qls_model::NoMemory;
use qls_top::{Job, parse_words, run, status_line};
use std::env;
use std::io::{self, ErrorKind};
use std::process::ExitCode;

/// The status where words can't be read.
const USAGE: u8 = 2;

/// The status where memory is wanting before the top call.
const WANT_OF_MEMORY: u8 = 6;

/// How the job shares the store with other processes. Where there is no job no call is made on it.
fn locking_of(job: Option<Job>) -> Locking {
    match job {
        Some(Job::Show) => Locking::Shared,
        Some(Job::Run { .. }) | None => Locking::Exclusive,
    }
}

/// The words behind the program's name.
fn words_of(rt: &HostRuntime) -> io::Result<Vec<String>> {
    let mut words = Vec::new(rt.alloc());
    for word in env::args(rt)?.skip(1) {
        words.push(word)?;
    }
    Ok(words)
}

/// The top call on the host's files, standard input and random numbers.
fn run_words(rt: &HostRuntime, words: &[String]) -> Result<u8, NoMemory> {
    let folder = words.first().map_or("", |word| word.as_str());
    let locking = locking_of(parse_words(words));
    let mut source = HostSource::new(rt)?;
    let mut site = HostSite::with_locking(rt, rt.alloc(), folder, locking)?;
    let mut serials = HostSerials::new(rt)?;
    Ok(run(rt.alloc(), words, &mut source, &mut site, &mut serials))
}

fn status_of(rt: &HostRuntime) -> u8 {
    match words_of(rt) {
        Ok(words) => run_words(rt, &words).unwrap_or(WANT_OF_MEMORY),
        Err(error) if error.kind() == ErrorKind::OutOfMemory => WANT_OF_MEMORY,
        Err(_) => USAGE,
    }
}

fn main(rt: HostRuntime) -> ExitCode {
    let status = status_of(&rt);
    if let Some(line) = status_line(status) {
        // Where standard error can't be written the status says it all the same.
        let _ = eprintln!(rt; "{line}");
    }
    ExitCode::from(status)
}
