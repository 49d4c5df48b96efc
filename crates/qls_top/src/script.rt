//! A script, read in pieces and cut into lines.
use crate::fault::Fault;
use qls_site::Source;
use std::alloc::Global;
use std::marker::Model;

/// The greatest length of a script, in bytes.
const SCRIPT_LIMIT: u64 = 67_108_864;

/// How many bytes of a line are kept: one more than the longest command has, so that a longer line stays none.
const KEPT: usize = 2_100_001;

/// How many bytes are asked of the source at once.
const PIECE: usize = 65_536;

/// The bytes of a script that were read and belong to no line yet.
#[derive(Drop)]
pub(crate) struct Script {
    piece: Vec<u8>,
    from: usize,
    to: usize,
    budget: u64,
}

impl Model for Script {
    ghost use Rattle.std.specs.Prelude.{◌<◌, ◌≤◌, ◌-◌, ◌≡◌, take, drop, length};
    ghost use Rattle.qls_top.specs.Cutting.{Cutter};

    ghost Value = { Cutter };

    ghost view = { λ s. record { waiting = take (s.to - s.from) (drop s.from s.piece.items); budget = s.budget } };

    ghost invariant = { λ s. (s.from ≤ s.to) × (s.to ≤ length s.piece.items) × (length s.piece.items ≡ 65536) };
}

ghost use Rattle.std.specs.Prelude.{◌≡◌, ◌+◌, ◌≤◌, length, take, IfOk, IfErr, ◌++◌};

/// Appends the bytes, but for those past what is kept of a line.
fn add_kept(line: &mut Vec<u8>, more: &[u8]) -> Result<(), Fault>
    requires short { length line.old.items ≤ 2100001 }
    ensures kept { IfOk result (λ _. line.new.items ≡ take 2100001 (line.old.items ++ more.now)) }
    ensures memory { IfErr result (λ fault. fault ≡ Fault.Memory) }
{
    let room = KEPT - line.as_slice().len();
    if more.len() <= room {
        line.extend_from_slice(more)?;
        return Ok(());
    }
    line.extend_from_slice(&more[..room])?;
    Ok(())
}

impl Script {
    ghost use Rattle.std.specs.Prelude.{◌≡◌, ◌+◌, ◌*◌, ◌<◌, ◌≤◌, [], length, IfOk, IfErr, OnOk, Ok, Err, true, false};
    ghost use Rattle.qls_site.specs.Content.{Rose};
    ghost use Rattle.qls_top.specs.Cutting.{script_limit, TakesPart, Refills, CutsTold, Counted, Counted};

    /// Nothing is read yet.
    pub(crate) fn new(alloc: Global) -> Result<Script, Fault>
        ensures fresh { IfOk result (λ script. script ≡ record { waiting = []; budget = script_limit }) }
        ensures memory { IfErr result (λ fault. fault ≡ Fault.Memory) }
    {
        let piece = Vec::from_elem(alloc, 0, PIECE)?;
        Ok(Script {
            piece,
            from: 0,
            to: 0,
            budget: SCRIPT_LIMIT,
        })
    }

    /// Moves what waits to the line, up to the first line feed; answers whether there was one.
    fn take_part(&mut self, line: &mut Vec<u8>) -> Result<bool, Fault>
        requires short { length line.old.items ≤ 2100001 }
        ensures part { IfOk result (λ ended. TakesPart self.old.waiting self.new.waiting line.old.items line.new.items ended) }
        ensures budget { self.new.budget ≡ self.old.budget }
        ensures memory { IfErr result (λ fault. fault ≡ Fault.Memory) }
    {
        let waiting = &self.piece[self.from..self.to];
        match feed_in(waiting) {
            Some(at) => {
                add_kept(line, &waiting[..at])?;
                self.from += at + 1;
                Ok(true)
            }
            None => {
                add_kept(line, waiting)?;
                self.from = self.to;
                Ok(false)
            }
        }
    }
}

impl Script {
    ghost use Rattle.std.specs.Prelude.{◌≡◌, ◌+◌, ◌*◌, ◌<◌, ◌≤◌, [], length, IfOk, IfErr, Ok, Err, true};
    ghost use Rattle.qls_site.specs.Content.{Rose};
    ghost use Rattle.qls_top.specs.Cutting.{is_of_script, Refills, CutsTold, Counted, measured};

    /// Reads the next bytes of the script, where none wait; answers whether there were any.
    fn refill<R: Source>(&mut self, source: &mut R) -> Result<bool, Fault>
        requires none_waits { self.old.waiting ≡ [] }
        ensures refilled { IfOk result (λ more. Refills (R.left source.old) self.new (R.left source.new) more) }
        ensures counted { Counted self.old.budget (R.left source.old) self.new.budget (R.left source.new) result }
        ensures nearer { IfOk result (λ more. self.new.budget + length self.new.waiting ≤ self.old.budget) }
        ensures spends { IfOk result (λ more. more ≡ true → self.new.budget < self.old.budget) }
        ensures kept { R.faults source.old ≤ R.faults source.new }
        ensures only { IfErr result (λ fault. is_of_script fault ≡ true) }
        ensures cause { result ≡ Err Fault.Source → Rose (R.faults source.old) (R.faults source.new) }
    {
        self.from = 0;
        self.to = 0;
        if self.budget == 0 {
            return match at_end(source) {
                Ok(()) => Ok(false),
                Err(fault) => Err(fault),
            };
        }
        let room = (PIECE as u64).min(self.budget) as usize;
        let count = read_front(source, &mut self.piece, room)?;
        self.to = count;
        self.budget -= count as u64;
        Ok(count > 0)
    }

    /// The next line of the script, without its line feed and no more of it than is kept; false at the end of the script.
    pub(crate) fn next_line<R: Source>(
        &mut self,
        source: &mut R,
        line: &mut Vec<u8>,
    ) -> Result<bool, Fault>
        ensures cut { IfOk result (λ more. CutsTold self.old (R.left source.old) self.new (R.left source.new) line.new.items more) }
        ensures counted { Counted self.old.budget (R.left source.old) self.new.budget (R.left source.new) result }
        ensures nearer { IfOk result (λ more. more ≡ true → measured self.new < measured self.old) }
        ensures kept { R.faults source.old ≤ R.faults source.new }
        ensures only { IfErr result (λ fault. is_of_script fault ≡ true) }
        ensures cause { result ≡ Err Fault.Source → Rose (R.faults source.old) (R.faults source.new) }
    {
        line.clear();
        loop {
            if self.take_part(line)? {
                return Ok(true);
            }
            if !self.refill(source)? {
                return Ok(!line.as_slice().is_empty());
            }
        }
    }
}

ghost use Rattle.std.specs.Prelude.{[], Err, Ok, Result, true};
ghost use Rattle.qls_site.specs.Content.{Rose, Gives};
ghost use Rattle.qls_top.specs.Cutting.{EndsBy, is_of_script};

/// Reads at most so many bytes to the front.
fn read_front<R: Source>(source: &mut R, into: &mut [u8], room: usize) -> Result<usize, Fault>
    requires room { (0 < room) × (room ≤ length into.old) }
    ensures count { IfOk result (λ n. n ≤ room) }
    ensures gives { Gives (R.left source.old) (R.left source.new) into.new result }
    ensures kept { R.faults source.old ≤ R.faults source.new }
    ensures cause { result ≡ Err Fault.Source → Rose (R.faults source.old) (R.faults source.new) }
    ensures only { IfErr result (λ fault. fault ≡ Fault.Source) }
{
    match source.read(&mut into[..room]) {
        Ok(count) => Ok(count),
        Err(error) => Err(Fault::from(error)),
    }
}

/// Answers Ok where the script is at its end, and TooLong where one more byte was read.
fn at_end<R: Source>(source: &mut R) -> Result<(), Fault>
    ensures ended { EndsBy (R.left source.old) (R.left source.new) result }
    ensures kept { R.faults source.old ≤ R.faults source.new }
    ensures only { IfErr result (λ fault. is_of_script fault ≡ true) }
    ensures cause { result ≡ Err Fault.Source → Rose (R.faults source.old) (R.faults source.new) }
{
    let mut byte = [0; 1];
    match source.read(&mut byte)? {
        0 => Ok(()),
        _ => Err(Fault::TooLong),
    }
}

ghost use Rattle.std.specs.Prelude.{◌<◌, ◌∷◌, drop, false, Some, None, Option, MatchOption, ℕ};
ghost use Rattle.qls_top.specs.Cutting.{has_feed};

/// The place of the first line feed.
fn feed_in(bytes: &[u8]) -> Option<usize>
    ensures place { MatchOption result (has_feed bytes.now ≡ false) (λ at. (at < length bytes.now) × (has_feed (take at bytes.now) ≡ false) × (bytes.now ≡ take at bytes.now ++ 10 ∷ drop (at + 1) bytes.now)) }
{
    for (at, byte) in bytes.iter().enumerate() {
        if *byte == b'\n' {
            return Some(at);
        }
    }
    None
}
