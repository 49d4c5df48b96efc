// A line that is run on a store, and answered.
ghost use Rattle.std.specs.Prelude.{◌≡◌, ◌≤◌, ℕ, List, None, Some, IfErr, IfOk, IfSome, Err, false};
ghost use Rattle.qls_site.specs.Content.{Tells, Rose, Acts, on_answered};
ghost use Rattle.qls_command.specs.Lines.{command_of};
ghost use Rattle.qls_command.specs.Texts.{reply_text as reply_bytes};
ghost use Rattle.qls_command.specs.Within.{IsWithin};
ghost use Rattle.qls_pool.specs.Moments.{EndsIn, Passes};
ghost use Rattle.qls_pool.specs.Serials.{DrawsTaken, TakesNone};
ghost use Rattle.qls_pool.specs.Files.{IdsDiffer, OnDisk};
ghost use Rattle.qls_store.specs.Stores.{state_of, home_of, rid_of, IsStore, Fits};
ghost use Rattle.qls_journals.specs.Homes.{SameHomes, TakesFromHome};
ghost use Rattle.qls_store.specs.Homes.{homes_of, is_accepted};
ghost use Rattle.qls_journals.specs.Moments.{IsStoreStep, StaysWritten};
ghost use Rattle.qls_store.specs.Steps.{LeavesDead};
ghost use Rattle.qls_top.specs.Status.{IsOfLine, IsOfSite};
ghost use Rattle.qls_top.specs.Answers.{answer_line};
ghost use Rattle.qls_top.specs.Moments.{AddsAnswer, AnswersQuietly, IsRunStep};
ghost use Rattle.qls_top.specs.Causes.{CausesOfLine};
ghost use Rattle.qls_top.specs.Serials.{is_exact};
ghost use Rattle.qls_top.specs.Running.{RunsLine, RunsBuilt, RepliesLine, UnderLine, WritesLine, LeavesLine, AnswersLine, LineStops, homes_by, rid_after};

use crate::fault::Fault;
use qls_command::{Parsed, parse_line, reply_text};
use qls_log::laws::files_that_stay_stay_written;
use qls_model::{Command, Refusal, Reply};
use qls_site::{Serials, Site};
use qls_store::laws::{clean_store_is_its_meaning, what_a_store_reads_was_written};
use qls_store::{Stepped, Store};
use std::alloc::Global;

/// Answers a line.
fn send_reply<S: Site>(alloc: Global, reply: Reply, site: &mut S) -> Result<(), Fault>
    requires differ { IfSome (S.told site.old) (OnDisk IdsDiffer) }
    ensures told { Tells (EndsIn (λ _. Acts (on_answered (reply_bytes reply))) (Passes IsRunStep) result) (S.told site.old) (S.told site.new) }
    ensures quiet { Tells AnswersQuietly (S.told site.old) (S.told site.new) }
    ensures adds { Tells (AddsAnswer (reply_bytes reply)) (S.told site.old) (S.told site.new) }
    ensures none { Tells TakesNone (S.told site.old) (S.told site.new) }
    ensures kept { S.faults site.old ≤ S.faults site.new }
    ensures cause { result ≡ Err Fault.Site → Rose (S.faults site.old) (S.faults site.new) }
    ensures only { IfErr result IsOfSite }
{
    let text = reply_text(alloc, &reply)?;
    send_text(text.as_slice(), site)
}

/// Answers some bytes.
fn send_text<S: Site>(text: &[u8], site: &mut S) -> Result<(), Fault>
    requires differ { IfSome (S.told site.old) (OnDisk IdsDiffer) }
    ensures told { Tells (EndsIn (λ _. Acts (on_answered text.now)) (Passes IsRunStep) result) (S.told site.old) (S.told site.new) }
    ensures quiet { Tells AnswersQuietly (S.told site.old) (S.told site.new) }
    ensures adds { Tells (AddsAnswer (text.now)) (S.told site.old) (S.told site.new) }
    ensures none { Tells TakesNone (S.told site.old) (S.told site.new) }
    ensures kept { S.faults site.old ≤ S.faults site.new }
    ensures cause { result ≡ Err Fault.Site → Rose (S.faults site.old) (S.faults site.new) }
    ensures only { IfErr result IsOfSite }
{
    match site.answer(text) {
        Ok(()) => Ok(()),
        Err(error) => Err(Fault::from(error)),
    }
}

/// Runs a command.
fn run_command<S: Site, N: Serials>(
    store: Store,
    command: Command,
    site: &mut S,
    serials: &mut N,
) -> Result<(Store, Reply), Fault>
    requires within { IsWithin command }
    requires fits { IfSome (S.told site.old) (OnDisk (Fits store)) }
    ensures stepped { IfOk result (λ r. (state_of r.0, r.1) ≡ answer_line (state_of store) (Some command)) }
    ensures store { IfOk result (λ r. IsStore r.0) }
    ensures home { IfOk result (λ r. home_of r.0 ≡ home_of store) }
    ensures rid { IfOk result (λ r. rid_of r.0 ≡ rid_after (state_of store) (Some command) (rid_of store)) }
    ensures told { Tells (EndsIn (λ r. RunsBuilt store (Some command) r.0) (Passes IsStoreStep) result) (S.told site.old) (S.told site.new) }
    ensures drawn { DrawsTaken (is_exact result) (S.told site.old) (S.told site.new) (N.drawn serials.old) (N.drawn serials.new) }
    ensures leaves { Tells (LeavesDead store) (S.told site.old) (S.told site.new) }
    ensures writes { Tells (StaysWritten result (λ r. r.0.journals) store.journals) (S.told site.old) (S.told site.new) }
    ensures pools { Tells (Passes (TakesFromHome (homes_by (state_of store) (Some command) (homes_of store)))) (S.told site.old) (S.told site.new) }
    ensures homes { IfOk result (λ r. SameHomes (homes_of r.0) (homes_by (state_of store) (Some command) (homes_of store))) }
    ensures refused { IfOk result (λ r. is_accepted r.1 ≡ false → site.new ≡ site.old) }
    ensures still { is_accepted (answer_line (state_of store) (Some command)).1 ≡ false → site.new ≡ site.old }
    ensures spent { result ≡ Err Fault.Spent → Tells (LineStops store (Some command)) (S.told site.old) (S.told site.new) }
    ensures causes { CausesOfLine (S.faults site.old) (S.faults site.new) (N.faults serials.old) (N.faults serials.new) result }
    ensures only { IfErr result IsOfLine }
{
    match store.step(site, serials, command) {
        Stepped::Live(store, reply) => Ok((store, reply)),
        Stepped::Ended(cause) => Err(Fault::from(cause)),
    }
}

/// The reply to a line, which is run.
fn reply_to_line<S: Site, N: Serials>(
    alloc: Global,
    store: Store,
    line: &[u8],
    site: &mut S,
    serials: &mut N,
) -> Result<(Store, Reply), Fault>
    requires fits { IfSome (S.told site.old) (OnDisk (Fits store)) }
    ensures stepped { IfOk result (λ r. (state_of r.0, r.1) ≡ answer_line (state_of store) (command_of line.now)) }
    ensures store { IfOk result (λ r. IsStore r.0) }
    ensures home { IfOk result (λ r. home_of r.0 ≡ home_of store) }
    ensures rid { IfOk result (λ r. rid_of r.0 ≡ rid_after (state_of store) (command_of line.now) (rid_of store)) }
    ensures told { Tells (EndsIn (λ r. RunsBuilt store (command_of line.now) r.0) (Passes IsStoreStep) result) (S.told site.old) (S.told site.new) }
    ensures drawn { DrawsTaken (is_exact result) (S.told site.old) (S.told site.new) (N.drawn serials.old) (N.drawn serials.new) }
    ensures leaves { Tells (LeavesDead store) (S.told site.old) (S.told site.new) }
    ensures writes { Tells (StaysWritten result (λ r. r.0.journals) store.journals) (S.told site.old) (S.told site.new) }
    ensures pools { Tells (Passes (TakesFromHome (homes_by (state_of store) (command_of line.now) (homes_of store)))) (S.told site.old) (S.told site.new) }
    ensures homes { IfOk result (λ r. SameHomes (homes_of r.0) (homes_by (state_of store) (command_of line.now) (homes_of store))) }
    ensures refused { IfOk result (λ r. is_accepted r.1 ≡ false → site.new ≡ site.old) }
    ensures still { is_accepted (answer_line (state_of store) (command_of line.now)).1 ≡ false → site.new ≡ site.old }
    ensures spent { result ≡ Err Fault.Spent → Tells (LineStops store (command_of line.now)) (S.told site.old) (S.told site.new) }
    ensures causes { CausesOfLine (S.faults site.old) (S.faults site.new) (N.faults serials.old) (N.faults serials.new) result }
    ensures only { IfErr result IsOfLine }
{
    match parse_line(alloc, line)? {
        Parsed::Bad => Ok((store, Reply::Refused(Refusal::Line))),
        Parsed::Good(command) => run_command(store, command, site, serials),
    }
}

/// Runs one line, and answers it.
pub(crate) fn run_line<S: Site, N: Serials>(
    alloc: Global,
    store: Store,
    line: &[u8],
    site: &mut S,
    serials: &mut N,
) -> Result<Store, Fault>
    requires fits { IfSome (S.told site.old) (OnDisk (Fits store)) }
    ensures told { Tells (EndsIn (λ s. RunsLine store (command_of line.now) s) (Passes IsRunStep) result) (S.told site.old) (S.told site.new) }
    ensures quiet { Tells AnswersQuietly (S.told site.old) (S.told site.new) }
    ensures replied { Tells (RepliesLine store (command_of line.now)) (S.told site.old) (S.told site.new) }
    ensures under { Tells (UnderLine store (command_of line.now)) (S.told site.old) (S.told site.new) }
    ensures writes { Tells (WritesLine result store) (S.told site.old) (S.told site.new) }
    ensures leaves { Tells (LeavesLine store) (S.told site.old) (S.told site.new) }
    ensures answers { Tells (AnswersLine store) (S.told site.old) (S.told site.new) }
    ensures drawn { DrawsTaken (is_exact result) (S.told site.old) (S.told site.new) (N.drawn serials.old) (N.drawn serials.new) }
    ensures spent { result ≡ Err Fault.Spent → Tells (LineStops store (command_of line.now)) (S.told site.old) (S.told site.new) }
    ensures homes { IfOk result (λ s. SameHomes (homes_of s) (homes_by (state_of store) (command_of line.now) (homes_of store))) }
    ensures home { IfOk result (λ s. home_of s ≡ home_of store) }
    ensures store { IfOk result IsStore }
    ensures causes { CausesOfLine (S.faults site.old) (S.faults site.new) (N.faults serials.old) (N.faults serials.new) result }
    ensures only { IfErr result IsOfLine }
{
    clean_store_is_its_meaning();
    what_a_store_reads_was_written();
    files_that_stay_stay_written();
    let (store, reply) = reply_to_line(alloc, store, line, site, serials)?;
    send_reply(alloc, reply, site)?;
    Ok(store)
}
