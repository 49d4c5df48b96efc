//! What a store means, answered.
ghost use Rattle.std.specs.Prelude.{◌≡◌, ◌≤◌, true, IfErr, IfOk, IfSome, Err};
ghost use Rattle.qls_site.specs.Disk.{IdsRise, full};
ghost use Rattle.qls_site.specs.Content.{Tells, Rose};
ghost use Rattle.qls_command.specs.Texts.{state_text as text_of_state};
ghost use Rattle.qls_top.specs.Status.{IsOfShow, IsOfSite};
ghost use Rattle.qls_top.specs.Shows.{Answers, AnswersDamage, AnswersState, OnlyAnswers, OnlyShows, TellsDamage, damage_line as line_of_damage, is_show_status};

use crate::fault::Fault;
use qls_command::state_text;
use qls_filehdr::{Rule, rule_text};
use qls_look::{OpenFault, look};
use qls_model::{NoMemory, State};
use qls_site::Site;
use std::alloc::Global;
use std::io::Write;

/// Answers the text of what the store means, or the line of its first damage, and tells the status: 0, 3, 5 or 6.
pub(crate) fn show<S: Site>(alloc: Global, site: &mut S) -> u8
    ensures status { is_show_status result ≡ true }
    ensures rising { IfSome (S.told site.old) (λ c. IdsRise (full c.now.disk)) }
    ensures looks { Tells OnlyShows (S.told site.old) (S.told site.new) }
    ensures shown { result ≡ 0 → Tells AnswersState (S.told site.old) (S.told site.new) }
    ensures damaged { result ≡ 3 → Tells AnswersDamage (S.told site.old) (S.told site.new) }
    ensures damaged_start { IfSome (S.told site.old) (TellsDamage result) }
    ensures site { result ≡ 5 → Rose (S.faults site.old) (S.faults site.new) }
{
    match answer_meaning(alloc, site) {
        Ok(()) => 0,
        Err(fault) => fault.status(),
    }
}

/// Answers what the store means; Damaged where it was the line of a damage.
fn answer_meaning<S: Site>(alloc: Global, site: &mut S) -> Result<(), Fault>
    ensures rising { IfSome (S.told site.old) (λ c. IdsRise (full c.now.disk)) }
    ensures looks { Tells OnlyShows (S.told site.old) (S.told site.new) }
    ensures shown { IfOk result (λ _. Tells AnswersState (S.told site.old) (S.told site.new)) }
    ensures damaged { result ≡ Err Fault.Damaged → Tells AnswersDamage (S.told site.old) (S.told site.new) }
    ensures cause { result ≡ Err Fault.Site → Rose (S.faults site.old) (S.faults site.new) }
    ensures only { IfErr result IsOfShow }
{
    match look(alloc, site) {
        Ok(state) => answer_state(alloc, &state, site),
        Err(OpenFault::Damaged { file, rule }) => answer_damage(alloc, file, rule, site),
        Err(OpenFault::Failed) => Err(Fault::Site),
        Err(OpenFault::Draw) => Err(Fault::Draw),
        Err(OpenFault::Spent) => Err(Fault::Spent),
        Err(OpenFault::Memory) => Err(Fault::Memory),
    }
}

/// Answers the text of a state.
fn answer_state<S: Site>(alloc: Global, state: &State, site: &mut S) -> Result<(), Fault>
    ensures told { Tells (OnlyAnswers (text_of_state state.now)) (S.told site.old) (S.told site.new) }
    ensures answered { IfOk result (λ _. Tells (Answers (text_of_state state.now)) (S.told site.old) (S.told site.new)) }
    ensures kept { S.faults site.old ≤ S.faults site.new }
    ensures cause { result ≡ Err Fault.Site → Rose (S.faults site.old) (S.faults site.new) }
    ensures only { IfErr result IsOfSite }
{
    let text = state_text(alloc, state)?;
    answer_text(text.as_slice(), site)?;
    Ok(())
}

/// Answers the line of a damage, and then Damaged.
pub(crate) fn answer_damage<S: Site>(
    alloc: Global,
    file: u64,
    rule: Rule,
    site: &mut S,
) -> Result<(), Fault>
    ensures told { Tells (OnlyAnswers (line_of_damage (file, rule))) (S.told site.old) (S.told site.new) }
    ensures answered { result ≡ Err Fault.Damaged → Tells (Answers (line_of_damage (file, rule))) (S.told site.old) (S.told site.new) }
    ensures kept { S.faults site.old ≤ S.faults site.new }
    ensures cause { result ≡ Err Fault.Site → Rose (S.faults site.old) (S.faults site.new) }
    ensures only { IfErr result IsOfShow }
    ensures never { IfOk result (λ _. ⊥) }
{
    let line = damage_line(alloc, file, rule)?;
    answer_text(&line, site)?;
    Err(Fault::Damaged)
}

/// The line of a damage.
fn damage_line(alloc: Global, file: u64, rule: Rule) -> Result<Vec<u8>, NoMemory>
    ensures line { IfOk result (λ text. text.items ≡ line_of_damage (file, rule)) }
{
    let mut text = Vec::new(alloc);
    match writeln!(text, "damaged file {file} rule {}", rule_text(rule)) {
        Ok(()) => Ok(text),
        Err(_) => Err(NoMemory),
    }
}

/// Answers a text.
fn answer_text<S: Site>(text: &[u8], site: &mut S) -> Result<(), Fault>
    ensures told { Tells (OnlyAnswers text.now) (S.told site.old) (S.told site.new) }
    ensures answered { IfOk result (λ _. Tells (Answers text.now) (S.told site.old) (S.told site.new)) }
    ensures kept { S.faults site.old ≤ S.faults site.new }
    ensures cause { result ≡ Err Fault.Site → Rose (S.faults site.old) (S.faults site.new) }
    ensures only { IfErr result IsOfSite }
{
    match site.answer(text) {
        Ok(()) => Ok(()),
        Err(error) => Err(Fault::from(error)),
    }
}
