//! From records to states: what a queue holds after its records, and the prepared list's entries after its.
#![tactic(auto)]

mod ends;
mod list;
mod queue;
mod records;
#[cfg(test)]
mod tests;

ghost use Rattle.std.specs.Prelude.{◌≡◌, ℕ, List, [], map, true};
ghost use Rattle.std.specs.List.{AllByRecursion, list_any};
ghost use Rattle.qls_model.specs.declared.machine.QueueState.{QueueState};
ghost use Rattle.qls_enqmap.specs.declared.Held.{Held};
ghost use Rattle.qls_meaning.specs.Reading.{Read};
ghost use Rattle.qls_meaning.specs.Replay.{queue_after};
ghost use Rattle.qls_replay.specs.Held.{held_after_all, messages_of, is_of};

pub use ends::end_transaction;
pub use list::ListReplay;
pub use queue::QueueReplay;

/// What is held after all records of a queue: just the messages of its replay, each in the files of an enqueue of its id.
pub fn held_is_the_replay()
    ensures messages { (rs : List Read) (hs : List Held) (q : QueueState) → q.messages ≡ messages_of hs
        → (queue_after (map (λ r. r.what) rs) q).messages ≡ messages_of (held_after_all rs hs) }
    ensures files { (rs : List Read) → AllByRecursion (λ h. list_any (is_of h) rs ≡ true) (held_after_all rs []) }
{}
