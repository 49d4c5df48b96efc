// The plain machine's state that a store holds, copied.
ghost use Rattle.std.specs.Prelude.{◌≡◌, [], None, IfErr, IfOk};
ghost use Rattle.std.specs.List.{AllByRecursion};
ghost use Rattle.qls_model.specs.Machine.{empty_state, with_xid, xid_named};
ghost use Rattle.qls_model.specs.Sound.{IsNumbered};
ghost use Rattle.qls_journals.specs.State.{NamesRise, names_of, queues_of};
ghost use Rattle.qls_store.specs.Stores.{state_of};

use crate::store::Store;
use qls_journals::{Cause, Journals};
use qls_model::{Command, NoMemory, Phase, State, Xid, step};
use qls_site::Site;

impl Store {
    /// The plain machine's state as the store holds it, open transactions included: a copy of each queue with its last number
    /// and its messages, those that are coming or going too, and each transaction with its phase.
    ///
    /// The store and the site stay as they are. Memory is the one error.
    pub fn state<S: Site>(&mut self, site: &mut S) -> Result<State, Cause>
        ensures state { IfOk result (λ state. state ≡ state_of self.old) }
        ensures same { self.new ≡ self.old }
        ensures still { site.new ≡ site.old }
        ensures only { IfErr result (λ cause. cause ≡ Cause.Memory) }
    {
        let mut state = State::empty(self.alloc);
        add_queues(&mut state, &self.journals)?;
        self.transactions.add_to(&mut state)?;
        Ok(state)
    }
}

/// Adds copies of the queues to an empty state.
fn add_queues(state: &mut State, journals: &Journals) -> Result<(), NoMemory>
    requires empty { state.old ≡ empty_state }
    requires rising { NamesRise (names_of journals.now.queues) }
    requires numbered { AllByRecursion IsNumbered (queues_of journals.now) }
    ensures added { IfOk result (λ _. state.new ≡ record { queues = queues_of journals.now; xids = [] }) }
{
    for at in 0..journals.queue_count() {
        let queue = journals.queue_at(at)?;
        state.put_queue(queue)?;
    }
    Ok(())
}

/// Adds a transaction that isn't there, open or prepared, at its place by xid.
pub(crate) fn add_xid(state: &mut State, xid: Xid, phase: Phase) -> Result<(), NoMemory>
    requires absent { xid_named xid state.old.xids ≡ None }
    ensures added { IfOk result (λ _. state.new ≡ record state.old { xids = with_xid (record { xid = xid; phase = phase }) state.old.xids }) }
{
    if phase == Phase::Prepared {
        return state.put_prepared(xid);
    }
    step(state, &Command::Begin { xid })?;
    Ok(())
}
