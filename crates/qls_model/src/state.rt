// The state of the plain machine.
use crate::bytes::NoMemory;
use crate::machine::{Command, Phase, QueueState, Reply, XidState};
use crate::name::Xid;
use crate::steps::{settle_tables, step_tables};
use crate::tables::{add_queue, add_xid};
use std::alloc::Global;
use std::marker::Model;

/// The state of the plain machine: queues in the order of their names, each with its last number and its messages, and
/// the xids that are open or prepared, in byte order.
#[derive(Drop)]
pub struct State {
    queues: Vec<QueueState>,
    xids: Vec<XidState>,
}

impl Model for State {
    ghost use Rattle.qls_model.specs.Machine.{MachineState};
    ghost use Rattle.qls_model.specs.Sound.{IsSound};

    ghost Value = { MachineState };

    ghost view = { λ a. record { queues = a.queues.items; xids = a.xids.items } };

    ghost invariant = { λ a. IsSound a.queues.items a.xids.items };
}

impl State {
    ghost use Rattle.std.specs.Prelude.{◌≡◌, ◌<◌, ◌^◌, ◌↔◌, None, length, slice_get, option_copied, IsSome, IfSome, IfOk, IfErr};
    ghost use Rattle.std.specs.Option.{option_map};
    ghost use Rattle.qls_model.specs.Sound.{RisesTo};
    ghost use Rattle.qls_model.specs.Machine.{empty_state, queue_named, xid_named, with_queue, with_xid};

    /// No queue and no xid.
    pub fn empty(alloc: Global) -> State
        ensures { result ≡ empty_state }
    {
        State {
            queues: Vec::new(alloc),
            xids: Vec::new(alloc),
        }
    }

    /// Puts the queue, whose name is not there, at its place by name. Where memory is wanting it is dropped, and the
    /// state stays.
    pub fn put_queue(&mut self, queue: QueueState) -> Result<(), NoMemory>
        requires absent { queue_named queue.name self.old.queues ≡ None }
        requires last { queue.last < 2 ^ 62 }
        requires rising { RisesTo queue.last queue.messages }
        ensures added { IfOk result (λ _. self.new ≡ record self.old { queues = with_queue queue self.old.queues }) }
        ensures kept { IfErr result (λ _. self.new ≡ self.old) }
    {
        add_queue(&mut self.queues, queue)
    }

    /// Puts an xid that is not there, prepared, at its place in byte order. Where memory is wanting the state stays.
    pub fn put_prepared(&mut self, xid: Xid) -> Result<(), NoMemory>
        requires absent { xid_named xid self.old.xids ≡ None }
        ensures added { IfOk result (λ _. self.new ≡ record self.old { xids = with_xid (record { xid = xid; phase = Phase.Prepared }) self.old.xids }) }
        ensures kept { IfErr result (λ _. self.new ≡ self.old) }
    {
        let entry = XidState {
            xid,
            phase: Phase::Prepared,
        };
        add_xid(&mut self.xids, entry)
    }

    /// How many queues there are.
    pub fn queue_count(&self) -> usize
        ensures counted { result ≡ length self.now.queues }
    {
        self.queues.len()
    }

    /// How many xids are open or prepared.
    pub fn xid_count(&self) -> usize
        ensures counted { result ≡ length self.now.xids }
    {
        self.xids.len()
    }

    /// The queue at a place in the order of names, counted from 0; None exactly where there is none.
    pub fn queue_at(&self, at: usize) -> Option<&QueueState>
        ensures there { IsSome result ↔ (at < length self.now.queues) }
        ensures queue { option_copied result ≡ slice_get self.now.queues at }
        ensures rising { IfSome result (λ q. RisesTo q.now.last q.now.messages) }
    {
        self.queues.get(at)
    }

    /// The xid at a place in byte order, counted from 0, and its phase; None exactly where there is none.
    pub fn xid_at(&self, at: usize) -> Option<(Xid, Phase)>
        ensures there { IsSome result ↔ (at < length self.now.xids) }
        ensures xid { result ≡ option_map (λ e. (e.xid, e.phase)) (slice_get self.now.xids at) }
    {
        let entry = self.xids.get(at)?;
        Some((entry.xid, entry.phase))
    }
}

ghost use Rattle.std.specs.Prelude.{◌≡◌, IfOk, IfErr};
ghost use Rattle.qls_model.specs.Machine.{step, settle};

/// One step of the plain machine: what the command does to the state, and its reply. A refusal is a reply, the first of
/// the table that applies, and leaves the state. Where memory is wanting the state stays too.
pub fn step(state: &mut State, command: &Command) -> Result<Reply, NoMemory>
    ensures stepped { IfOk result (λ reply. (state.new, reply) ≡ step state.old command.now) }
    ensures kept { IfErr result (λ _. state.new ≡ state.old) }
{
    step_tables(&mut state.queues, &mut state.xids, command)
}

/// Aborts each open xid: what it put is gone, and what it took is ready again. Prepared xids stay as they are. It takes
/// no memory.
pub fn settle(state: &mut State)
    ensures settled { state.new ≡ settle state.old }
{
    settle_tables(&mut state.queues, &mut state.xids);
}
