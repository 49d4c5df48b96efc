// The transactions of a store that are open or prepared.
ghost use Rattle.std.specs.Prelude.{◌≡◌, [], IfOk};
ghost use Rattle.std.specs.List.{AllByRecursion};
ghost use Rattle.qls_store.specs.Stores.{XidsRise, xids_of};
ghost use Rattle.qls_store.specs.Table.{IsPlace, Rises, begun, not_open_in, phase_in, prepared_in, prepared_xids, queues_in, touched_by, with_name, without};

use crate::state::add_xid;
use qls_model::{Name, NoMemory, Phase, Refusal, Seq, State, Xid};
use std::alloc::Global;
use std::cmp::Ordering;
use std::marker::Model;

/// A transaction, and the queues in which a message is coming or going by it.
#[derive(Drop)]
pub(crate) struct Transaction {
    xid: Xid,
    phase: Phase,
    /// In order of their names.
    queues: Vec<Name>,
}

impl Model for Transaction {
    ghost use Rattle.qls_store.specs.Stores.{TransactionState};

    ghost Value = { TransactionState };

    ghost view = { λ t. record { xid = t.xid; phase = t.phase; queues = t.queues.items } };
}

/// The transactions, in byte order of xid. A look-up is a binary search.
#[derive(Drop)]
pub(crate) struct Transactions {
    alloc: Global,
    items: Vec<Transaction>,
}

impl Model for Transactions {
    ghost use Rattle.std.specs.Prelude.{List};
    ghost use Rattle.qls_store.specs.Stores.{TransactionState};

    ghost Value = { List TransactionState };

    ghost view = { λ s. s.items.items };
}

impl Transactions {
    /// No transaction.
    pub(crate) fn new(alloc: Global) -> Transactions
        ensures none { result ≡ [] }
    {
        Transactions {
            alloc,
            items: Vec::new(alloc),
        }
    }

    /// The phase of a transaction; None exactly where it isn't there.
    pub(crate) fn phase(&self, xid: &Xid) -> Option<Phase>
        requires rising { XidsRise self.now }
        ensures found { result ≡ phase_in xid.now self.now }
    {
        match place_of(&self.items, xid) {
            Ok(place) => {
                let item = &self.items[place];
                Some(item.phase)
            }
            Err(_) => None,
        }
    }

    /// Why a put, a take or a prepare by the transaction is refused: it isn't there, or is prepared already. None without a
    /// transaction.
    pub(crate) fn not_open(&self, xid: &Option<Xid>) -> Option<Refusal>
        requires rising { XidsRise self.now }
        ensures refusal { result ≡ not_open_in xid.now self.now }
    {
        let xid = xid.as_ref()?;
        match self.phase(xid) {
            None => Some(Refusal::Xid),
            Some(Phase::Prepared) => Some(Refusal::Phase),
            Some(Phase::Open) => None,
        }
    }

    /// The xids that are prepared, in byte order.
    pub(crate) fn prepared(&self) -> Result<Seq<Xid>, NoMemory>
        ensures xids { IfOk result (λ xids. xids ≡ prepared_xids self.now) }
    {
        let mut xids = Seq::new(self.alloc);
        for item in &self.items {
            if item.phase == Phase::Prepared {
                xids.push(item.xid)?;
            }
        }
        Ok(xids)
    }

    /// Adds them to a state that has none.
    pub(crate) fn add_to(&self, state: &mut State) -> Result<(), NoMemory>
        requires rising { XidsRise self.now }
        requires none { state.old.xids ≡ [] }
        ensures added { IfOk result (λ _. state.new ≡ record state.old { xids = xids_of self.now }) }
    {
        for item in &self.items {
            add_xid(state, item.xid, item.phase)?;
        }
        Ok(())
    }

    /// One more transaction, which is open. Its xid isn't there yet.
    pub(crate) fn begin(&mut self, xid: Xid) -> Result<(), NoMemory>
        requires rising { XidsRise self.old }
        requires none { phase_in xid self.old ≡ None }
        ensures begun { IfOk result (λ _. self.new ≡ begun xid self.old) }
    {
        let (Ok(place) | Err(place)) = place_of(&self.items, &xid);
        let transaction = Transaction {
            xid,
            phase: Phase::Open,
            queues: Vec::new(self.alloc),
        };
        self.items.insert(place, transaction)?;
        Ok(())
    }

    /// The transaction has a message in the queue. Nothing changes without a transaction.
    pub(crate) fn touch(&mut self, xid: &Option<Xid>, name: Name) -> Result<(), NoMemory>
        requires rising { XidsRise self.old }
        requires queues { AllByRecursion (λ t. Rises (λ n. n) t.queues) self.old }
        ensures touched { IfOk result (λ _. self.new ≡ touched_by xid.now name self.old) }
    {
        let Some(xid) = xid else {
            return Ok(());
        };
        let Ok(place) = place_of(&self.items, xid) else {
            return Ok(());
        };
        insert_name(&mut self.items[place].queues, name)?;
        Ok(())
    }

    /// A transaction becomes prepared.
    pub(crate) fn prepare(&mut self, xid: &Xid)
        requires rising { XidsRise self.old }
        ensures prepared { self.new ≡ prepared_in xid.now self.old }
    {
        if let Ok(place) = place_of(&self.items, xid) {
            self.items[place].phase = Phase::Prepared;
        }
    }

    /// Takes a transaction out, and hands out the names of its queues.
    pub(crate) fn end(&mut self, xid: &Xid) -> Vec<Name>
        requires rising { XidsRise self.old }
        ensures names { result.items ≡ queues_in xid.now self.old }
        ensures without { self.new ≡ without xid.now self.old }
    {
        match place_of(&self.items, xid) {
            Ok(place) => self.items.remove(place).queues,
            Err(_) => Vec::new(self.alloc),
        }
    }
}

/// The place of a transaction, or the place at which it would stand.
fn place_of(items: &[Transaction], xid: &Xid) -> Result<usize, usize>
    requires rising { XidsRise items.now }
    ensures place { IsPlace (λ t. t.xid) items.now xid.now result }
{
    let mut low = 0;
    let mut high = items.len();
    while low < high {
        let middle = low + (high - low) / 2;
        let item = &items[middle];
        match item.xid.as_slice().cmp(xid.as_slice()) {
            Ordering::Equal => return Ok(middle),
            Ordering::Less => low = middle + 1,
            Ordering::Greater => high = middle,
        }
    }
    Err(low)
}

/// The place of a name among others in order, or the place at which it would stand.
fn place_of_name(names: &[Name], name: &Name) -> Result<usize, usize>
    requires rising { Rises (λ n. n) names.now }
    ensures place { IsPlace (λ n. n) names.now name.now result }
{
    let mut low = 0;
    let mut high = names.len();
    while low < high {
        let middle = low + (high - low) / 2;
        match names[middle].as_slice().cmp(name.as_slice()) {
            Ordering::Equal => return Ok(middle),
            Ordering::Less => low = middle + 1,
            Ordering::Greater => high = middle,
        }
    }
    Err(low)
}

/// Puts a name at its place among others, unless it stands there.
fn insert_name(names: &mut Vec<Name>, name: Name) -> Result<(), NoMemory>
    requires rising { Rises (λ n. n) names.old.items }
    ensures inserted { IfOk result (λ _. names.new.items ≡ with_name name names.old.items) }
{
    if let Err(place) = place_of_name(names, &name) {
        names.insert(place, name)?;
    }
    Ok(())
}
