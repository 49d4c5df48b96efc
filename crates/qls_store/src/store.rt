// A store and its steps.
ghost use Rattle.std.specs.Prelude.{◌≡◌, ◌+◌, None, Some, Ok, Err, [], IfOk, IfErr, IfSome, true, false, if◌then◌else◌};
ghost use Rattle.qls_model.specs.Limits.{is_kib, is_partition};
ghost use Rattle.qls_model.specs.Machine.{empty_state, step as machine_step};
ghost use Rattle.qls_site.specs.Content.{Tells};
ghost use Rattle.qls_command.specs.Within.{IsWithin};
ghost use Rattle.qls_pool.specs.Files.{OnDisk};
ghost use Rattle.qls_pool.specs.Moments.{EndsIn, Passes};
ghost use Rattle.qls_pool.specs.Serials.{DrawsTaken};
ghost use Rattle.qls_journals.specs.Answers.{is_exact, StoreCauses};
ghost use Rattle.qls_journals.specs.Homes.{SameHomes, TakesFromHome};
ghost use Rattle.qls_journals.specs.Moments.{IsStoreStep, StaysWritten};
ghost use Rattle.qls_store.specs.Stores.{state_of, home_of, rid_of, IsStore, Fits};
ghost use Rattle.qls_store.specs.Homes.{homes_of, homes_after, is_accepted};
ghost use Rattle.qls_store.specs.Ends.{raises_rid, StopsAtEnd};
ghost use Rattle.qls_store.specs.Steps.{stepped, RunsCommand, LeavesDead};

use crate::transactions::Transactions;
use qls_journals::{Cause, Journals};
use qls_model::{Command, PoolId, Reply};
use qls_pool::Pool;
use qls_site::{Serials, Site};
use std::alloc::Global;
use std::marker::Model;

/// A store: the open journals, and the transactions that are open or prepared.
#[derive(Drop)]
pub struct Store {
    pub(crate) alloc: Global,
    pub(crate) journals: Journals,
    pub(crate) transactions: Transactions,
}

impl Model for Store {
    ghost use Rattle.qls_store.specs.Stores.{StoreState, IsStore};

    ghost Value = { StoreState };

    ghost view = { λ s. record { journals = s.journals; transactions = s.transactions } };

    ghost invariant = { λ s. IsStore (record { journals = s.journals; transactions = s.transactions }) };
}

/// What a step answers.
#[derive(Drop)]
pub enum Stepped {
    /// The store, and the reply.
    Live(Store, Reply),
    /// The store is ended; the disk is in one of the step's moments.
    Ended(Cause),
}

impl Store {
    /// A store without a queue and without a transaction, over the pools of a site on which no file is in use. `home` is the
    /// pool of the prepared list, and of queues whose command names none; it is within the limits.
    pub fn new(alloc: Global, home: PoolId, pool: Pool) -> Store
        requires home { (is_partition home.part ≡ true) × (is_kib home.kib ≡ true) }
        ensures home { home_of result ≡ home }
        ensures pool { result.journals.pool ≡ pool }
        ensures state { state_of result ≡ empty_state }
        ensures queues { result.journals.queues ≡ [] }
        ensures list { result.journals.list ≡ record { home = home; log = None; entries = []; held = []; ended = false } }
        ensures rid { rid_of result ≡ 0 }
        ensures store { IsStore result }
    {
        Store {
            alloc,
            journals: Journals::new(alloc, home, pool),
            transactions: Transactions::new(alloc),
        }
    }

    /// Runs a command: the plain machine's state and reply. All that it wrote is flushed, and files that nothing holds any
    /// more are back in their pools. A refused command makes no call and changes nothing.
    ///
    /// A transaction over several queues is decided in the prepared list: its commit is on disk there before the first queue
    /// commits, and the list's entry goes after the last one has. The abort of a prepared transaction is decided so too; that
    /// of an open one writes nothing in the list.
    ///
    /// The command's name, body, xid and pool are within the limits. Where told, the site is as the store's last call left
    /// it. A store that is ended hands nothing back: Failed and Draw come only where that count of faults rose, Spent where a
    /// file must be taken and its number or its id would be 2^62, or where the list's record id is 2^62 - 1.
    pub fn step<S: Site, N: Serials>(
        self,
        site: &mut S,
        serials: &mut N,
        command: Command,
    ) -> Stepped
        requires command { IsWithin (command) }
        requires fits { IfSome (S.told site.old) (OnDisk (Fits self)) }
        ensures stepped { IfOk (stepped result) (λ r. (state_of r.0, r.1) ≡ machine_step (state_of self) (command)) }
        ensures ended { IfErr (stepped result) (λ _. is_accepted (machine_step (state_of self) (command)).1 ≡ true) }
        ensures still { is_accepted (machine_step (state_of self) (command)).1 ≡ false → site.new ≡ site.old }
        ensures store { IfOk (stepped result) (λ r. IsStore r.0) }
        ensures rid { IfOk (stepped result) (λ r. rid_of r.0 ≡ (if raises_rid (state_of self) (command) then rid_of self + 1 else rid_of self)) }
        ensures told { Tells (EndsIn (λ r. RunsCommand self (command) r.0) (Passes IsStoreStep) (stepped result)) (S.told site.old) (S.told site.new) }
        ensures drawn { DrawsTaken (is_exact (stepped result)) (S.told site.old) (S.told site.new) (N.drawn serials.old) (N.drawn serials.new) }
        ensures leaves { Tells (LeavesDead self) (S.told site.old) (S.told site.new) }
        ensures writes { Tells (StaysWritten (stepped result) (λ r. r.0.journals) self.journals) (S.told site.old) (S.told site.new) }
        ensures pools { Tells (Passes (TakesFromHome (homes_after (state_of self) (command) (homes_of self)))) (S.told site.old) (S.told site.new) }
        ensures homes { IfOk (stepped result) (λ r. SameHomes (homes_of r.0) (homes_after (state_of self) (command) (homes_of self))) }
        ensures refused { IfOk (stepped result) (λ r. is_accepted r.1 ≡ false → (r.0 ≡ self) × (site.new ≡ site.old) × (serials.new ≡ serials.old)) }
        ensures spent { (stepped result) ≡ Err Cause.Spent → Tells (StopsAtEnd self (command)) (S.told site.old) (S.told site.new) }
        ensures causes { StoreCauses (S.faults site.old) (S.faults site.new) (N.faults serials.old) (N.faults serials.new) (stepped result) }
    {
        match self.run_command(site, serials, command) {
            Ok((store, reply)) => Stepped::Live(store, reply),
            Err(cause) => Stepped::Ended(cause),
        }
    }

    /// Runs a command.
    fn run_command<S: Site, N: Serials>(
        self,
        site: &mut S,
        serials: &mut N,
        command: Command,
    ) -> Result<(Store, Reply), Cause>
        requires command { IsWithin (command) }
        requires fits { IfSome (S.told site.old) (OnDisk (Fits self)) }
        ensures stepped { IfOk result (λ r. (state_of r.0, r.1) ≡ machine_step (state_of self) (command)) }
        ensures ended { IfErr result (λ _. is_accepted (machine_step (state_of self) (command)).1 ≡ true) }
        ensures still { is_accepted (machine_step (state_of self) (command)).1 ≡ false → site.new ≡ site.old }
        ensures store { IfOk result (λ r. IsStore r.0) }
        ensures rid { IfOk result (λ r. rid_of r.0 ≡ (if raises_rid (state_of self) (command) then rid_of self + 1 else rid_of self)) }
        ensures told { Tells (EndsIn (λ r. RunsCommand self (command) r.0) (Passes IsStoreStep) result) (S.told site.old) (S.told site.new) }
        ensures drawn { DrawsTaken (is_exact result) (S.told site.old) (S.told site.new) (N.drawn serials.old) (N.drawn serials.new) }
        ensures leaves { Tells (LeavesDead self) (S.told site.old) (S.told site.new) }
        ensures writes { Tells (StaysWritten result (λ r. r.0.journals) self.journals) (S.told site.old) (S.told site.new) }
        ensures pools { Tells (Passes (TakesFromHome (homes_after (state_of self) (command) (homes_of self)))) (S.told site.old) (S.told site.new) }
        ensures homes { IfOk result (λ r. SameHomes (homes_of r.0) (homes_after (state_of self) (command) (homes_of self))) }
        ensures refused { IfOk result (λ r. is_accepted r.1 ≡ false → (r.0 ≡ self) × (site.new ≡ site.old) × (serials.new ≡ serials.old)) }
        ensures spent { result ≡ Err Cause.Spent → Tells (StopsAtEnd self (command)) (S.told site.old) (S.told site.new) }
        ensures causes { StoreCauses (S.faults site.old) (S.faults site.new) (N.faults serials.old) (N.faults serials.new) result }
    {
        let (name, xid) = match &command {
            Command::Queue { name, home } => {
                return self.make_queue(site, serials, *name, *home);
            }
            Command::Drop { name } => return self.drop_queue(site, serials, *name),
            Command::Take { name, number, xid } => {
                return self.take(site, serials, *name, *number, *xid);
            }
            Command::Begin { xid } => return self.begin(site, serials, *xid),
            Command::Prepare { xid } => return self.prepare(site, serials, *xid),
            Command::Commit { xid } => return self.commit(site, serials, *xid),
            Command::Abort { xid } => return self.abort(site, serials, *xid),
            Command::List { name } => return self.list(site, serials, *name),
            Command::Doubt => return self.doubt(site, serials),
            Command::Put { name, xid, .. } => (*name, *xid),
        };
        match command {
            Command::Put { body, .. } => self.put(site, serials, name, body, xid),
            _ => self.doubt(site, serials),
        }
    }
}
