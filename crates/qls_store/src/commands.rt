// What each command on queues does, and the beginning and preparing of transactions.
ghost use Rattle.std.specs.Prelude.{◌≡◌, ◌+◌, None, Some, Ok, Err, IfOk, IfErr, IfSome, true, false, if◌then◌else◌};
ghost use Rattle.qls_model.specs.Machine.{step as machine_step};
ghost use Rattle.qls_site.specs.Content.{Tells};
ghost use Rattle.qls_command.specs.Within.{IsWithin};
ghost use Rattle.qls_pool.specs.Files.{OnDisk};
ghost use Rattle.qls_pool.specs.Moments.{EndsIn, Passes};
ghost use Rattle.qls_pool.specs.Serials.{DrawsTaken};
ghost use Rattle.qls_journals.specs.Answers.{is_exact, StoreCauses};
ghost use Rattle.qls_journals.specs.Homes.{SameHomes, TakesFromHome};
ghost use Rattle.qls_journals.specs.Moments.{IsStoreStep, StaysWritten};
ghost use Rattle.qls_store.specs.Stores.{state_of, rid_of, IsStore, Fits};
ghost use Rattle.qls_store.specs.Homes.{homes_of, homes_after, is_accepted};
ghost use Rattle.qls_store.specs.Ends.{raises_rid, StopsAtEnd};
ghost use Rattle.qls_store.specs.Steps.{RunsCommand, LeavesDead};

use crate::laws::clean_store_is_its_meaning;
use crate::store::Store;
use qls_journals::Cause;
use qls_model::{Bytes, Command, Name, PoolId, Refusal, Reply, Xid};
use qls_site::{Serials, Site};

impl Store {
    /// Makes a queue, whose files belong to the pool that is named, else to the default one.
    pub(crate) fn make_queue<S: Site, N: Serials>(
        self,
        site: &mut S,
        serials: &mut N,
        name: Name,
        home: Option<PoolId>,
    ) -> Result<(Store, Reply), Cause>
        requires command { IsWithin (Command.Queue name home) }
        requires fits { IfSome (S.told site.old) (OnDisk (Fits self)) }
        ensures stepped { IfOk result (λ r. (state_of r.0, r.1) ≡ machine_step (state_of self) (Command.Queue name home)) }
        ensures ended { IfErr result (λ _. is_accepted (machine_step (state_of self) (Command.Queue name home)).1 ≡ true) }
        ensures still { is_accepted (machine_step (state_of self) (Command.Queue name home)).1 ≡ false → site.new ≡ site.old }
        ensures store { IfOk result (λ r. IsStore r.0) }
        ensures rid { IfOk result (λ r. rid_of r.0 ≡ (if raises_rid (state_of self) (Command.Queue name home) then rid_of self + 1 else rid_of self)) }
        ensures told { Tells (EndsIn (λ r. RunsCommand self (Command.Queue name home) r.0) (Passes IsStoreStep) result) (S.told site.old) (S.told site.new) }
        ensures drawn { DrawsTaken (is_exact result) (S.told site.old) (S.told site.new) (N.drawn serials.old) (N.drawn serials.new) }
        ensures leaves { Tells (LeavesDead self) (S.told site.old) (S.told site.new) }
        ensures writes { Tells (StaysWritten result (λ r. r.0.journals) self.journals) (S.told site.old) (S.told site.new) }
        ensures pools { Tells (Passes (TakesFromHome (homes_after (state_of self) (Command.Queue name home) (homes_of self)))) (S.told site.old) (S.told site.new) }
        ensures homes { IfOk result (λ r. SameHomes (homes_of r.0) (homes_after (state_of self) (Command.Queue name home) (homes_of self))) }
        ensures refused { IfOk result (λ r. is_accepted r.1 ≡ false → (r.0 ≡ self) × (site.new ≡ site.old) × (serials.new ≡ serials.old)) }
        ensures spent { result ≡ Err Cause.Spent → Tells (StopsAtEnd self (Command.Queue name home)) (S.told site.old) (S.told site.new) }
        ensures causes { StoreCauses (S.faults site.old) (S.faults site.new) (N.faults serials.old) (N.faults serials.new) result }
    {
        let at = match self.journals.place_of(&name) {
            Ok(_) => return Ok((self, Reply::Refused(Refusal::Exists))),
            Err(at) => at,
        };
        let home = home.unwrap_or(self.journals.home());
        let Store {
            alloc,
            journals,
            transactions,
        } = self;
        let journals = journals.create(site, serials, name, home, at)?;
        let store = Store {
            alloc,
            journals,
            transactions,
        };
        Ok((store, Reply::Done))
    }

    /// Drops a queue that has no message: its only file goes back.
    pub(crate) fn drop_queue<S: Site, N: Serials>(
        self,
        site: &mut S,
        serials: &mut N,
        name: Name,
    ) -> Result<(Store, Reply), Cause>
        requires command { IsWithin (Command.Drop name) }
        requires fits { IfSome (S.told site.old) (OnDisk (Fits self)) }
        ensures stepped { IfOk result (λ r. (state_of r.0, r.1) ≡ machine_step (state_of self) (Command.Drop name)) }
        ensures ended { IfErr result (λ _. is_accepted (machine_step (state_of self) (Command.Drop name)).1 ≡ true) }
        ensures still { is_accepted (machine_step (state_of self) (Command.Drop name)).1 ≡ false → site.new ≡ site.old }
        ensures store { IfOk result (λ r. IsStore r.0) }
        ensures rid { IfOk result (λ r. rid_of r.0 ≡ (if raises_rid (state_of self) (Command.Drop name) then rid_of self + 1 else rid_of self)) }
        ensures told { Tells (EndsIn (λ r. RunsCommand self (Command.Drop name) r.0) (Passes IsStoreStep) result) (S.told site.old) (S.told site.new) }
        ensures drawn { DrawsTaken (is_exact result) (S.told site.old) (S.told site.new) (N.drawn serials.old) (N.drawn serials.new) }
        ensures leaves { Tells (LeavesDead self) (S.told site.old) (S.told site.new) }
        ensures writes { Tells (StaysWritten result (λ r. r.0.journals) self.journals) (S.told site.old) (S.told site.new) }
        ensures pools { Tells (Passes (TakesFromHome (homes_after (state_of self) (Command.Drop name) (homes_of self)))) (S.told site.old) (S.told site.new) }
        ensures homes { IfOk result (λ r. SameHomes (homes_of r.0) (homes_after (state_of self) (Command.Drop name) (homes_of self))) }
        ensures refused { IfOk result (λ r. is_accepted r.1 ≡ false → (r.0 ≡ self) × (site.new ≡ site.old) × (serials.new ≡ serials.old)) }
        ensures spent { result ≡ Err Cause.Spent → Tells (StopsAtEnd self (Command.Drop name)) (S.told site.old) (S.told site.new) }
        ensures causes { StoreCauses (S.faults site.old) (S.faults site.new) (N.faults serials.old) (N.faults serials.new) result }
    {
        let at = match self.journals.place_of(&name) {
            Ok(at) => at,
            Err(_) => return Ok((self, Reply::Refused(Refusal::Queue))),
        };
        if self.journals.has_message(at) {
            return Ok((self, Reply::Refused(Refusal::Busy)));
        }
        let Store {
            alloc,
            journals,
            transactions,
        } = self;
        let journals = journals.remove(site, &name, at)?;
        let store = Store {
            alloc,
            journals,
            transactions,
        };
        Ok((store, Reply::Done))
    }

    /// Puts a message into a queue, by the transaction where there is one.
    pub(crate) fn put<S: Site, N: Serials>(
        self,
        site: &mut S,
        serials: &mut N,
        name: Name,
        body: Bytes,
        xid: Option<Xid>,
    ) -> Result<(Store, Reply), Cause>
        requires command { IsWithin (Command.Put name body xid) }
        requires fits { IfSome (S.told site.old) (OnDisk (Fits self)) }
        ensures stepped { IfOk result (λ r. (state_of r.0, r.1) ≡ machine_step (state_of self) (Command.Put name body xid)) }
        ensures ended { IfErr result (λ _. is_accepted (machine_step (state_of self) (Command.Put name body xid)).1 ≡ true) }
        ensures still { is_accepted (machine_step (state_of self) (Command.Put name body xid)).1 ≡ false → site.new ≡ site.old }
        ensures store { IfOk result (λ r. IsStore r.0) }
        ensures rid { IfOk result (λ r. rid_of r.0 ≡ (if raises_rid (state_of self) (Command.Put name body xid) then rid_of self + 1 else rid_of self)) }
        ensures told { Tells (EndsIn (λ r. RunsCommand self (Command.Put name body xid) r.0) (Passes IsStoreStep) result) (S.told site.old) (S.told site.new) }
        ensures drawn { DrawsTaken (is_exact result) (S.told site.old) (S.told site.new) (N.drawn serials.old) (N.drawn serials.new) }
        ensures leaves { Tells (LeavesDead self) (S.told site.old) (S.told site.new) }
        ensures writes { Tells (StaysWritten result (λ r. r.0.journals) self.journals) (S.told site.old) (S.told site.new) }
        ensures pools { Tells (Passes (TakesFromHome (homes_after (state_of self) (Command.Put name body xid) (homes_of self)))) (S.told site.old) (S.told site.new) }
        ensures homes { IfOk result (λ r. SameHomes (homes_of r.0) (homes_after (state_of self) (Command.Put name body xid) (homes_of self))) }
        ensures refused { IfOk result (λ r. is_accepted r.1 ≡ false → (r.0 ≡ self) × (site.new ≡ site.old) × (serials.new ≡ serials.old)) }
        ensures spent { result ≡ Err Cause.Spent → Tells (StopsAtEnd self (Command.Put name body xid)) (S.told site.old) (S.told site.new) }
        ensures causes { StoreCauses (S.faults site.old) (S.faults site.new) (N.faults serials.old) (N.faults serials.new) result }
    {
        let at = match self.journals.place_of(&name) {
            Ok(at) => at,
            Err(_) => return Ok((self, Reply::Refused(Refusal::Queue))),
        };
        if let Some(refusal) = self.transactions.not_open(&xid) {
            return Ok((self, Reply::Refused(refusal)));
        }
        let Store {
            alloc,
            journals,
            mut transactions,
        } = self;
        let (journals, put) = journals.put(site, serials, at, body, xid)?;
        let number = match put {
            Ok(number) => number,
            Err(refusal) => {
                let store = Store {
                    alloc,
                    journals,
                    transactions,
                };
                return Ok((store, Reply::Refused(refusal)));
            }
        };
        transactions.touch(&xid, name)?;
        let store = Store {
            alloc,
            journals,
            transactions,
        };
        Ok((store, Reply::Number(number)))
    }

    /// Takes a message from a queue, by the transaction where there is one.
    pub(crate) fn take<S: Site, N: Serials>(
        self,
        site: &mut S,
        serials: &mut N,
        name: Name,
        number: u64,
        xid: Option<Xid>,
    ) -> Result<(Store, Reply), Cause>
        requires command { IsWithin (Command.Take name number xid) }
        requires fits { IfSome (S.told site.old) (OnDisk (Fits self)) }
        ensures stepped { IfOk result (λ r. (state_of r.0, r.1) ≡ machine_step (state_of self) (Command.Take name number xid)) }
        ensures ended { IfErr result (λ _. is_accepted (machine_step (state_of self) (Command.Take name number xid)).1 ≡ true) }
        ensures still { is_accepted (machine_step (state_of self) (Command.Take name number xid)).1 ≡ false → site.new ≡ site.old }
        ensures store { IfOk result (λ r. IsStore r.0) }
        ensures rid { IfOk result (λ r. rid_of r.0 ≡ (if raises_rid (state_of self) (Command.Take name number xid) then rid_of self + 1 else rid_of self)) }
        ensures told { Tells (EndsIn (λ r. RunsCommand self (Command.Take name number xid) r.0) (Passes IsStoreStep) result) (S.told site.old) (S.told site.new) }
        ensures drawn { DrawsTaken (is_exact result) (S.told site.old) (S.told site.new) (N.drawn serials.old) (N.drawn serials.new) }
        ensures leaves { Tells (LeavesDead self) (S.told site.old) (S.told site.new) }
        ensures writes { Tells (StaysWritten result (λ r. r.0.journals) self.journals) (S.told site.old) (S.told site.new) }
        ensures pools { Tells (Passes (TakesFromHome (homes_after (state_of self) (Command.Take name number xid) (homes_of self)))) (S.told site.old) (S.told site.new) }
        ensures homes { IfOk result (λ r. SameHomes (homes_of r.0) (homes_after (state_of self) (Command.Take name number xid) (homes_of self))) }
        ensures refused { IfOk result (λ r. is_accepted r.1 ≡ false → (r.0 ≡ self) × (site.new ≡ site.old) × (serials.new ≡ serials.old)) }
        ensures spent { result ≡ Err Cause.Spent → Tells (StopsAtEnd self (Command.Take name number xid)) (S.told site.old) (S.told site.new) }
        ensures causes { StoreCauses (S.faults site.old) (S.faults site.new) (N.faults serials.old) (N.faults serials.new) result }
    {
        let at = match self.journals.place_of(&name) {
            Ok(at) => at,
            Err(_) => return Ok((self, Reply::Refused(Refusal::Queue))),
        };
        if let Some(refusal) = self.transactions.not_open(&xid) {
            return Ok((self, Reply::Refused(refusal)));
        }
        let Store {
            alloc,
            journals,
            mut transactions,
        } = self;
        let (journals, taken) = journals.take(site, serials, at, number, xid)?;
        if let Err(refusal) = taken {
            let store = Store {
                alloc,
                journals,
                transactions,
            };
            return Ok((store, Reply::Refused(refusal)));
        }
        transactions.touch(&xid, name)?;
        let store = Store {
            alloc,
            journals,
            transactions,
        };
        Ok((store, Reply::Done))
    }

    /// The messages of a queue, copied.
    pub(crate) fn list<S: Site, N: Serials>(
        self,
        site: &mut S,
        serials: &mut N,
        name: Name,
    ) -> Result<(Store, Reply), Cause>
        requires command { IsWithin (Command.List name) }
        requires fits { IfSome (S.told site.old) (OnDisk (Fits self)) }
        ensures stepped { IfOk result (λ r. (state_of r.0, r.1) ≡ machine_step (state_of self) (Command.List name)) }
        ensures ended { IfErr result (λ _. is_accepted (machine_step (state_of self) (Command.List name)).1 ≡ true) }
        ensures still { is_accepted (machine_step (state_of self) (Command.List name)).1 ≡ false → site.new ≡ site.old }
        ensures store { IfOk result (λ r. IsStore r.0) }
        ensures rid { IfOk result (λ r. rid_of r.0 ≡ (if raises_rid (state_of self) (Command.List name) then rid_of self + 1 else rid_of self)) }
        ensures told { Tells (EndsIn (λ r. RunsCommand self (Command.List name) r.0) (Passes IsStoreStep) result) (S.told site.old) (S.told site.new) }
        ensures drawn { DrawsTaken (is_exact result) (S.told site.old) (S.told site.new) (N.drawn serials.old) (N.drawn serials.new) }
        ensures leaves { Tells (LeavesDead self) (S.told site.old) (S.told site.new) }
        ensures writes { Tells (StaysWritten result (λ r. r.0.journals) self.journals) (S.told site.old) (S.told site.new) }
        ensures pools { Tells (Passes (TakesFromHome (homes_after (state_of self) (Command.List name) (homes_of self)))) (S.told site.old) (S.told site.new) }
        ensures homes { IfOk result (λ r. SameHomes (homes_of r.0) (homes_after (state_of self) (Command.List name) (homes_of self))) }
        ensures refused { IfOk result (λ r. is_accepted r.1 ≡ false → (r.0 ≡ self) × (site.new ≡ site.old) × (serials.new ≡ serials.old)) }
        ensures spent { result ≡ Err Cause.Spent → Tells (StopsAtEnd self (Command.List name)) (S.told site.old) (S.told site.new) }
        ensures causes { StoreCauses (S.faults site.old) (S.faults site.new) (N.faults serials.old) (N.faults serials.new) result }
    {
        let at = match self.journals.place_of(&name) {
            Ok(at) => at,
            Err(_) => return Ok((self, Reply::Refused(Refusal::Queue))),
        };
        let messages = self.journals.messages(at)?;
        Ok((self, Reply::Messages(messages)))
    }

    /// The transactions in doubt.
    pub(crate) fn doubt<S: Site, N: Serials>(
        self,
        site: &mut S,
        serials: &mut N,
    ) -> Result<(Store, Reply), Cause>
        requires command { IsWithin (Command.Doubt) }
        requires fits { IfSome (S.told site.old) (OnDisk (Fits self)) }
        ensures stepped { IfOk result (λ r. (state_of r.0, r.1) ≡ machine_step (state_of self) (Command.Doubt)) }
        ensures ended { IfErr result (λ _. is_accepted (machine_step (state_of self) (Command.Doubt)).1 ≡ true) }
        ensures still { is_accepted (machine_step (state_of self) (Command.Doubt)).1 ≡ false → site.new ≡ site.old }
        ensures store { IfOk result (λ r. IsStore r.0) }
        ensures rid { IfOk result (λ r. rid_of r.0 ≡ (if raises_rid (state_of self) (Command.Doubt) then rid_of self + 1 else rid_of self)) }
        ensures told { Tells (EndsIn (λ r. RunsCommand self (Command.Doubt) r.0) (Passes IsStoreStep) result) (S.told site.old) (S.told site.new) }
        ensures drawn { DrawsTaken (is_exact result) (S.told site.old) (S.told site.new) (N.drawn serials.old) (N.drawn serials.new) }
        ensures leaves { Tells (LeavesDead self) (S.told site.old) (S.told site.new) }
        ensures writes { Tells (StaysWritten result (λ r. r.0.journals) self.journals) (S.told site.old) (S.told site.new) }
        ensures pools { Tells (Passes (TakesFromHome (homes_after (state_of self) (Command.Doubt) (homes_of self)))) (S.told site.old) (S.told site.new) }
        ensures homes { IfOk result (λ r. SameHomes (homes_of r.0) (homes_after (state_of self) (Command.Doubt) (homes_of self))) }
        ensures refused { IfOk result (λ r. is_accepted r.1 ≡ false → (r.0 ≡ self) × (site.new ≡ site.old) × (serials.new ≡ serials.old)) }
        ensures spent { result ≡ Err Cause.Spent → Tells (StopsAtEnd self (Command.Doubt)) (S.told site.old) (S.told site.new) }
        ensures causes { StoreCauses (S.faults site.old) (S.faults site.new) (N.faults serials.old) (N.faults serials.new) result }
    {
        let xids = self.transactions.prepared()?;
        Ok((self, Reply::Doubts(xids)))
    }

    /// Begins a transaction. Nothing is written.
    pub(crate) fn begin<S: Site, N: Serials>(
        self,
        site: &mut S,
        serials: &mut N,
        xid: Xid,
    ) -> Result<(Store, Reply), Cause>
        requires command { IsWithin (Command.Begin xid) }
        requires fits { IfSome (S.told site.old) (OnDisk (Fits self)) }
        ensures stepped { IfOk result (λ r. (state_of r.0, r.1) ≡ machine_step (state_of self) (Command.Begin xid)) }
        ensures ended { IfErr result (λ _. is_accepted (machine_step (state_of self) (Command.Begin xid)).1 ≡ true) }
        ensures still { is_accepted (machine_step (state_of self) (Command.Begin xid)).1 ≡ false → site.new ≡ site.old }
        ensures store { IfOk result (λ r. IsStore r.0) }
        ensures rid { IfOk result (λ r. rid_of r.0 ≡ (if raises_rid (state_of self) (Command.Begin xid) then rid_of self + 1 else rid_of self)) }
        ensures told { Tells (EndsIn (λ r. RunsCommand self (Command.Begin xid) r.0) (Passes IsStoreStep) result) (S.told site.old) (S.told site.new) }
        ensures drawn { DrawsTaken (is_exact result) (S.told site.old) (S.told site.new) (N.drawn serials.old) (N.drawn serials.new) }
        ensures leaves { Tells (LeavesDead self) (S.told site.old) (S.told site.new) }
        ensures writes { Tells (StaysWritten result (λ r. r.0.journals) self.journals) (S.told site.old) (S.told site.new) }
        ensures pools { Tells (Passes (TakesFromHome (homes_after (state_of self) (Command.Begin xid) (homes_of self)))) (S.told site.old) (S.told site.new) }
        ensures homes { IfOk result (λ r. SameHomes (homes_of r.0) (homes_after (state_of self) (Command.Begin xid) (homes_of self))) }
        ensures refused { IfOk result (λ r. is_accepted r.1 ≡ false → (r.0 ≡ self) × (site.new ≡ site.old) × (serials.new ≡ serials.old)) }
        ensures spent { result ≡ Err Cause.Spent → Tells (StopsAtEnd self (Command.Begin xid)) (S.told site.old) (S.told site.new) }
        ensures causes { StoreCauses (S.faults site.old) (S.faults site.new) (N.faults serials.old) (N.faults serials.new) result }
    {
        if self.transactions.phase(&xid).is_some() {
            return Ok((self, Reply::Refused(Refusal::Exists)));
        }
        let Store {
            alloc,
            journals,
            mut transactions,
        } = self;
        transactions.begin(xid)?;
        let store = Store {
            alloc,
            journals,
            transactions,
        };
        Ok((store, Reply::Done))
    }

    /// Prepares an open transaction: the prepared list enters it.
    pub(crate) fn prepare<S: Site, N: Serials>(
        self,
        site: &mut S,
        serials: &mut N,
        xid: Xid,
    ) -> Result<(Store, Reply), Cause>
        requires command { IsWithin (Command.Prepare xid) }
        requires fits { IfSome (S.told site.old) (OnDisk (Fits self)) }
        ensures stepped { IfOk result (λ r. (state_of r.0, r.1) ≡ machine_step (state_of self) (Command.Prepare xid)) }
        ensures ended { IfErr result (λ _. is_accepted (machine_step (state_of self) (Command.Prepare xid)).1 ≡ true) }
        ensures still { is_accepted (machine_step (state_of self) (Command.Prepare xid)).1 ≡ false → site.new ≡ site.old }
        ensures store { IfOk result (λ r. IsStore r.0) }
        ensures rid { IfOk result (λ r. rid_of r.0 ≡ (if raises_rid (state_of self) (Command.Prepare xid) then rid_of self + 1 else rid_of self)) }
        ensures told { Tells (EndsIn (λ r. RunsCommand self (Command.Prepare xid) r.0) (Passes IsStoreStep) result) (S.told site.old) (S.told site.new) }
        ensures drawn { DrawsTaken (is_exact result) (S.told site.old) (S.told site.new) (N.drawn serials.old) (N.drawn serials.new) }
        ensures leaves { Tells (LeavesDead self) (S.told site.old) (S.told site.new) }
        ensures writes { Tells (StaysWritten result (λ r. r.0.journals) self.journals) (S.told site.old) (S.told site.new) }
        ensures pools { Tells (Passes (TakesFromHome (homes_after (state_of self) (Command.Prepare xid) (homes_of self)))) (S.told site.old) (S.told site.new) }
        ensures homes { IfOk result (λ r. SameHomes (homes_of r.0) (homes_after (state_of self) (Command.Prepare xid) (homes_of self))) }
        ensures refused { IfOk result (λ r. is_accepted r.1 ≡ false → (r.0 ≡ self) × (site.new ≡ site.old) × (serials.new ≡ serials.old)) }
        ensures spent { result ≡ Err Cause.Spent → Tells (StopsAtEnd self (Command.Prepare xid)) (S.told site.old) (S.told site.new) }
        ensures causes { StoreCauses (S.faults site.old) (S.faults site.new) (N.faults serials.old) (N.faults serials.new) result }
    {
        clean_store_is_its_meaning();
        if let Some(refusal) = self.transactions.not_open(&Some(xid)) {
            return Ok((self, Reply::Refused(refusal)));
        }
        let Store {
            alloc,
            journals,
            mut transactions,
        } = self;
        let journals = journals.prepare(site, serials, xid)?;
        transactions.prepare(&xid);
        let store = Store {
            alloc,
            journals,
            transactions,
        };
        Ok((store, Reply::Done))
    }
}
