// The ends of transactions.
ghost use Rattle.std.specs.Prelude.{◌≡◌, ◌+◌, None, Some, Ok, Err, IfOk, IfErr, IfSome, true, false, if◌then◌else◌};
ghost use Rattle.qls_model.specs.Machine.{step as machine_step};
ghost use Rattle.qls_site.specs.Content.{Tells};
ghost use Rattle.qls_command.specs.Within.{IsWithin};
ghost use Rattle.qls_pool.specs.Files.{OnDisk};
ghost use Rattle.qls_pool.specs.Moments.{EndsIn, Passes};
ghost use Rattle.qls_pool.specs.Serials.{DrawsTaken};
ghost use Rattle.qls_journals.specs.Answers.{is_exact, StoreCauses};
ghost use Rattle.qls_journals.specs.Homes.{SameHomes, TakesFromHome};
ghost use Rattle.qls_journals.specs.Moments.{IsStoreStep, StaysWritten};
ghost use Rattle.qls_store.specs.Stores.{state_of, rid_of, IsStore, Fits};
ghost use Rattle.qls_store.specs.Homes.{homes_of, homes_after, is_accepted};
ghost use Rattle.qls_store.specs.Ends.{raises_rid, StopsAtEnd};
ghost use Rattle.qls_store.specs.Steps.{RunsCommand, LeavesDead};

use crate::ending::{end_aborted, end_decided, one_end};
use crate::store::Store;
use qls_journals::Cause;
use qls_model::{Command, Refusal, Reply, Xid};
use qls_site::{Serials, Site};

impl Store {
    /// Commits a transaction: decided in the prepared list, then in each queue of the transaction in order of their names, and then
    /// ended in the list.
    pub(crate) fn commit<S: Site, N: Serials>(
        self,
        site: &mut S,
        serials: &mut N,
        xid: Xid,
    ) -> Result<(Store, Reply), Cause>
        requires command { IsWithin (Command.Commit xid) }
        requires fits { IfSome (S.told site.old) (OnDisk (Fits self)) }
        ensures stepped { IfOk result (λ r. (state_of r.0, r.1) ≡ machine_step (state_of self) (Command.Commit xid)) }
        ensures ended { IfErr result (λ _. is_accepted (machine_step (state_of self) (Command.Commit xid)).1 ≡ true) }
        ensures still { is_accepted (machine_step (state_of self) (Command.Commit xid)).1 ≡ false → site.new ≡ site.old }
        ensures store { IfOk result (λ r. IsStore r.0) }
        ensures rid { IfOk result (λ r. rid_of r.0 ≡ (if raises_rid (state_of self) (Command.Commit xid) then rid_of self + 1 else rid_of self)) }
        ensures told { Tells (EndsIn (λ r. RunsCommand self (Command.Commit xid) r.0) (Passes IsStoreStep) result) (S.told site.old) (S.told site.new) }
        ensures drawn { DrawsTaken (is_exact result) (S.told site.old) (S.told site.new) (N.drawn serials.old) (N.drawn serials.new) }
        ensures leaves { Tells (LeavesDead self) (S.told site.old) (S.told site.new) }
        ensures writes { Tells (StaysWritten result (λ r. r.0.journals) self.journals) (S.told site.old) (S.told site.new) }
        ensures pools { Tells (Passes (TakesFromHome (homes_after (state_of self) (Command.Commit xid) (homes_of self)))) (S.told site.old) (S.told site.new) }
        ensures homes { IfOk result (λ r. SameHomes (homes_of r.0) (homes_after (state_of self) (Command.Commit xid) (homes_of self))) }
        ensures refused { IfOk result (λ r. is_accepted r.1 ≡ false → (r.0 ≡ self) × (site.new ≡ site.old) × (serials.new ≡ serials.old)) }
        ensures spent { result ≡ Err Cause.Spent → Tells (StopsAtEnd self (Command.Commit xid)) (S.told site.old) (S.told site.new) }
        ensures causes { StoreCauses (S.faults site.old) (S.faults site.new) (N.faults serials.old) (N.faults serials.new) result }
    {
        let Some(phase) = self.transactions.phase(&xid) else {
            return Ok((self, Reply::Refused(Refusal::Xid)));
        };
        let ends = one_end(self.alloc, xid, true)?;
        let Store {
            alloc,
            journals,
            mut transactions,
        } = self;
        let names = transactions.end(&xid);
        let journals = end_decided(journals, site, serials, &names, &ends, xid, true, phase)?;
        let store = Store {
            alloc,
            journals,
            transactions,
        };
        Ok((store, Reply::Done))
    }

    /// Aborts a transaction: a prepared one by a decision in the list, as a commit does, and an open one in its queues alone.
    pub(crate) fn abort<S: Site, N: Serials>(
        self,
        site: &mut S,
        serials: &mut N,
        xid: Xid,
    ) -> Result<(Store, Reply), Cause>
        requires command { IsWithin (Command.Abort xid) }
        requires fits { IfSome (S.told site.old) (OnDisk (Fits self)) }
        ensures stepped { IfOk result (λ r. (state_of r.0, r.1) ≡ machine_step (state_of self) (Command.Abort xid)) }
        ensures ended { IfErr result (λ _. is_accepted (machine_step (state_of self) (Command.Abort xid)).1 ≡ true) }
        ensures still { is_accepted (machine_step (state_of self) (Command.Abort xid)).1 ≡ false → site.new ≡ site.old }
        ensures store { IfOk result (λ r. IsStore r.0) }
        ensures rid { IfOk result (λ r. rid_of r.0 ≡ (if raises_rid (state_of self) (Command.Abort xid) then rid_of self + 1 else rid_of self)) }
        ensures told { Tells (EndsIn (λ r. RunsCommand self (Command.Abort xid) r.0) (Passes IsStoreStep) result) (S.told site.old) (S.told site.new) }
        ensures drawn { DrawsTaken (is_exact result) (S.told site.old) (S.told site.new) (N.drawn serials.old) (N.drawn serials.new) }
        ensures leaves { Tells (LeavesDead self) (S.told site.old) (S.told site.new) }
        ensures writes { Tells (StaysWritten result (λ r. r.0.journals) self.journals) (S.told site.old) (S.told site.new) }
        ensures pools { Tells (Passes (TakesFromHome (homes_after (state_of self) (Command.Abort xid) (homes_of self)))) (S.told site.old) (S.told site.new) }
        ensures homes { IfOk result (λ r. SameHomes (homes_of r.0) (homes_after (state_of self) (Command.Abort xid) (homes_of self))) }
        ensures refused { IfOk result (λ r. is_accepted r.1 ≡ false → (r.0 ≡ self) × (site.new ≡ site.old) × (serials.new ≡ serials.old)) }
        ensures spent { result ≡ Err Cause.Spent → Tells (StopsAtEnd self (Command.Abort xid)) (S.told site.old) (S.told site.new) }
        ensures causes { StoreCauses (S.faults site.old) (S.faults site.new) (N.faults serials.old) (N.faults serials.new) result }
    {
        let Some(phase) = self.transactions.phase(&xid) else {
            return Ok((self, Reply::Refused(Refusal::Xid)));
        };
        let ends = one_end(self.alloc, xid, false)?;
        let Store {
            alloc,
            journals,
            mut transactions,
        } = self;
        let names = transactions.end(&xid);
        let journals = end_aborted(journals, site, serials, &names, &ends, xid, phase)?;
        let store = Store {
            alloc,
            journals,
            transactions,
        };
        Ok((store, Reply::Done))
    }
}
