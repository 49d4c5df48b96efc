// Dead files of all journals that go back to their pools.
ghost use Rattle.std.specs.Prelude.{◌≡◌, ◌<◌, ◌+◌, IfOk, IfSome, length, take};
ghost use Rattle.qls_site.specs.Content.{Tells};
ghost use Rattle.qls_pool.specs.Files.{OnDisk};
ghost use Rattle.qls_pool.specs.Moments.{EndsIn, Passes};
ghost use Rattle.qls_pool.specs.Serials.{TakesNone};
ghost use Rattle.qls_prepared.specs.Lists.{rid_of};
ghost use Rattle.qls_journals.specs.Answers.{SiteCauses};
ghost use Rattle.qls_journals.specs.Homes.{Homes, SameHomes, TakesFromHome, homes_of};
ghost use Rattle.qls_journals.specs.Moments.{Changes, IsStoreStep, LeavesDead, StaysWritten};
ghost use Rattle.qls_journals.specs.Releasing.{AreSame, GivesBack, HasGivenBack, ListComesAlive, NextComesAlive};
ghost use Rattle.qls_journals.specs.State.{AreJournals, AreReleased, Fits, IsClean, IsWhole, queues_of};

use crate::cause::{Cause, cause_of_log, cause_of_queue};
use crate::journals::Journals;
use qls_log::laws::files_that_stay_stay_written;
use qls_site::Site;

impl Journals {
    /// Gives the dead oldest files of the prepared list back.
    fn release_list<S: Site>(mut self, site: &mut S) -> Result<Journals, Cause>
        requires fits { IfSome (S.told site.old) (OnDisk (Fits self)) }
        ensures same { IfOk result (λ x. AreSame self x) }
        ensures queues { IfOk result (λ x. x.queues ≡ self.queues) }
        ensures kept { IfOk result (λ x. AreJournals x) }
        ensures gives { Tells (GivesBack self) (S.told site.old) (S.told site.new) }
        ensures done { IfOk result (λ x. Tells (HasGivenBack self x) (S.told site.old) (S.told site.new)) }
        ensures alive { IfOk result (λ x. Tells (ListComesAlive self x) (S.told site.old) (S.told site.new)) }
        ensures writes { Tells (StaysWritten result (λ x. x) self) (S.told site.old) (S.told site.new) }
        ensures causes { SiteCauses (S.faults site.old) (S.faults site.new) result }
    {
        files_that_stay_stay_written();
        match self.list.release(site, &mut self.pool) {
            Ok(()) => Ok(self),
            Err(error) => Err(cause_of_log(error)),
        }
    }

    /// Gives the dead oldest files of the queue at a place by name back.
    fn release_queue<S: Site>(mut self, site: &mut S, at: usize) -> Result<Journals, Cause>
        requires place { at < length self.queues }
        requires fits { IfSome (S.told site.old) (OnDisk (Fits self)) }
        ensures same { IfOk result (λ x. AreSame self x) }
        ensures kept { IfOk result (λ x. AreJournals x) }
        ensures released { IfOk result (λ x. AreReleased (take at self.queues) → AreReleased (take (at + 1) x.queues)) }
        ensures gives { Tells (GivesBack self) (S.told site.old) (S.told site.new) }
        ensures done { IfOk result (λ x. Tells (HasGivenBack self x) (S.told site.old) (S.told site.new)) }
        ensures alive { IfOk result (λ x. Tells (NextComesAlive at self x) (S.told site.old) (S.told site.new)) }
        ensures writes { Tells (StaysWritten result (λ x. x) self) (S.told site.old) (S.told site.new) }
        ensures causes { SiteCauses (S.faults site.old) (S.faults site.new) result }
    {
        files_that_stay_stay_written();
        match self.queues[at].release(site, &mut self.pool) {
            Ok(()) => Ok(self),
            Err(error) => Err(cause_of_queue(error)),
        }
    }

    /// Gives the dead oldest files of each journal back to their pool: those of the prepared list, and then those of each
    /// queue by name; oldest first, by one relocation each, and nothing is written.
    ///
    /// Where told, the site is as the journals' last call left it. Only Failed and Memory are answered.
    pub fn release<S: Site>(self, site: &mut S) -> Result<Journals, Cause>
        requires fits { IfSome (S.told site.old) (OnDisk (Fits self)) }
        ensures queues { IfOk result (λ x. queues_of x ≡ queues_of self) }
        ensures entries { IfOk result (λ x. x.list.entries ≡ self.list.entries) }
        ensures rid { IfOk result (λ x. rid_of x.list ≡ rid_of self.list) }
        ensures kept { IfOk result AreJournals }
        ensures released { IfOk result (λ x. AreReleased x.queues) }
        ensures told { Tells (EndsIn (λ x. Changes self x) (Passes IsStoreStep) result) (S.told site.old) (S.told site.new) }
        ensures clean { IfOk result (λ x. Tells (λ a b. IsWhole self a.now.disk → IsClean x b.now.disk) (S.told site.old) (S.told site.new)) }
        ensures none { Tells TakesNone (S.told site.old) (S.told site.new) }
        ensures leaves { Tells (LeavesDead self) (S.told site.old) (S.told site.new) }
        ensures writes { Tells (StaysWritten result (λ x. x) self) (S.told site.old) (S.told site.new) }
        ensures homes { IfOk result (λ x. SameHomes (homes_of x) (homes_of self)) }
        ensures pools { (homes : Homes) → Tells (Passes (TakesFromHome homes)) (S.told site.old) (S.told site.new) }
        ensures still { IfOk result (λ x. Tells (λ a b. IsClean self a.now.disk → b ≡ a) (S.told site.old) (S.told site.new)) }
        ensures causes { SiteCauses (S.faults site.old) (S.faults site.new) result }
    {
        let mut journals = self.release_list(site)?;
        for at in 0..journals.queue_count() {
            journals = journals.release_queue(site, at)?;
        }
        Ok(journals)
    }
}
