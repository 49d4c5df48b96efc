// Files of a queue that nothing holds any more.
ghost use Rattle.std.specs.Prelude.{◌≡◌, ◌⊎◌, ◌<◌, ◌^◌, [], Ok, Err, IfOk, IfErr, IfSome, false, length};
ghost use Rattle.qls_site.specs.Content.{Tells};
ghost use Rattle.qls_site.specs.Disk.{IsQuiet};
ghost use Rattle.qls_enqmap.specs.Records.{least_file};
ghost use Rattle.qls_pool.specs.Files.{IsPoolOf, IsWholePool, OnDisk, Carries};
ghost use Rattle.qls_pool.specs.Serials.{TakesNone};
ghost use Rattle.qls_log.specs.Appending.{LeavesOthers};
ghost use Rattle.qls_log.specs.Returning.{GivesAll};
ghost use Rattle.qls_log.specs.Logs.{IsSound as IsSoundLog};
ghost use Rattle.qls_log.specs.Standing.{files_on};
ghost use Rattle.qls_log.specs.Steps.{IsLogStep};
ghost use Rattle.qls_log.specs.Unwritten.{WritesWell};
ghost use Rattle.qls_queue.specs.Faults.{is_end, SiteCauses};
ghost use Rattle.qls_queue.specs.Live.{QueueThere, IsSound};
ghost use Rattle.qls_queue.specs.Moments.{GoesBy, LeavesDead, StaysWritten};
ghost use Rattle.qls_queue.specs.Releasing.{dead_files, after_release, file_or, GivesDead, IsQueueWhole, IsQueueClean, StaysStill};

use crate::fault::QueueError;
use crate::live::LiveQueue;
use qls_enqmap::EnqMap;
use qls_pool::Pool;
use qls_site::Site;

/// The least file in which a record starts, and the newest where there is none.
fn first_needed(held: &EnqMap, newest: u64) -> u64
    ensures exact { result ≡ file_or newest (least_file held.now) }
{
    held.first_file().unwrap_or(newest)
}

impl LiveQueue {
    /// Gives the oldest files that no message holds any more back to their pool, oldest first, and never the newest: one
    /// relocation each, and nothing is written. Where none died it takes the same time whatever the queue holds. The
    /// queue stays, and so does what its journal says.
    ///
    /// The queue isn't ended; where told, the site has its journal as its last call left it, and the pool is the site's,
    /// with no file out. Only Failed and Memory are answered; then the queue is ended.
    pub fn release<S: Site>(&mut self, site: &mut S, pool: &mut Pool) -> Result<(), QueueError>
        requires unended { self.old.ended ≡ false }
        requires there { IfSome (S.told site.old) (OnDisk (QueueThere self.old)) }
        requires pool { IfSome (S.told site.old) (OnDisk (IsPoolOf pool.old [])) }
        ensures ended { self.new.ended ≡ is_end result }
        ensures only { IfErr result (λ e. (e ≡ QueueError.Failed) ⊎ (e ≡ QueueError.Memory)) }
        ensures queue { IfOk result (λ _. self.new ≡ after_release self.old) }
        ensures sound { IfOk result (λ _. IsSound self.new) }
        ensures log { IfOk result (λ _. IsSoundLog self.new.log) }
        ensures one { IfOk result (λ _. self.new.queue.messages ≡ [] → length self.new.log.files ≡ 1) }
        ensures told { Tells (GivesDead self.old result) (S.told site.old) (S.told site.new) }
        ensures there { IfOk result (λ _. IfSome (S.told site.new) (OnDisk (QueueThere self.new))) }
        ensures pool { IfOk result (λ _. IfSome (S.told site.new) (OnDisk (IsWholePool pool.new))) }
        ensures limit { pool.old.greatest < 2 ^ 62 → pool.new.greatest < 2 ^ 62 }
        ensures clean { IfOk result (λ _. Carries (IsQueueWhole self.old) (IsQueueClean self.new) (S.told site.old) (S.told site.new)) }
        ensures still { IfOk result (λ _. Tells (StaysStill self.old) (S.told site.old) (S.told site.new)) }
        ensures others { IfOk result (λ _. Tells (LeavesOthers (dead_files self.old)) (S.told site.old) (S.told site.new)) }
        ensures quiet { IfOk result (λ _. Carries IsQuiet IsQuiet (S.told site.old) (S.told site.new)) }
        ensures went { Tells (GoesBy (IsLogStep self.old.log.opening) result) (S.told site.old) (S.told site.new) }
        ensures leaves { Tells (LeavesDead self.old) (S.told site.old) (S.told site.new) }
        ensures writes { Tells (StaysWritten result self.old self.new) (S.told site.old) (S.told site.new) }
        ensures none { Tells TakesNone (S.told site.old) (S.told site.new) }
        ensures cause { SiteCauses (S.faults site.old) (S.faults site.new) result }
        ensures syncs { S.syncs site.new ≡ S.syncs site.old }
        ensures reads { S.reads site.new ≡ S.reads site.old }
    {
        let number = first_needed(self.tables.held(), self.log.newest());
        self.ended = true;
        self.log.release_before(site, pool, number)?;
        self.ended = false;
        Ok(())
    }

    /// Gives the only file of a queue without messages back to its pool: one relocation, and nothing is written. The
    /// queue's journal has no file then.
    ///
    /// The queue isn't ended, and has no message and one file, as every call that writes leaves a queue without messages;
    /// where told, the site has its journal as its last call left it, and the pool is the site's, with no file out. Only
    /// Failed and Memory are answered; after Failed the file is in use or in its pool.
    pub fn drop_empty<S: Site>(self, site: &mut S, pool: &mut Pool) -> Result<(), QueueError>
        requires unended { self.ended ≡ false }
        requires empty { self.queue.messages ≡ [] }
        requires one { length self.log.files ≡ 1 }
        requires there { IfSome (S.told site.old) (OnDisk (QueueThere self)) }
        requires pool { IfSome (S.told site.old) (OnDisk (IsPoolOf pool.old [])) }
        ensures only { IfErr result (λ e. (e ≡ QueueError.Failed) ⊎ (e ≡ QueueError.Memory)) }
        ensures told { IfOk result (λ _. Tells (GivesAll self.log.files (Ok (tt {0}))) (S.told site.old) (S.told site.new)) }
        ensures gone { IfOk result (λ _. IfSome (S.told site.new) (OnDisk (λ d. files_on self.log.opening d ≡ []))) }
        ensures pool { IfOk result (λ _. IfSome (S.told site.new) (OnDisk (IsWholePool pool.new))) }
        ensures others { IfOk result (λ _. Tells (LeavesOthers self.log.files) (S.told site.old) (S.told site.new)) }
        ensures quiet { IfOk result (λ _. Carries IsQuiet IsQuiet (S.told site.old) (S.told site.new)) }
        ensures went { Tells (GoesBy (IsLogStep self.log.opening) result) (S.told site.old) (S.told site.new) }
        ensures leaves { Tells (LeavesDead self) (S.told site.old) (S.told site.new) }
        ensures writes { Tells WritesWell (S.told site.old) (S.told site.new) }
        ensures none { Tells TakesNone (S.told site.old) (S.told site.new) }
        ensures cause { SiteCauses (S.faults site.old) (S.faults site.new) result }
        ensures syncs { S.syncs site.new ≡ S.syncs site.old }
        ensures reads { S.reads site.new ≡ S.reads site.old }
    {
        let LiveQueue { log, .. } = self;
        log.remove(site, pool)?;
        Ok(())
    }
}
