// A store that is opened over its files.
ghost use Rattle.std.specs.Prelude.{◌≡◌, Err, IfErr, IfOk, IfSome, true};
ghost use Rattle.qls_model.specs.Limits.{is_kib, is_partition};
ghost use Rattle.qls_site.specs.Disk.{IdsRise, IsQuiet, full};
ghost use Rattle.qls_site.specs.Content.{Tells};
ghost use Rattle.qls_meaning.specs.Meaning.{meaning};
ghost use Rattle.qls_meaning.specs.Spent.{list_rid};
ghost use Rattle.qls_pool.specs.Files.{OnDisk};
ghost use Rattle.qls_pool.specs.Moments.{EndsIn, Passes};
ghost use Rattle.qls_pool.specs.Serials.{DrawsTaken};
ghost use Rattle.qls_journals.specs.Homes.{SameHomes, TakesFromHome, homes_on};
ghost use Rattle.qls_journals.specs.Moments.{IsStoreStep};
ghost use Rattle.qls_journals.specs.Opening.{OpensWritten};
ghost use Rattle.qls_store.specs.Homes.{homes_of};
ghost use Rattle.qls_store.specs.Opened.{Begins, fault_by};
ghost use Rattle.qls_store.specs.Opening.{LooksIfDamaged, OpensAs, OpensLeaving, OpensStore, OpeningCauses, OpeningStops, StaysIfSettled, is_exact_opening};
ghost use Rattle.qls_store.specs.Stores.{IsStore, home_of, rid_of};

use crate::doubts::in_doubt;
use crate::settling::settle_and_release;
use crate::store::Store;
use qls_journals::{Cause, Journals, read_all};
use qls_look::OpenFault;
use qls_model::PoolId;
use qls_pool::Pool;
use qls_scan::scan;
use qls_site::{Serials, Site};
use std::alloc::Global;

impl Store {
    /// Opens the store of a site: it holds the state that its files mean. `home` is the pool of the prepared list where it
    /// has no file yet, and of queues whose command names none; it is within the limits.
    ///
    /// The site is listed and all headers are read; all journals are read, in their order, and where a damage rule fails
    /// the opening ends there with the first that does, and nothing was written. Then, in each journal, the files past its
    /// reading go back to their pool, newest first. What is pending in the queues and not in doubt ends, queue by queue in
    /// the order of their names, in one batch each, which is synced; the entries of the prepared list that are decided or
    /// of one phase end in one batch; and in each journal the oldest files that are dead go back. A journal is never
    /// continued in a file that was there: its next batch takes a file of the next epoch. Where nothing is to be done
    /// nothing is written.
    ///
    /// Where told, nothing is pending. Failed and Draw come only where that count of faults rose, Spent where a batch of
    /// ends needs a further file and its number, its epoch or its id would be 2^62.
    pub fn open<S: Site, N: Serials>(
        alloc: Global,
        site: &mut S,
        serials: &mut N,
        home: PoolId,
    ) -> Result<Store, OpenFault>
        requires home { (is_partition home.part ≡ true) × (is_kib home.kib ≡ true) }
        requires quiet { IfSome (S.told site.old) (OnDisk IsQuiet) }
        ensures meaning { IfSome (S.told site.old) (OnDisk (λ d. OpensAs (meaning (full d)) result)) }
        ensures rising { IfSome (S.told site.old) (λ c. IdsRise (full c.now.disk)) }
        ensures looks { Tells LooksIfDamaged (S.told site.old) (S.told site.new) }
        ensures home { IfOk result (λ s. home_of s ≡ home) }
        ensures store { IfOk result IsStore }
        ensures rid { IfOk result (λ s. IfSome (S.told site.old) (OnDisk (λ d. rid_of s ≡ list_rid d))) }
        ensures homes { IfOk result (λ s. IfSome (S.told site.old) (OnDisk (λ d. SameHomes (homes_of s) (homes_on home d)))) }
        ensures told { Tells (EndsIn OpensStore (Passes IsStoreStep) result) (S.told site.old) (S.told site.new) }
        ensures pools { Tells (λ a b. Passes (TakesFromHome (homes_on home a.now.disk)) a b) (S.told site.old) (S.told site.new) }
        ensures leaves { Tells OpensLeaving (S.told site.old) (S.told site.new) }
        ensures writes { Tells (OpensWritten result (λ s. s.journals)) (S.told site.old) (S.told site.new) }
        ensures drawn { DrawsTaken (is_exact_opening result) (S.told site.old) (S.told site.new) (N.drawn serials.old) (N.drawn serials.new) }
        ensures still { IfOk result (λ _. Tells StaysIfSettled (S.told site.old) (S.told site.new)) }
        ensures spent { result ≡ Err OpenFault.Spent → Tells (OpeningStops home) (S.told site.old) (S.told site.new) }
        ensures causes { OpeningCauses (S.faults site.old) (S.faults site.new) (N.faults serials.old) (N.faults serials.new) result }
    {
        let opened = open_journals(alloc, site, home)?;
        let journals = match settle_and_release(alloc, opened, site, serials) {
            Ok(journals) => journals,
            Err(cause) => return Err(fault_of(cause)),
        };
        let transactions = in_doubt(alloc, &journals)?;
        Ok(Store {
            alloc,
            journals,
            transactions,
        })
    }
}

/// The open journals of a site, as its files have them: all are read before the first file goes back.
fn open_journals<S: Site>(alloc: Global, site: &mut S, home: PoolId) -> Result<Journals, OpenFault>
    requires home { (is_partition home.part ≡ true) × (is_kib home.kib ≡ true) }
    requires quiet { IfSome (S.told site.old) (OnDisk IsQuiet) }
    ensures begins { Begins home result (S.told site.old) (S.told site.new) (S.faults site.old) (S.faults site.new) }
{
    let found = scan(alloc, site)?;
    let readings = read_all(alloc, site, found.journals)?;
    let pool = Pool::open(alloc, found.greatest, &found.empties)?;
    match Journals::open(alloc, site, home, pool, readings) {
        Ok(journals) => Ok(journals),
        Err(cause) => Err(fault_of(cause)),
    }
}

/// The fault of an opening that what ends the journals is.
fn fault_of(cause: Cause) -> OpenFault
    ensures exact { result ≡ fault_by cause }
{
    match cause {
        Cause::Failed => OpenFault::Failed,
        Cause::Draw => OpenFault::Draw,
        Cause::Spent => OpenFault::Spent,
        Cause::Memory => OpenFault::Memory,
    }
}
