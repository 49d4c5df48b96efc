// A look at a store.
ghost use Rattle.std.specs.Prelude.{◌≡◌, IfSome};
ghost use Rattle.qls_site.specs.Disk.{IdsRise, full};
ghost use Rattle.qls_site.specs.Content.{Tells, OnlyLooks};
ghost use Rattle.qls_meaning.specs.Meaning.{meaning};
ghost use Rattle.qls_look.specs.Looking.{Says, NeverTakes, LookCauses};

use crate::fault::OpenFault;
use crate::seen::see_all;
use qls_model::State;
use qls_scan::scan;
use qls_site::Site;
use std::alloc::Global;

/// The state that a store means: each queue with its last number and its messages, the transactions of the queues ended as
/// the prepared list says, and those in doubt.
///
/// It is Damaged exactly where a damage rule fails, with the first that fails and the id of its file. It writes nothing.
/// Failed comes only where the site's count of faults rose. The site is listed once, and each record is read once.
pub fn look<S: Site>(alloc: Global, site: &mut S) -> Result<State, OpenFault>
    ensures meaning { IfSome (S.told site.old) (λ c. Says (meaning (full c.now.disk)) result) }
    ensures rising { IfSome (S.told site.old) (λ c. IdsRise (full c.now.disk)) }
    ensures only { NeverTakes result }
    ensures told { Tells OnlyLooks (S.told site.old) (S.told site.new) }
    ensures cause { LookCauses (S.faults site.old) (S.faults site.new) result }
    ensures syncs { S.syncs site.new ≡ S.syncs site.old }
{
    let found = scan(alloc, site)?;
    see_all(alloc, site, found.journals)
}
