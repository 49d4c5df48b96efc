// What the records of a journal have told so far.
ghost use Rattle.std.specs.Prelude.{◌≡◌, Err};
ghost use Rattle.qls_reading.specs.declared.fault.LogFault.TheVariants.{Failed};
ghost use Rattle.qls_reading.specs.Tested.{Adds};

use crate::fault::LogFault;
use crate::rules::keeps_order;
use qls_filehdr::Rule;
use qls_model::{NoMemory, Seq};
use qls_record::{Got, Kind};

// The records but the fillers, the rid in force behind them all, and how many fillers there were.
#[derive(Drop)]
pub struct Tally {
    pub reads: Seq<Got>,
    pub rid: u64,
    pub fillers: u64,
}

// Takes a record that starts in the file of this id, or says that its rid breaks the order.
pub fn add(tally: &mut Tally, got: Got, file: u64) -> Result<(), LogFault>
    ensures adds { Adds tally.old tally.new got file result }
    ensures unfailed { result ≡ Err Failed → ⊥ }
{
    if !keeps_order(tally.rid, &got.head) {
        return Err(LogFault::Damaged {
            file,
            rule: Rule::Order,
        });
    }
    tally.rid = got.head.rid;
    if got.head.kind == Kind::Filler {
        tally.fillers = tally.fillers.checked_add(1).ok_or(NoMemory)?;
    } else {
        tally.reads.push(got)?;
    }
    Ok(())
}
