// Why a command may be refused, tested in the order in which refusals come.
ghost use Rattle.std.specs.Prelude.{◌≡◌, [], ◌∷◌, Some, option_copied};
ghost use Rattle.std.specs.Result.{result_err};
ghost use Rattle.qls_model.specs.Machine.{first_true, refusals, exists_queue, exists_xid, no_queue, no_xid, by_open, is_ready};
ghost use Rattle.qls_model.specs.Messages.{message_at};
ghost use Rattle.qls_model.specs.declared.machine.Command.TheVariants as command_of;

use crate::machine::{Command, Message, Phase, QueueState, Refusal, Status, XidState};
use crate::name::{Name, Xid};
use crate::tables::{find_queue, find_xid};

/// The greatest number of a message, 2^62 - 1.
const LAST_NUMBER: u64 = 4_611_686_018_427_387_903;

/// Ok exactly where the command is not refused, else the first refusal of the table.
pub fn admit(queues: &[QueueState], xids: &[XidState], command: &Command) -> Result<(), Refusal>
    ensures { result_err result ≡ first_true (refusals (record { queues = queues.now; xids = xids.now }) command.now) }
{
    match command {
        Command::Queue { name, .. } => admit_queue(queues, name),
        Command::Drop { name } => admit_drop(queues, name),
        Command::Put { name, xid, .. } => admit_put(queues, xids, name, xid),
        Command::Take { name, number, xid } => admit_take(queues, xids, name, *number, xid),
        Command::Begin { xid } => admit_begin(xids, xid),
        Command::Prepare { xid } => admit_open(xids, xid),
        Command::Commit { xid } | Command::Abort { xid } => admit_end(xids, xid),
        Command::List { name } => admit_list(queues, name),
        Command::Doubt => Ok(()),
    }
}

fn admit_queue(queues: &[QueueState], name: &Name) -> Result<(), Refusal>
    ensures { result_err result ≡ first_true (exists_queue (record { queues = queues.now; xids = [] }) name.now ∷ []) }
{
    match find_queue(queues, name) {
        Some(_) => Err(Refusal::Exists),
        None => Ok(()),
    }
}

fn admit_begin(xids: &[XidState], xid: &Xid) -> Result<(), Refusal>
    ensures { result_err result ≡ first_true (exists_xid (record { queues = []; xids = xids.now }) xid.now ∷ []) }
{
    match find_xid(xids, xid) {
        Some(_) => Err(Refusal::Exists),
        None => Ok(()),
    }
}

fn admit_list(queues: &[QueueState], name: &Name) -> Result<(), Refusal>
    ensures { result_err result ≡ first_true (no_queue (record { queues = queues.now; xids = [] }) name.now ∷ []) }
{
    match find_queue(queues, name) {
        Some(_) => Ok(()),
        None => Err(Refusal::Queue),
    }
}

fn admit_end(xids: &[XidState], xid: &Xid) -> Result<(), Refusal>
    ensures { result_err result ≡ first_true (no_xid (record { queues = []; xids = xids.now }) xid.now ∷ []) }
{
    match find_xid(xids, xid) {
        Some(_) => Ok(()),
        None => Err(Refusal::Xid),
    }
}

/// The xid has to be open.
fn admit_open(xids: &[XidState], xid: &Xid) -> Result<(), Refusal>
    ensures { result_err result ≡ first_true (by_open (record { queues = []; xids = xids.now }) (Some xid.now)) }
{
    match find_xid(xids, xid) {
        Some(entry) if entry.phase == Phase::Prepared => Err(Refusal::Phase),
        Some(_) => Ok(()),
        None => Err(Refusal::Xid),
    }
}

fn admit_xid(xids: &[XidState], xid: &Option<Xid>) -> Result<(), Refusal>
    ensures { result_err result ≡ first_true (by_open (record { queues = []; xids = xids.now }) xid.now) }
{
    match xid {
        Some(xid) => admit_open(xids, xid),
        None => Ok(()),
    }
}

fn admit_drop(queues: &[QueueState], name: &Name) -> Result<(), Refusal>
    ensures { result_err result ≡ first_true (refusals (record { queues = queues.now; xids = [] }) (command_of.Drop name.now)) }
{
    match find_queue(queues, name) {
        Some(queue) if queue.messages.len() > 0 => Err(Refusal::Busy),
        Some(_) => Ok(()),
        None => Err(Refusal::Queue),
    }
}

fn admit_put(
    queues: &[QueueState],
    xids: &[XidState],
    name: &Name,
    xid: &Option<Xid>,
) -> Result<(), Refusal>
    ensures { result_err result ≡ first_true (refusals (record { queues = queues.now; xids = xids.now }) (command_of.Put name.now [] xid.now)) }
{
    let queue = find_queue(queues, name).ok_or(Refusal::Queue)?;
    admit_xid(xids, xid)?;
    if queue.last == LAST_NUMBER {
        return Err(Refusal::Spent);
    }
    Ok(())
}

fn admit_take(
    queues: &[QueueState],
    xids: &[XidState],
    name: &Name,
    number: u64,
    xid: &Option<Xid>,
) -> Result<(), Refusal>
    ensures { result_err result ≡ first_true (refusals (record { queues = queues.now; xids = xids.now }) (command_of.Take name.now number xid.now)) }
{
    let from = find_queue(queues, name).ok_or(Refusal::Queue)?;
    admit_xid(xids, xid)?;
    let message = find_message(from.messages.as_slice(), number).ok_or(Refusal::Message)?;
    if !is_ready(&message.status) {
        return Err(Refusal::Locked);
    }
    Ok(())
}

fn find_message(messages: &[Message], number: u64) -> Option<&Message>
    ensures { option_copied result ≡ message_at messages.now number }
{
    messages.iter().find(|message| message.number == number)
}

fn is_ready(status: &Status) -> bool
    ensures { result ≡ is_ready status.now }
{
    match status {
        Status::Ready => true,
        Status::Coming(_) | Status::Going(_) => false,
    }
}
