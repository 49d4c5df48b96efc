// The state that a store hands out, beside that of the plain machine after the same commands.
ghost use Rattle.std.specs.Prelude.{◌≡◌, [], IfOk, IfSome};
ghost use Rattle.qls_command.specs.Within.{IsWithin};
ghost use Rattle.qls_pool.specs.Files.{IsWholePool, OnDisk};
ghost use Rattle.qls_store.specs.Stores.{Fits};

use crate::{Stepped, Store};
use qls_command::{Parsed, parse_line, state_text};
use qls_memsite::{MemSerials, MemSite};
use qls_model::{Command, Phase, PoolId, State, step};
use qls_pool::Pool;
use qls_site::{Serials, Site};
use std::alloc::Global;
use std::process::Abort;
use std::test::Fail;

/// The pool of partition 1 whose files have 8 KiB of data, two blocks.
pub(crate) const HOME: PoolId = PoolId { part: 1, kib: 8 };

/// The pools of a site without files.
fn open_pools<S: Site>(alloc: Global, site: &mut S) -> Result<Pool, Fail>
    requires empty { IfSome (S.told site.old) (OnDisk (λ d. d ≡ [])) }
    ensures pool { IfOk result (λ pool. IfSome (S.told site.new) (OnDisk (IsWholePool pool))) }
    ensures empty { IfOk result (λ _. IfSome (S.told site.new) (OnDisk (λ d. d ≡ []))) }
{
    let files = site.list(alloc)?;
    let pool = Pool::open(alloc, 0, &files)?;
    Ok(pool)
}

/// A store without a queue, on a site without files.
fn open<S: Site>(alloc: Global, site: &mut S) -> Result<Store, Fail>
    requires empty { IfSome (S.told site.old) (OnDisk (λ d. d ≡ [])) }
    ensures fits { IfOk result (λ store. IfSome (S.told site.new) (OnDisk (Fits store))) }
{
    let pool = open_pools(alloc, site)?;
    Ok(Store::new(alloc, HOME, pool))
}

/// The command of a line.
fn command(alloc: Global, line: &str) -> Result<Option<Command>, Fail>
    ensures within { IfOk result (λ found. IfSome found IsWithin) }
{
    match parse_line(alloc, line.as_bytes())? {
        Parsed::Good(command) => Ok(Some(command)),
        Parsed::Bad => Ok(None),
    }
}

/// Runs a command that doesn't end the store.
fn run_one<S: Site, N: Serials>(
    alloc: Global,
    store: Store,
    site: &mut S,
    serials: &mut N,
    line: &str,
) -> Result<Store, Fail>
    requires fits { IfSome (S.told site.old) (OnDisk (Fits store)) }
    ensures fits { IfOk result (λ store. IfSome (S.told site.new) (OnDisk (Fits store))) }
{
    let command = command(alloc, line)?.ok_or("a command")?;
    match store.step(site, serials, command) {
        Stepped::Live(store, _) => Ok(store),
        Stepped::Ended(_) => Err(Fail::from("a store that ended")),
    }
}

/// Runs the commands.
pub(crate) fn run<S: Site, N: Serials>(
    alloc: Global,
    store: Store,
    site: &mut S,
    serials: &mut N,
    lines: &[&str],
) -> Result<Store, Fail>
    requires fits { IfSome (S.told site.old) (OnDisk (Fits store)) }
    ensures fits { IfOk result (λ store. IfSome (S.told site.new) (OnDisk (Fits store))) }
{
    let mut open = store;
    for line in lines {
        open = run_one(alloc, open, site, serials, line)?;
    }
    Ok(open)
}

/// The plain machine's state after the commands.
fn machine_after(alloc: Global, lines: &[&str]) -> Result<State, Fail> {
    let mut machine = State::empty(alloc);
    for line in lines {
        let command = command(alloc, line)?.ok_or("a command")?;
        step(&mut machine, &command)?;
    }
    Ok(machine)
}

/// Two queues, a transaction that is open and one that is prepared, each of which has put and taken.
pub(crate) const LINES: [&str; 12] = [
    "queue b",
    "queue a",
    "put a 01",
    "put a 02",
    "begin 0202",
    "put b 03 in 0202",
    "take a 1 in 0202",
    "begin 01",
    "put a 04 in 01",
    "take b 1",
    "prepare 01",
    "put b -",
];

/// What the state is then.
const TEXT: &str = "\
queues 2
queue a last 3 messages 3
1 going 0202 01
2 ready 02
3 coming 01 04
queue b last 2 messages 2
1 coming 0202 03
2 ready -
doubt 1
01
";

/// The state has the text, and the transactions of which one is open.
fn check(rt: &impl Abort, alloc: Global, state: &State) -> Result<(), Fail> {
    let text = state_text(alloc, state)?;
    assert_eq!(rt; text.as_slice(), TEXT.as_bytes());
    let wanted: [(&[u8], Phase); 2] = [(&[1], Phase::Prepared), (&[2, 2], Phase::Open)];
    assert_eq!(rt; state.xid_count(), wanted.len());
    for (at, (xid, phase)) in wanted.iter().enumerate() {
        let (found, stands) = state.xid_at(at).ok_or("a transaction")?;
        assert_eq!(rt; found.as_slice(), *xid);
        assert_eq!(rt; stands, *phase);
    }
    Ok(())
}

/// The store's state, and the plain machine's.
fn each_state<S: Site, N: Serials>(
    rt: &impl Abort,
    alloc: Global,
    site: &mut S,
    serials: &mut N,
) -> Result<(), Fail>
    requires empty { IfSome (S.told site.old) (OnDisk (λ d. d ≡ [])) }
{
    let store = open(alloc, site)?;
    let mut store = run(alloc, store, site, serials, &LINES)?;
    check(rt, alloc, &store.state(site)?)?;
    check(rt, alloc, &machine_after(alloc, &LINES)?)
}

#[test]
fn state_is_the_machines(rt: HostRuntime) -> Result<(), Fail> {
    let alloc = rt.alloc();
    let mut site = MemSite::new(alloc);
    let mut serials = MemSerials::counting(7);
    each_state(&rt, alloc, &mut site, &mut serials)
}
