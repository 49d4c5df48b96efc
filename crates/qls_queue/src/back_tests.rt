// A queue whose files hold one record each: which files go back to their pool, and when.
ghost use Rattle.std.specs.Prelude.{◌≡◌, [], false, IfOk, IfSome};
ghost use Rattle.qls_pool.specs.Files.{IsPoolOf, IsWholePool, OnDisk};
ghost use Rattle.qls_queue.specs.Live.{QueueThere};

use crate::tests::{now, open_pools, run};
use crate::{LiveQueue, QueueError};
use qls_memsite::{CallKind, MemSerials, MemSite};
use qls_model::{Bytes, Name, PoolId};
use qls_pool::Pool;
use qls_site::{Place, Serials, Site};
use std::alloc::Global;
use std::test::Fail;

/// The pool of partition 1 whose files have 4 KiB of data, one block.
const TINY: PoolId = PoolId { part: 1, kib: 4 };

/// The queue `a`, on a site without files.
fn make<S: Site, N: Serials>(
    alloc: Global,
    site: &mut S,
    pool: &mut Pool,
    serials: &mut N,
) -> Result<LiveQueue, QueueError>
    requires pool { IfSome (S.told site.old) (OnDisk (IsWholePool pool.old)) }
    requires empty { IfSome (S.told site.old) (OnDisk (λ d. d ≡ [])) }
    ensures open { IfOk result (λ q. q.ended ≡ false) }
    ensures there { IfOk result (λ q. IfSome (S.told site.new) (OnDisk (QueueThere q))) }
    ensures pool { IfOk result (λ _. IfSome (S.told site.new) (OnDisk (IsPoolOf pool.new []))) }
{
    let name = Name::new(b"a").ok_or(QueueError::Memory)?;
    LiveQueue::create(alloc, site, pool, serials, name, TINY)
}

/// What these commands answer on a new queue, on a site without files.
fn answers<S: Site, N: Serials>(
    alloc: Global,
    site: &mut S,
    serials: &mut N,
    text: &str,
) -> Result<Vec<u8>, Fail>
    requires empty { IfSome (S.told site.old) (OnDisk (λ d. d ≡ [])) }
{
    let mut pool = open_pools(alloc, site)?;
    let mut queue = make(alloc, site, &mut pool, serials)?;
    let answers = run(alloc, &mut queue, site, &mut pool, serials, text)?;
    Ok(answers)
}

/// Where each file is, by id: a `u` for in use, an `e` for in its pool.
fn places(alloc: Global, site: &MemSite) -> Result<Vec<u8>, Fail> {
    let mut letters = Vec::new(alloc);
    for file in now(alloc, site)?.as_slice() {
        let letter = match file.place {
            Place::InUse => b'u',
            Place::Empty { .. } => b'e',
        };
        letters.push(letter)?;
    }
    Ok(letters)
}

#[test]
fn dead_files_go_back(rt: HostRuntime) -> Result<(), Fail> {
    let alloc = rt.alloc();
    for (text, wanted, left) in [
        ("p1- p2-", "12", "uu"),
        ("p1- p2- t2-", "120", "uuu"),
        ("p1- p2- t1-", "120", "euu"),
        ("p1- p2- p3- t3- t2- t1-", "123000", "eeeeeu"),
        ("p1x p2- t2- c-x", "1200", "uuuu"),
        ("p1x p2- t2- a-x", "1200", "eeeu"),
        ("p1- t1- p2-", "102", "ue"),
    ] {
        let mut site = MemSite::new(alloc);
        let mut serials = MemSerials::counting(7);
        let found = answers(alloc, &mut site, &mut serials, text)?;
        assert_eq!(rt; found.as_slice(), wanted.as_bytes(), "{text}");
        let found = places(alloc, &site)?;
        assert_eq!(rt; found.as_slice(), left.as_bytes(), "{text}");
    }
    Ok(())
}

#[test]
fn file_that_cannot_go_back_ends_the_queue(rt: HostRuntime) -> Result<(), Fail> {
    let alloc = rt.alloc();
    for (text, relocation, wanted) in [
        ("p1- p2- t1- p3-", 4, "12f"),
        ("p1- p2- t2- t1- p3-", 6, "120f"),
    ] {
        let mut site = MemSite::new(alloc);
        site.fail_call(CallKind::Relocate, relocation)?;
        let mut serials = MemSerials::counting(7);
        let found = answers(alloc, &mut site, &mut serials, text)?;
        assert_eq!(rt; found.as_slice(), wanted.as_bytes(), "{text}");
    }
    Ok(())
}

/// A queue has one message, which is taken, and is then dropped.
fn drops<S: Site, N: Serials>(alloc: Global, site: &mut S, serials: &mut N) -> Result<(), Fail>
    requires empty { IfSome (S.told site.old) (OnDisk (λ d. d ≡ [])) }
{
    let mut pool = open_pools(alloc, site)?;
    let mut queue = make(alloc, site, &mut pool, serials)?;
    let body = Bytes::new(alloc, b"1")?;
    let number = queue.put(site, &mut pool, serials, body, None)?;
    queue.take(site, &mut pool, serials, number, None)?;
    if queue.message_at(0).is_some() {
        return Err("a message".into());
    }
    queue.drop_empty(site, &mut pool)?;
    Ok(())
}

#[test]
fn dropped_queue_gives_its_last_file_back(rt: HostRuntime) -> Result<(), Fail> {
    let alloc = rt.alloc();
    let mut site = MemSite::new(alloc);
    let mut serials = MemSerials::counting(7);
    drops(alloc, &mut site, &mut serials)?;
    assert_eq!(rt; places(alloc, &site)?.as_slice(), b"ee".as_slice());
    Ok(())
}
