// Ten thousand records, taken in three orders, beside a plain list; and each call once.
ghost use Rattle.std.specs.Prelude.{◌≡◌, IfOk};

use crate::{EnqFault, EnqMap, Held};
use qls_model::{Bytes, NoMemory, Status, Xid};
use std::alloc::Global;
use std::process::Abort;
use std::test::Fail;

fn record(alloc: Global, rid: u64) -> Result<Held, NoMemory>
    ensures rid { IfOk result (λ h. h.rid ≡ rid) }
{
    Ok(Held {
        rid,
        status: Status::Ready,
        body: Bytes::new(alloc, &[])?,
        file: rid / 100,
        end_file: rid / 100,
    })
}

// A map of the records of these ids, and the list of the ids.
struct Both {
    map: EnqMap,
    list: Vec<u64>,
}

fn filled(alloc: Global, records: u64) -> Result<Both, NoMemory> {
    let mut map = EnqMap::new(alloc);
    let mut list = Vec::new(alloc);
    for rid in 0..records {
        map.insert(record(alloc, rid)?)?;
        list.push(rid)?;
    }
    Ok(Both { map, list })
}

fn compare(rt: &impl Abort, map: &EnqMap, list: &[u64]) {
    for (place, rid) in list.iter().enumerate() {
        let found = map.at(place).map(|held| held.rid);
        assert_eq!(rt; found, Some(*rid));
        assert!(rt; map.get(*rid).is_some());
    }
    assert!(rt; map.at(list.len()).is_none());
    assert_eq!(rt; map.first_file(), list.first().map(|rid| *rid / 100));
}

#[derive(Clone, Copy)]
enum Order {
    Front,
    Back,
    Scattered,
}

fn place(order: Order, step: u64, len: usize) -> usize {
    match order {
        Order::Front => 0,
        Order::Back => len.saturating_sub(1),
        Order::Scattered => (step as usize).wrapping_mul(7919) % len.max(1),
    }
}

fn take_all(rt: &impl Abort, alloc: Global, order: Order) -> Result<(), Fail> {
    let Both { mut map, mut list } = filled(alloc, 10_000)?;
    for step in 0..10_000 {
        if step % 1000 == 0 {
            compare(rt, &map, &list);
        }
        let place = place(order, step, list.len());
        if place < list.len() {
            let rid = list.remove(place);
            assert_eq!(rt; map.remove(rid)?.rid, rid);
            assert!(rt; map.get(rid).is_none());
        }
    }
    compare(rt, &map, &[]);
    Ok(())
}

#[test]
fn from_the_front(rt: HostRuntime) -> Result<(), Fail> {
    take_all(&rt, rt.alloc(), Order::Front)
}

#[test]
fn from_the_back(rt: HostRuntime) -> Result<(), Fail> {
    take_all(&rt, rt.alloc(), Order::Back)
}

#[test]
fn in_scattered_order(rt: HostRuntime) -> Result<(), Fail> {
    take_all(&rt, rt.alloc(), Order::Scattered)
}

#[test]
fn each_call(rt: HostRuntime) -> Result<(), Fail> {
    let alloc = rt.alloc();
    let x = Xid::new(b"x").ok_or("length")?;
    let Both { mut map, list: _ } = filled(alloc, 3)?;
    assert_eq!(rt; map.lock(9, x), Err(EnqFault::Unknown));
    assert_eq!(rt; map.unlock(9), Err(EnqFault::Unknown));
    assert_eq!(rt; map.remove(9).map(|held| held.rid), Err(EnqFault::Unknown));
    assert_eq!(rt; map.lock(1, x), Ok(()));
    assert_eq!(rt; map.lock(1, x), Err(EnqFault::Locked));
    assert_eq!(rt; map.unlock(1), Ok(()));
    assert_eq!(rt; map.lock(1, x), Ok(()));
    assert_eq!(rt; map.remove(1).map(|held| held.rid), Ok(1));
    assert_eq!(rt; map.at(1).map(|held| held.rid), Some(2));
    assert_eq!(rt; map.first_file(), Some(0));
    Ok(())
}

#[test]
fn files_that_fall(rt: HostRuntime) -> Result<(), Fail> {
    let alloc = rt.alloc();
    let mut map = EnqMap::new(alloc);
    assert_eq!(rt; map.first_file(), None);
    map.insert(record(alloc, 999)?)?;
    let mut last = record(alloc, 1000)?;
    last.file = 7;
    map.insert(last)?;
    assert_eq!(rt; map.first_file(), Some(7));
    assert_eq!(rt; map.remove(1000)?.file, 7);
    assert_eq!(rt; map.first_file(), Some(9));
    Ok(())
}
