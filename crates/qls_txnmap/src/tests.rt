// A table with three transactions, of which one ends.
use crate::{Op, TxnMap};
use qls_model::Xid;
use std::test::Fail;

#[test]
fn transactions(rt: HostRuntime) -> Result<(), Fail> {
    let alloc = rt.alloc();
    let one = Xid::new(b"one").ok_or("length")?;
    let two = Xid::new(b"two").ok_or("length")?;
    let first = Xid::new(b"a").ok_or("length")?;
    let mut table = TxnMap::new(alloc);
    assert!(rt; table.finish(&one).is_none());
    for (xid, op) in [
        (two, Op::Put(1)),
        (one, Op::Put(2)),
        (two, Op::Take(7)),
        (first, Op::Take(3)),
        (two, Op::Put(4)),
    ] {
        table.add(xid, op)?;
    }
    let pending = table.pending()?;
    assert_eq!(rt; pending.len(), 3);
    for (xid, wanted) in pending.as_slice().iter().zip([first, one, two]) {
        assert_eq!(rt; xid.as_slice(), wanted.as_slice());
    }
    let ops = table.finish(&two).ok_or("none")?;
    let wanted = [Op::Put(1), Op::Take(7), Op::Put(4)];
    assert_eq!(rt; ops.as_slice(), wanted.as_slice());
    assert!(rt; table.finish(&two).is_none());
    assert_eq!(rt; table.pending()?.len(), 2);
    let ops = table.finish(&first).ok_or("none")?;
    assert_eq!(rt; ops.as_slice(), [Op::Take(3)].as_slice());
    Ok(())
}
