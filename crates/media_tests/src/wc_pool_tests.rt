// References with ample memory.
use bytes::Bytes;
use std::test::Fail;
use wc_base::{By, Who};
use wc_pool::{Pool, PoolEntry, PoolOp, RefPool};

fn by(step: u32) -> By {
    By::Caller(Who { caller: 0, step })
}

fn entry(step: u32, op: PoolOp) -> PoolEntry {
    PoolEntry { by: by(step), op }
}

#[test]
fn the_last_end_gives_the_bytes_back(rt: HostRuntime) -> Result<(), Fail> {
    let alloc = rt.alloc();
    let mut pool = Pool::open(alloc);
    let mut first = pool.make(by(0), Bytes::from_vec(vec![in alloc; 1, 2, 3]?)?)?;
    let second = pool.clone_ref(by(1), &mut first)?;
    assert_eq!(rt; (second.resource(), second.number()), (0, 1));
    assert_eq!(rt; second.bytes().as_slice(), [1, 2, 3].as_slice());
    assert_eq!(rt; pool.held(), 1);
    assert!(rt; pool.end(by(2), first).is_none());
    match pool.end(by(3), second) {
        Some(bytes) => assert_eq!(rt; bytes.as_slice(), [1, 2, 3].as_slice()),
        None => assert!(rt; false),
    }
    assert_eq!(rt; pool.held(), 0);
    let wanted = [
        entry(
            0,
            PoolOp::Make {
                resource: 0,
                reference: 0,
            },
        ),
        entry(
            1,
            PoolOp::Clone {
                resource: 0,
                reference: 1,
            },
        ),
        entry(
            2,
            PoolOp::End {
                resource: 0,
                reference: 0,
                last: false,
            },
        ),
        entry(
            3,
            PoolOp::End {
                resource: 0,
                reference: 1,
                last: true,
            },
        ),
    ];
    assert!(rt; pool.entries() == wanted.as_slice());
    Ok(())
}

#[test]
fn resources_are_numbered_in_order(rt: HostRuntime) -> Result<(), Fail> {
    let alloc = rt.alloc();
    let mut pool = Pool::open(alloc);
    let first = pool.make(by(0), Bytes::from_vec(vec![in alloc; 1]?)?)?;
    let second = pool.make(by(1), Bytes::from_vec(vec![in alloc; 2]?)?)?;
    assert!(rt; pool.end(by(2), first).is_some());
    let third = pool.make(by(3), Bytes::from_vec(vec![in alloc; 3]?)?)?;
    assert_eq!(rt; (second.resource(), second.number()), (1, 1));
    assert_eq!(rt; (third.resource(), third.number()), (2, 2));
    assert_eq!(rt; pool.held(), 2);
    assert_eq!(rt; pool.into_entries().len(), 4);
    Ok(())
}
