// References to the resources of a shared pool, with ample memory.
use crate::pools::{Ends, ends_once};
use shared_pool::SharedPool;
use std::test::*;
use wc_base::{By, DomError, Who};
use wc_pool::{PoolEntry, PoolOp};

// Audio data is made by step 0 of caller 0, cloned by one entry of codec 0 and closed by step 3; its clone is ended by the next
// entry of the codec. Transfers make no entry.
const HISTORY: [PoolEntry; 4] = [
    PoolEntry {
        by: By::Caller(Who { caller: 0, step: 0 }),
        op: PoolOp::Make {
            resource: 0,
            reference: 0,
        },
    },
    PoolEntry {
        by: By::Codec { codec: 0, place: 1 },
        op: PoolOp::Clone {
            resource: 0,
            reference: 1,
        },
    },
    PoolEntry {
        by: By::Caller(Who { caller: 0, step: 3 }),
        op: PoolOp::End {
            resource: 0,
            reference: 0,
            last: false,
        },
    },
    PoolEntry {
        by: By::Codec { codec: 0, place: 2 },
        op: PoolOp::End {
            resource: 0,
            reference: 1,
            last: true,
        },
    },
];

#[test]
fn audio_data_over_a_shared_pool(rt: HostRuntime) -> Result<(), Fail> {
    for _ in 0..10 {
        let (pool, mut seat) = SharedPool::open(rt.alloc())?;
        let ends = ends_once(&rt, rt.alloc(), &pool, &mut seat);
        let wanted = Ends {
            moved: Some(DomError::DataClone),
            kept: true,
            gone: true,
            refused: Some(DomError::DataClone),
        };
        assert_eq!(rt; ends, Some(wanted));
        let pool = pool.finish(seat);
        assert_eq!(rt; pool.held(), 0);
        assert_eq!(rt; pool.entries(), HISTORY.as_slice());
    }
    Ok(())
}
