// Four threads on two codecs with one pool and one registry, with ample memory.
use crate::counts::count_four;
use std::test::*;

#[test]
fn four_threads_two_hundred_times(rt: HostRuntime) -> Result<(), Fail> {
    let mut mixed: u64 = 0;
    for _ in 0..200 {
        let counts = count_four(&rt, rt.alloc(), 8)?;
        assert!(rt; counts.made > 4 && counts.out > 0);
        assert_eq!(rt;
            (counts.ended, counts.held, counts.back),
            (counts.made, 0, counts.out)
        );
        if counts.first_changes > 6 && counts.second_changes > 6 {
            mixed = mixed.saturating_add(1);
        }
    }
    assert!(rt; mixed >= 20);
    Ok(())
}
