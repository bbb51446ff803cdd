// Flushes of a shared codec, with ample memory.
use crate::flushes::{count_flushes, flush_alone};
use crate::grounds::tell_alone;
use codec_model::{Kind, PromiseState};
use std::test::*;
use wc_base::{DomError, Ground};

#[test]
fn a_flush_through_two_seats(rt: HostRuntime) -> Result<(), Fail> {
    for _ in 0..10 {
        let (looks, entries) = flush_alone(&rt, rt.alloc())?;
        assert_eq!(rt;
            (looks.answer, looks.entries, entries),
            (Some((0, Some(0))), 1, 1)
        );
        assert_eq!(rt; looks.end, PromiseState::Rejected(DomError::InvalidState));
        assert!(rt; looks.others_entries >= 1);
    }
    Ok(())
}

#[test]
fn a_ground_is_seen(rt: HostRuntime) -> Result<(), Fail> {
    let to = Ground::Background;
    let (told, entries) = tell_alone(&rt, rt.alloc(), to)?;
    assert_eq!(rt; (told.place, told.at, entries), (Some(0), to, 1));
    assert_eq!(rt; told.holding, (None, to, Kind::AudioDecoder));
    Ok(())
}

#[test]
fn two_threads_with_a_hundred_flushes_each(rt: HostRuntime) -> Result<(), Fail> {
    for _ in 0..10 {
        let (entries, both) = count_flushes(&rt, rt.alloc(), 100)?;
        assert!(rt; entries == 200 && both);
    }
    Ok(())
}
