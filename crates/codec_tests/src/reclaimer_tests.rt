// What `pick` answers.
use reclaimer::{Holder, pick};
use std::test::Fail;
use wc_base::Ground;

fn decoder(codec: u32, progress: u64, ground: Ground) -> Holder {
    Holder {
        codec,
        progress,
        decoder: true,
        ground,
    }
}

#[test]
fn the_least_progress_and_then_the_least_number(rt: HostRuntime) -> Result<(), Fail> {
    let holders = [
        decoder(0, 5, Ground::Foreground),
        decoder(2, 3, Ground::Foreground),
        decoder(1, 3, Ground::Foreground),
    ];
    assert_eq!(rt; pick(&holders, 10_000_003), Some(1));
    assert_eq!(rt; pick(&holders, 10_000_002), None);
    assert_eq!(rt; pick(&[], 10_000_003), None);
    Ok(())
}

#[test]
fn background_decoders_where_none_is_inactive(rt: HostRuntime) -> Result<(), Fail> {
    let encoder = Holder {
        codec: 2,
        progress: 6,
        decoder: false,
        ground: Ground::Background,
    };
    let holders = [
        decoder(0, 5, Ground::Foreground),
        decoder(1, 7, Ground::Background),
        encoder,
        decoder(3, 1, Ground::BackgroundEncoding),
    ];
    assert_eq!(rt; pick(&holders, 10), Some(1));
    assert_eq!(rt; pick(&holders[..1], 10), None);
    assert_eq!(rt; pick(&holders[..3], 10_000_005), Some(0));
    Ok(())
}

#[test]
fn moments_near_the_greatest(rt: HostRuntime) -> Result<(), Fail> {
    let late = u64::MAX - 9_999_999;
    let holders = [decoder(0, late, Ground::Foreground)];
    assert_eq!(rt; pick(&holders, u64::MAX), None);
    let holders = [decoder(0, late - 1, Ground::Foreground)];
    assert_eq!(rt; pick(&holders, u64::MAX), Some(0));
    Ok(())
}
