// Heads that are whole, cut and faulty.
ghost use Rattle.std.specs.Prelude.{◌≤◌, ◌<◌};

use crate::file::FILE;
use flac_stream::{HeadRead, SeekTable, StreamHead, read_head};
use std::process::Abort;
use std::test::Fail;

fn whole(bytes: &[u8]) -> Option<StreamHead> {
    match read_head(bytes) {
        HeadRead::Head(head) => Some(head),
        HeadRead::NeedMore => None,
        HeadRead::Refused => None,
    }
}

fn wants_more(bytes: &[u8]) -> bool {
    matches!(read_head(bytes), HeadRead::NeedMore)
}

fn is_refused(bytes: &[u8]) -> bool {
    matches!(read_head(bytes), HeadRead::Refused)
}

#[test]
fn a_head_with_a_seek_table_and_tags(rt: HostRuntime) -> Result<(), Fail> {
    let head = whole(&FILE).ok_or("no head")?;
    assert_eq!(rt;
        (head.info.rate, head.info.channels, head.info.depth),
        (8000, 1, 16)
    );
    assert_eq!(rt; (head.info.total, head.first_frame), (40, 137));
    assert_eq!(rt; head.seek_table, Some(SeekTable { at: 46, count: 2 }));
    Ok(())
}

#[test]
fn each_cut_of_a_head(rt: HostRuntime) -> Result<(), Fail> {
    for count in 0..137 {
        assert!(rt; wants_more(&FILE[..count]), "of {count}");
    }
    for count in 137..215 {
        assert!(rt; whole(&FILE[..count]).is_some(), "of {count}");
    }
    Ok(())
}

#[test]
fn a_head_of_a_description_alone(rt: HostRuntime) -> Result<(), Fail> {
    let mut bytes = FILE;
    bytes[4] = 0x80;
    let head = whole(&bytes).ok_or("no head")?;
    assert_eq!(rt; (head.first_frame, head.seek_table), (42, None));
    assert!(rt; wants_more(&bytes[..41]));
    Ok(())
}

/// With another byte at a place there is no head: so many bytes do not show it yet, and so many do.
fn try_changed(rt: &impl Abort, at: usize, byte: u8, before: usize, count: usize)
    requires at { at < 214 }
    requires before { before ≤ 214 }
    requires count { count ≤ 214 }
{
    let mut bytes = FILE;
    bytes[at] = byte;
    assert!(rt; is_refused(&bytes[..count]), "at {at}");
    assert!(rt; is_refused(&bytes), "at {at}");
    assert!(rt; wants_more(&bytes[..before]), "before {at}");
}

#[test]
fn heads_that_are_refused_at_once(rt: HostRuntime) -> Result<(), Fail> {
    try_changed(&rt, 0, 0x46, 0, 1);
    try_changed(&rt, 3, 0x63, 3, 4);
    try_changed(&rt, 4, 0x01, 4, 5);
    try_changed(&rt, 5, 1, 5, 6);
    try_changed(&rt, 7, 35, 7, 8);
    Ok(())
}

#[test]
fn a_rate_of_zero_and_a_depth_of_two(rt: HostRuntime) -> Result<(), Fail> {
    let mut bytes = FILE;
    bytes[18] = 0;
    bytes[19] = 0;
    bytes[20] = 0;
    assert!(rt; wants_more(&bytes[..20]));
    assert!(rt; is_refused(&bytes[..21]));
    let mut shallow = FILE;
    shallow[21] = 0x10;
    assert!(rt; wants_more(&shallow[..21]));
    assert!(rt; is_refused(&shallow[..22]));
    Ok(())
}
