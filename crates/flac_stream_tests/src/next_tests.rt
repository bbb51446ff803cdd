// Frames found from a place of their stream on.
use crate::file::FILE;
use flac_stream::{HeadRead, NextFrame, next_frame, read_head};
use std::test::Fail;
use wc_config::StreamInfo;

fn described() -> Option<StreamInfo> {
    match read_head(&FILE) {
        HeadRead::Head(head) => Some(head.info),
        HeadRead::NeedMore => None,
        HeadRead::Refused => None,
    }
}

#[test]
fn each_frame_of_a_file(rt: HostRuntime) -> Result<(), Fail> {
    let info = described().ok_or("no head")?;
    let rows = [(0, 137), (137, 137), (138, 165), (165, 165), (166, 194)];
    for (from, at) in rows {
        assert_eq!(rt; next_frame(&FILE, from, &info), NextFrame::Found { at });
    }
    Ok(())
}

#[test]
fn no_frame_behind_the_last(rt: HostRuntime) -> Result<(), Fail> {
    let info = described().ok_or("no head")?;
    assert_eq!(rt;
        next_frame(&FILE, 195, &info),
        NextFrame::Missing { from: 213 }
    );
    assert_eq!(rt;
        next_frame(&FILE, 214, &info),
        NextFrame::Missing { from: 214 }
    );
    assert_eq!(rt;
        next_frame(&FILE, 300, &info),
        NextFrame::Missing { from: 300 }
    );
    Ok(())
}

#[test]
fn a_header_that_is_cut(rt: HostRuntime) -> Result<(), Fail> {
    let info = described().ok_or("no head")?;
    for count in 166..172 {
        let next = next_frame(&FILE[..count], 138, &info);
        assert_eq!(rt; next, NextFrame::Missing { from: 165 });
    }
    let next = next_frame(&FILE[..172], 138, &info);
    assert_eq!(rt; next, NextFrame::Found { at: 165 });
    Ok(())
}

#[test]
fn a_header_with_another_sum_or_of_another_stream(rt: HostRuntime) -> Result<(), Fail> {
    let mut info = described().ok_or("no head")?;
    let mut bytes = FILE;
    bytes[171] ^= 1;
    assert_eq!(rt;
        next_frame(&bytes, 138, &info),
        NextFrame::Found { at: 194 }
    );
    info.channels = 2;
    assert_eq!(rt;
        next_frame(&FILE, 138, &info),
        NextFrame::Missing { from: 213 }
    );
    Ok(())
}
