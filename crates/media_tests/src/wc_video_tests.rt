// Video frames with ample memory, and each refusal of their copies, in each format. The copies of a picture
// of 5 by 3 pixels whose bytes are 0, 1, 2 and so on were worked out apart from this program.
ghost use Rattle.std.specs.Prelude.{◌≤◌, length, IfOk};
ghost use Rattle.picture_planes.specs.Planes.{picture_size};

use bytes::Bytes;
use std::alloc::Global;
use std::test::Fail;
use wc_base::{By, DomError, Picture, PictureFormat, PictureShape, Who};
use wc_pool::{MediaFault, Pool, PoolOp};
use wc_video::{Layouts, PlaneLayout, Rect, VideoFrame};

fn by(step: u32) -> By {
    By::Caller(Who { caller: 0, step })
}

fn shape(format: PictureFormat, width: u32, height: u32) -> PictureShape {
    PictureShape {
        format,
        width,
        height,
        timestamp: 0,
        duration: None,
    }
}

const CONTENT: [u8; 45] = [
    0, 1, 2, 3, 4, 5, 6, 7, 8, 9, 10, 11, 12, 13, 14, 15, 16, 17, 18, 19, 20, 21, 22, 23, 24, 25,
    26, 27, 28, 29, 30, 31, 32, 33, 34, 35, 36, 37, 38, 39, 40, 41, 42, 43, 44,
];

fn rect(x: u32, y: u32, width: u32, height: u32) -> Option<Rect> {
    Some(Rect {
        x,
        y,
        width,
        height,
    })
}

fn at(offset: u32, stride: u32) -> PlaneLayout {
    PlaneLayout { offset, stride }
}

fn layouts(count: u32, planes: [PlaneLayout; 3]) -> Layouts {
    let [first, second, third] = planes;
    Layouts {
        count,
        first,
        second,
        third,
    }
}

/// A copy into so many bytes, at most 64, each of which was 9; in a layout of the first planes, at most 4,
/// or with none in the tight one.
#[derive(Clone, Copy)]
struct Copy {
    rect: Option<Rect>,
    planes: [PlaneLayout; 4],
    count: usize,
    room: usize,
}

fn layout_of(c: &Copy) -> Option<&[PlaneLayout]> {
    if c.count == 0 || c.count > 4 {
        None
    } else {
        Some(&c.planes[..c.count])
    }
}

/// Whether a copy puts these bytes in front, leaves the others, and tells where its planes went.
fn gives(frame: &VideoFrame, c: &Copy, to: &Layouts, wanted: &[u8]) -> bool {
    let mut dst = [9_u8; 64];
    if c.room > 64 || wanted.len() > 64 {
        return false;
    }
    match frame.copy_to(&mut dst[..c.room], c.rect, layout_of(c)) {
        Ok(l) => {
            l == *to
                && &dst[..wanted.len()] == wanted
                && dst[wanted.len()..].iter().all(|b| *b == 9)
        }
        Err(_) => false,
    }
}

/// Whether a copy is refused with `TypeErr`, and leaves its destination.
fn is_refused(frame: &VideoFrame, c: &Copy) -> bool {
    let mut dst = [9_u8; 64];
    if c.room > 64 {
        return false;
    }
    let refused = frame.copy_to(&mut dst[..c.room], c.rect, layout_of(c));
    refused == Err(DomError::TypeErr) && dst == [9; 64]
}

fn all_refused(frame: &VideoFrame, copies: &[Copy]) -> bool {
    copies.iter().all(|c| is_refused(frame, c))
}

fn tight(rect: Option<Rect>, room: usize) -> Copy {
    Copy {
        rect,
        planes: [at(0, 0), at(0, 0), at(0, 0), at(0, 0)],
        count: 0,
        room,
    }
}

fn laid_1(first: PlaneLayout) -> Copy {
    Copy {
        planes: [first, at(0, 0), at(0, 0), at(0, 0)],
        count: 1,
        ..tight(rect(2, 0, 3, 2), 64)
    }
}

fn laid_2(first: PlaneLayout, second: PlaneLayout) -> Copy {
    Copy {
        planes: [first, second, at(0, 0), at(0, 0)],
        count: 2,
        ..tight(rect(2, 0, 3, 2), 64)
    }
}

fn laid_3(first: PlaneLayout, second: PlaneLayout, third: PlaneLayout) -> Copy {
    Copy {
        planes: [first, second, third, at(0, 0)],
        count: 3,
        ..tight(rect(2, 0, 3, 2), 64)
    }
}

fn laid_4(planes: [PlaneLayout; 4]) -> Copy {
    Copy {
        planes,
        count: 4,
        ..tight(rect(2, 0, 3, 2), 64)
    }
}

/// A picture of 5 by 3 pixels.
fn odd(alloc: Global, pool: &mut Pool, format: PictureFormat) -> Result<VideoFrame, MediaFault> {
    VideoFrame::new(alloc, shape(format, 5, 3), &CONTENT, pool, by(0))
}

#[test]
fn a_picture_of_three_by_three(rt: HostRuntime) -> Result<(), Fail> {
    let mut pool = Pool::open(rt.alloc());
    let i420 = shape(PictureFormat::I420, 3, 3);
    let mut frame = VideoFrame::new(rt.alloc(), i420, &CONTENT[..17], &mut pool, by(0))?;
    let clone = frame.clone_frame(&mut pool, by(1))?;
    assert_eq!(rt; frame.allocation_size(None, None), Ok(17));
    assert_eq!(rt; clone.allocation_size(None, None), Ok(17));
    assert!(rt; is_refused(&frame, &tight(rect(1, 0, 2, 2), 64)));
    let meet = Copy {
        rect: None,
        ..laid_3(at(0, 3), at(8, 2), at(13, 2))
    };
    assert!(rt; is_refused(&frame, &meet));
    let whole = layouts(3, [at(0, 3), at(9, 2), at(13, 2)]);
    assert!(rt; gives(&frame, &tight(None, 17), &whole, &CONTENT[..17]));
    let corner = layouts(3, [at(0, 1), at(1, 1), at(2, 1)]);
    assert!(rt;
        gives(
            &frame,
            &tight(rect(2, 2, 1, 1), 3),
            &corner,
            &[0x08, 0x0c, 0x10]
        )
    );
    assert!(rt; is_refused(&frame, &tight(rect(2, 2, 1, 1), 2)));
    Ok(())
}

#[test]
fn copies_of_i420(rt: HostRuntime) -> Result<(), Fail> {
    let mut pool = Pool::open(rt.alloc());
    let frame = odd(rt.alloc(), &mut pool, PictureFormat::I420)?;
    let rows: [(Copy, Layouts, &[u8]); 5] = [
        (
            tight(None, 27),
            layouts(3, [at(0, 5), at(15, 3), at(21, 3)]),
            &CONTENT[..27],
        ),
        (
            tight(rect(2, 2, 3, 1), 7),
            layouts(3, [at(0, 3), at(3, 2), at(5, 2)]),
            &[12, 13, 14, 19, 20, 25, 26],
        ),
        (
            tight(rect(0, 0, 3, 3), 17),
            layouts(3, [at(0, 3), at(9, 2), at(13, 2)]),
            &[0, 1, 2, 5, 6, 7, 10, 11, 12, 15, 16, 18, 19, 21, 22, 24, 25],
        ),
        (
            tight(rect(4, 0, 1, 3), 7),
            layouts(3, [at(0, 1), at(3, 1), at(5, 1)]),
            &[4, 9, 14, 17, 20, 23, 26],
        ),
        (
            laid_3(at(1, 4), at(13, 3), at(9, 2)),
            layouts(3, [at(1, 4), at(13, 3), at(9, 2)]),
            &[9, 2, 3, 4, 9, 7, 8, 9, 9, 22, 23, 9, 9, 16, 17, 9],
        ),
    ];
    for (c, to, wanted) in rows {
        assert!(rt; gives(&frame, &c, &to, wanted));
    }
    Ok(())
}

#[test]
fn copies_of_i422(rt: HostRuntime) -> Result<(), Fail> {
    let mut pool = Pool::open(rt.alloc());
    let frame = odd(rt.alloc(), &mut pool, PictureFormat::I422)?;
    let rows: [(Copy, Layouts, &[u8]); 5] = [
        (
            tight(None, 33),
            layouts(3, [at(0, 5), at(15, 3), at(24, 3)]),
            &CONTENT[..33],
        ),
        (
            tight(rect(2, 2, 3, 1), 7),
            layouts(3, [at(0, 3), at(3, 2), at(5, 2)]),
            &[12, 13, 14, 22, 23, 31, 32],
        ),
        (
            tight(rect(0, 0, 3, 3), 21),
            layouts(3, [at(0, 3), at(9, 2), at(15, 2)]),
            &[
                0, 1, 2, 5, 6, 7, 10, 11, 12, 15, 16, 18, 19, 21, 22, 24, 25, 27, 28, 30, 31,
            ],
        ),
        (
            tight(rect(4, 0, 1, 3), 9),
            layouts(3, [at(0, 1), at(3, 1), at(6, 1)]),
            &[4, 9, 14, 17, 20, 23, 26, 29, 32],
        ),
        (
            laid_3(at(2, 5), at(18, 3), at(12, 2)),
            layouts(3, [at(2, 5), at(18, 3), at(12, 2)]),
            &[
                9, 9, 2, 3, 4, 9, 9, 7, 8, 9, 9, 9, 25, 26, 28, 29, 9, 9, 16, 17, 9, 19, 20, 9,
            ],
        ),
    ];
    for (c, to, wanted) in rows {
        assert!(rt; gives(&frame, &c, &to, wanted));
    }
    Ok(())
}

#[test]
fn copies_of_i444(rt: HostRuntime) -> Result<(), Fail> {
    let mut pool = Pool::open(rt.alloc());
    let frame = odd(rt.alloc(), &mut pool, PictureFormat::I444)?;
    let rows: [(Copy, Layouts, &[u8]); 5] = [
        (
            tight(None, 45),
            layouts(3, [at(0, 5), at(15, 5), at(30, 5)]),
            &CONTENT[..45],
        ),
        (
            tight(rect(2, 2, 3, 1), 9),
            layouts(3, [at(0, 3), at(3, 3), at(6, 3)]),
            &[12, 13, 14, 27, 28, 29, 42, 43, 44],
        ),
        (
            tight(rect(0, 0, 3, 3), 27),
            layouts(3, [at(0, 3), at(9, 3), at(18, 3)]),
            &[
                0, 1, 2, 5, 6, 7, 10, 11, 12, 15, 16, 17, 20, 21, 22, 25, 26, 27, 30, 31, 32, 35,
                36, 37, 40, 41, 42,
            ],
        ),
        (
            tight(rect(4, 0, 1, 3), 9),
            layouts(3, [at(0, 1), at(3, 1), at(6, 1)]),
            &[4, 9, 14, 19, 24, 29, 34, 39, 44],
        ),
        (
            laid_3(at(20, 4), at(10, 5), at(0, 4)),
            layouts(3, [at(20, 4), at(10, 5), at(0, 4)]),
            &[
                32, 33, 34, 9, 37, 38, 39, 9, 9, 9, 17, 18, 19, 9, 9, 22, 23, 24, 9, 9, 2, 3, 4, 9,
                7, 8, 9, 9,
            ],
        ),
    ];
    for (c, to, wanted) in rows {
        assert!(rt; gives(&frame, &c, &to, wanted));
    }
    Ok(())
}

#[test]
fn copies_of_nv12(rt: HostRuntime) -> Result<(), Fail> {
    let mut pool = Pool::open(rt.alloc());
    let frame = odd(rt.alloc(), &mut pool, PictureFormat::Nv12)?;
    let rows: [(Copy, Layouts, &[u8]); 5] = [
        (
            tight(None, 27),
            layouts(2, [at(0, 5), at(15, 6), at(0, 0)]),
            &CONTENT[..27],
        ),
        (
            tight(rect(2, 2, 3, 1), 7),
            layouts(2, [at(0, 3), at(3, 4), at(0, 0)]),
            &[12, 13, 14, 23, 24, 25, 26],
        ),
        (
            tight(rect(0, 0, 3, 3), 17),
            layouts(2, [at(0, 3), at(9, 4), at(0, 0)]),
            &[0, 1, 2, 5, 6, 7, 10, 11, 12, 15, 16, 17, 18, 21, 22, 23, 24],
        ),
        (
            tight(rect(4, 0, 1, 3), 7),
            layouts(2, [at(0, 1), at(3, 2), at(0, 0)]),
            &[4, 9, 14, 19, 20, 25, 26],
        ),
        (
            laid_2(at(6, 5), at(1, 5)),
            layouts(2, [at(6, 5), at(1, 5), at(0, 0)]),
            &[9, 17, 18, 19, 20, 9, 2, 3, 4, 9, 9, 7, 8, 9, 9, 9],
        ),
    ];
    for (c, to, wanted) in rows {
        assert!(rt; gives(&frame, &c, &to, wanted));
    }
    Ok(())
}

#[test]
fn refusals_of_i420(rt: HostRuntime) -> Result<(), Fail> {
    let mut pool = Pool::open(rt.alloc());
    let frame = odd(rt.alloc(), &mut pool, PictureFormat::I420)?;
    let rows: [Copy; 17] = [
        tight(rect(0, 0, 0, 1), 64),
        tight(rect(0, 0, 1, 0), 64),
        tight(rect(4, 0, 2, 1), 64),
        tight(rect(0, 2, 1, 2), 64),
        tight(rect(4, 0, u32::MAX, 1), 64),
        tight(rect(1, 0, 2, 2), 64),
        tight(rect(0, 1, 2, 2), 64),
        tight(None, 26),
        laid_2(at(0, 3), at(6, 2)),
        laid_4([at(0, 3), at(6, 2), at(8, 2), at(40, 9)]),
        laid_3(at(0, 3), at(20, 1), at(40, 2)),
        laid_3(at(0, 2), at(20, 2), at(40, 2)),
        laid_3(at(0, 3), at(u32::MAX, 2), at(40, 2)),
        laid_3(at(0, u32::MAX), at(20, 2), at(40, 2)),
        laid_3(at(0, 3), at(5, 2), at(40, 2)),
        laid_3(at(0, 3), at(20, 2), at(21, 2)),
        laid_3(at(0, 3), at(20, 2), at(5, 2)),
    ];
    assert!(rt; all_refused(&frame, &rows));
    Ok(())
}

#[test]
fn refusals_of_i422(rt: HostRuntime) -> Result<(), Fail> {
    let mut pool = Pool::open(rt.alloc());
    let frame = odd(rt.alloc(), &mut pool, PictureFormat::I422)?;
    let rows: [Copy; 16] = [
        tight(rect(0, 0, 0, 1), 64),
        tight(rect(0, 0, 1, 0), 64),
        tight(rect(4, 0, 2, 1), 64),
        tight(rect(0, 2, 1, 2), 64),
        tight(rect(4, 0, u32::MAX, 1), 64),
        tight(rect(1, 0, 2, 2), 64),
        tight(None, 32),
        laid_2(at(0, 3), at(6, 2)),
        laid_4([at(0, 3), at(6, 2), at(10, 2), at(40, 9)]),
        laid_3(at(0, 3), at(20, 1), at(40, 2)),
        laid_3(at(0, 2), at(20, 2), at(40, 2)),
        laid_3(at(0, 3), at(u32::MAX, 2), at(40, 2)),
        laid_3(at(0, u32::MAX), at(20, 2), at(40, 2)),
        laid_3(at(0, 3), at(5, 2), at(40, 2)),
        laid_3(at(0, 3), at(20, 2), at(23, 2)),
        laid_3(at(0, 3), at(20, 2), at(5, 2)),
    ];
    assert!(rt; all_refused(&frame, &rows));
    assert_eq!(rt; frame.allocation_size(rect(0, 1, 2, 2), None), Ok(8));
    Ok(())
}

#[test]
fn refusals_of_i444(rt: HostRuntime) -> Result<(), Fail> {
    let mut pool = Pool::open(rt.alloc());
    let frame = odd(rt.alloc(), &mut pool, PictureFormat::I444)?;
    let rows: [Copy; 15] = [
        tight(rect(0, 0, 0, 1), 64),
        tight(rect(0, 0, 1, 0), 64),
        tight(rect(4, 0, 2, 1), 64),
        tight(rect(0, 2, 1, 2), 64),
        tight(rect(4, 0, u32::MAX, 1), 64),
        tight(None, 44),
        laid_2(at(0, 3), at(6, 3)),
        laid_4([at(0, 3), at(6, 3), at(12, 3), at(40, 9)]),
        laid_3(at(0, 3), at(20, 2), at(40, 3)),
        laid_3(at(0, 2), at(20, 3), at(40, 3)),
        laid_3(at(0, 3), at(u32::MAX, 3), at(40, 3)),
        laid_3(at(0, u32::MAX), at(20, 3), at(40, 3)),
        laid_3(at(0, 3), at(5, 3), at(40, 3)),
        laid_3(at(0, 3), at(20, 3), at(25, 3)),
        laid_3(at(0, 3), at(20, 3), at(5, 3)),
    ];
    assert!(rt; all_refused(&frame, &rows));
    assert_eq!(rt; frame.allocation_size(rect(1, 0, 2, 2), None), Ok(12));
    assert_eq!(rt; frame.allocation_size(rect(0, 1, 2, 2), None), Ok(12));
    Ok(())
}

#[test]
fn refusals_of_nv12(rt: HostRuntime) -> Result<(), Fail> {
    let mut pool = Pool::open(rt.alloc());
    let frame = odd(rt.alloc(), &mut pool, PictureFormat::Nv12)?;
    let rows: [Copy; 15] = [
        tight(rect(0, 0, 0, 1), 64),
        tight(rect(0, 0, 1, 0), 64),
        tight(rect(4, 0, 2, 1), 64),
        tight(rect(0, 2, 1, 2), 64),
        tight(rect(4, 0, u32::MAX, 1), 64),
        tight(rect(1, 0, 2, 2), 64),
        tight(rect(0, 1, 2, 2), 64),
        tight(None, 26),
        laid_1(at(0, 3)),
        laid_3(at(0, 3), at(6, 4), at(40, 9)),
        laid_2(at(0, 3), at(20, 3)),
        laid_2(at(0, 2), at(20, 4)),
        laid_2(at(0, 3), at(u32::MAX, 4)),
        laid_2(at(0, u32::MAX), at(20, 4)),
        laid_2(at(0, 3), at(5, 4)),
    ];
    assert!(rt; all_refused(&frame, &rows));
    Ok(())
}

/// A destination as long as the greatest end, which is that of the first plane, and a byte shorter.
#[test]
fn the_greatest_end_counts(rt: HostRuntime) -> Result<(), Fail> {
    let mut pool = Pool::open(rt.alloc());
    let frame = odd(rt.alloc(), &mut pool, PictureFormat::Nv12)?;
    let planes: [PlaneLayout; 2] = [at(6, 5), at(1, 5)];
    assert_eq!(rt;
        frame.allocation_size(rect(2, 0, 3, 2), Some(&planes)),
        Ok(16)
    );
    let mut dst = [9_u8; 16];
    assert!(rt;
        frame
            .copy_to(&mut dst, rect(2, 0, 3, 2), Some(&planes))
            .is_ok()
    );
    let short = frame.copy_to(&mut dst[..15], rect(2, 0, 3, 2), Some(&planes));
    assert_eq!(rt; short, Err(DomError::TypeErr));
    Ok(())
}

fn is_invalid(alloc: Global, pool: &mut Pool, s: PictureShape, content: &[u8]) -> bool {
    match VideoFrame::new(alloc, s, content, pool, by(0)) {
        Ok(_) => false,
        Err(e) => e == MediaFault::Dom(DomError::TypeErr),
    }
}

#[test]
fn invalid_inits_are_refused(rt: HostRuntime) -> Result<(), Fail> {
    let mut pool = Pool::open(rt.alloc());
    let rows: [(PictureShape, &[u8]); 7] = [
        (shape(PictureFormat::I420, 0, 3), &CONTENT),
        (shape(PictureFormat::I420, 3, 0), &CONTENT),
        (shape(PictureFormat::I420, 5, 3), &CONTENT[..26]),
        (shape(PictureFormat::I422, 5, 3), &CONTENT[..32]),
        (shape(PictureFormat::I444, 5, 3), &CONTENT[..44]),
        (shape(PictureFormat::Nv12, 5, 3), &CONTENT[..26]),
        (shape(PictureFormat::I444, u32::MAX, u32::MAX), &CONTENT),
    ];
    for (s, content) in rows {
        assert!(rt; is_invalid(rt.alloc(), &mut pool, s, content));
    }
    assert_eq!(rt; pool.entries().len(), 0);
    Ok(())
}

#[test]
fn longer_content_is_cut(rt: HostRuntime) -> Result<(), Fail> {
    let mut pool = Pool::open(rt.alloc());
    let frame = odd(rt.alloc(), &mut pool, PictureFormat::I420)?;
    assert_eq!(rt; frame.content(), &CONTENT[..27]);
    assert_eq!(rt; *frame.shape(), shape(PictureFormat::I420, 5, 3));
    assert!(rt; frame.reference().is_some());
    Ok(())
}

#[test]
fn a_clone_holds_its_own_reference(rt: HostRuntime) -> Result<(), Fail> {
    let mut pool = Pool::open(rt.alloc());
    let nv12 = shape(PictureFormat::Nv12, 5, 3);
    let mut frame = VideoFrame::new(rt.alloc(), nv12, &CONTENT, &mut pool, by(0))?;
    let mut clone = frame.clone_frame(&mut pool, by(1))?;
    assert!(rt; frame.close_frame(&mut pool, by(2)).is_none());
    assert_eq!(rt; pool.held(), 1);
    assert_eq!(rt; clone.content(), &CONTENT[..27]);
    assert!(rt; clone.close_frame(&mut pool, by(3)).is_some());
    assert_eq!(rt; pool.held(), 0);
    let mut dst = [9_u8; 64];
    assert_eq!(rt;
        frame.allocation_size(None, None),
        Err(DomError::InvalidState)
    );
    let copy = frame.copy_to(&mut dst, rect(1, 0, 0, 0), None);
    assert_eq!(rt; copy, Err(DomError::InvalidState));
    assert_eq!(rt; dst, [9; 64]);
    let ops = [
        PoolOp::Make {
            resource: 0,
            reference: 0,
        },
        PoolOp::Clone {
            resource: 0,
            reference: 1,
        },
        PoolOp::End {
            resource: 0,
            reference: 0,
            last: false,
        },
        PoolOp::End {
            resource: 0,
            reference: 1,
            last: true,
        },
    ];
    assert_eq!(rt; pool.entries().len(), 4);
    for (entry, op) in pool.entries().iter().zip(ops) {
        assert!(rt; entry.op == op);
    }
    Ok(())
}

#[test]
fn a_transfer_detaches(rt: HostRuntime) -> Result<(), Fail> {
    let mut pool = Pool::open(rt.alloc());
    let i422 = shape(PictureFormat::I422, 5, 3);
    let mut frame = VideoFrame::new(rt.alloc(), i422, &CONTENT, &mut pool, by(0))?;
    let mut other = frame.transfer()?;
    assert!(rt; frame.is_detached());
    assert_eq!(rt; frame.content(), [].as_slice());
    assert_eq!(rt; other.content(), &CONTENT[..33]);
    match frame.clone_frame(&mut pool, by(1)) {
        Ok(_) => assert!(rt; false),
        Err(e) => assert_eq!(rt; e, MediaFault::Dom(DomError::InvalidState)),
    }
    match frame.transfer() {
        Ok(_) => assert!(rt; false),
        Err(e) => assert_eq!(rt; e, DomError::DataClone),
    }
    assert!(rt; frame.close_frame(&mut pool, by(2)).is_none());
    assert!(rt; other.close_frame(&mut pool, by(3)).is_some());
    assert_eq!(rt; pool.entries().len(), 2);
    Ok(())
}

fn picture(alloc: Global) -> Result<Picture, Fail>
    ensures { IfOk result (λ p. picture_size p.shape ≤ length p.bytes) }
{
    Ok(Picture {
        shape: PictureShape {
            format: PictureFormat::Nv12,
            width: 2,
            height: 2,
            timestamp: 0,
            duration: None,
        },
        bytes: Bytes::from_vec(vec![in alloc; 1, 2, 3, 4, 5, 6]?)?,
    })
}

#[test]
fn a_picture_of_a_decoder_is_a_resource(rt: HostRuntime) -> Result<(), Fail> {
    let mut pool = Pool::open(rt.alloc());
    let given = picture(rt.alloc())?;
    let frame = VideoFrame::of_picture(given, &mut pool, by(0))?;
    assert_eq!(rt; *frame.shape(), shape(PictureFormat::Nv12, 2, 2));
    assert_eq!(rt; frame.content(), [1, 2, 3, 4, 5, 6].as_slice());
    assert_eq!(rt; pool.held(), 1);
    assert!(rt; frame.into_reference().is_some());
    Ok(())
}
