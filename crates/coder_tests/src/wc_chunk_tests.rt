// Copies with ample memory, and into destinations.
use bytes::Bytes;
use std::test::Fail;
use wc_base::DomError;
use wc_chunk::Chunk;

#[test]
fn chunks_are_copied(rt: HostRuntime) -> Result<(), Fail> {
    let alloc = rt.alloc();
    let chunk = Chunk {
        key: true,
        timestamp: -7,
        duration: Some(20),
        bytes: Bytes::from_vec(vec![in alloc; 1, 2, 3]?)?,
    };
    assert!(rt; chunk.copy()? == chunk);
    let mut long = [9, 9, 9, 9];
    assert_eq!(rt; chunk.copy_to(&mut long), Ok(3));
    assert_eq!(rt; long, [1, 2, 3, 9]);
    let mut short = [9, 9];
    assert_eq!(rt; chunk.copy_to(&mut short), Err(DomError::TypeErr));
    assert_eq!(rt; short, [9, 9]);
    Ok(())
}
