// Media files of each kind.
use crate::flac_tests::FRAMES;
use crate::wav_tests::TWO_FRAMES;
use chunk_files::{ChunkFault, DemuxFault, MediaFault, Stop};
use std::test::Fail;
use wc_demux::{MediaFile, read_media_file};

// The file of one empty chunk.
const CHUNK: [u8; 26] = [
    87, 67, 67, 49, 0, 0, 0, 0, 0, 0, 0, 0, 0, 0, 0, 0, 0, 0, 0, 0, 0, 0, 0, 0, 0, 0,
];

#[test]
fn each_kind_of_file(rt: HostRuntime) -> Result<(), Fail> {
    let alloc = rt.alloc();
    let wav = matches!(read_media_file(alloc, &TWO_FRAMES), Ok(MediaFile::Wav(_)));
    assert!(rt; wav);
    let flac = matches!(
        read_media_file(alloc, &FRAMES[..73]),
        Ok(MediaFile::Flac(_))
    );
    assert!(rt; flac);
    let chunks = matches!(read_media_file(alloc, &CHUNK), Ok(MediaFile::Chunks(_)));
    assert!(rt; chunks);
    Ok(())
}

#[test]
fn each_kind_of_fault(rt: HostRuntime) -> Result<(), Fail> {
    let alloc = rt.alloc();
    for (bytes, fault) in [
        (
            &TWO_FRAMES[..8],
            MediaFault::Sound(DemuxFault::BadWav { at: 8 }),
        ),
        (
            &FRAMES[..8],
            MediaFault::Sound(DemuxFault::BadFlac { at: 0 }),
        ),
        (
            &TWO_FRAMES[..3],
            MediaFault::Chunks(ChunkFault::BadMark { at: 0 }),
        ),
        (&CHUNK[..8], MediaFault::Chunks(ChunkFault::Short { at: 5 })),
    ] {
        let found = match read_media_file(alloc, bytes) {
            Ok(_) => None,
            Err(stop) => Some(stop),
        };
        assert_eq!(rt; found, Some(Stop::Fault(fault)));
    }
    Ok(())
}
