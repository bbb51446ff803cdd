// What is written of a block is read.
ghost use Rattle.flac_block_laws.specs.Laws.{WrittenFramesAreRead};

use flac_laws::frames_are_spelled;
use flac_subframe_laws::written_subframes_are_read;
use flac_write::written_headers_are_read;

/// What `encode_block` writes of a block spells a frame of its samples, in the stream that the format describes, and bytes
/// with these bits are read as that frame. So does each other mode that the block may have.
pub fn written_frames_are_read()
    ensures { WrittenFramesAreRead }
{
    frames_are_spelled();
    written_headers_are_read();
    written_subframes_are_read()
}
