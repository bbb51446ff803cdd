// What the definitions of media files give.
ghost use Rattle.std.specs.Prelude.{◌≡◌, ℕ, List};
ghost use Rattle.chunk_files.specs.declared.fault.MediaFault.{MediaFault};
ghost use Rattle.wc_demux.specs.Media.{IsMediaFault, IsMediaFile, IsMediaRead};
ghost use Rattle.wc_demux.specs.Within.{MediaAreSmall};
ghost use Rattle.wc_demux.specs.declared.media.MediaFile.{MediaFile};

use chunk_files::bytes_have_one_reading;
use flac_decode::frames_are_found;

/// Bytes are the file of one medium, or they have one first fault, and never both.
pub fn files_have_one_reading()
    ensures media { (bytes : List ℕ) (one other : MediaFile) → IsMediaFile one bytes
        → IsMediaFile other bytes → one ≡ other }
    ensures fault { (bytes : List ℕ) (one other : MediaFault) → IsMediaFault bytes one
        → IsMediaFault bytes other → one ≡ other }
    ensures apart { (bytes : List ℕ) (medium : MediaFile) (e : MediaFault)
        → IsMediaFile medium bytes → IsMediaFault bytes e → ⊥ }
    ensures some { (bytes : List ℕ) → IsMediaRead bytes }
{
    bytes_have_one_reading();
    frames_are_found();
}

/// What the chunks of media files hold is within its types, where the files hold bytes, and no more than a file may have:
/// timestamps have 64 bits with their sign, durations 64, and each chunk holds bytes.
pub fn media_are_small()
    ensures { MediaAreSmall }
{
    frames_are_found();
}
