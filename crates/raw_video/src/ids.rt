// Which codec codes which pictures.
ghost use Rattle.std.specs.Prelude.{◌≡◌};
ghost use Rattle.raw_video.specs.Value.{codec_of};

use wc_base::PictureFormat;
use wc_config::CodecId;

/// The codec of pictures of a format.
pub(crate) fn codec_of(format: PictureFormat) -> CodecId
    ensures { result ≡ codec_of format }
{
    match format {
        PictureFormat::I420 => CodecId::RawI420,
        PictureFormat::I422 => CodecId::RawI422,
        PictureFormat::I444 => CodecId::RawI444,
        PictureFormat::Nv12 => CodecId::RawNv12,
    }
}
