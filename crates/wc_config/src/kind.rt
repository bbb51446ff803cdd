// Kinds of codecs.

/// What a codec is (W3C WebCodecs: AudioDecoder, AudioEncoder, VideoDecoder, VideoEncoder).
#[derive(Clone, Copy, Debug, PartialEq, Eq)]
pub enum Kind {
    AudioDecoder,
    AudioEncoder,
    VideoDecoder,
    VideoEncoder,
}
