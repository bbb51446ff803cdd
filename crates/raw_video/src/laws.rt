// What coding and decoding come to together.
ghost use Rattle.raw_video.specs.Back.{PicturesComeBack};

/// A decoder of the same codec and size that is given the chunks of an encoder, and is drained where that is, gives
/// exactly the pictures that the encoder was given, each for its chunk.
pub fn pictures_come_back()
    ensures { PicturesComeBack }
{}
