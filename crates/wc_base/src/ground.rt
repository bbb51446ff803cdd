// Where codecs are at work.
ghost use Rattle.std.specs.Prelude.{◌≡◌};
ghost use Rattle.wc_base.specs.Grounds.{is_background, same_ground};

/// Where a codec is at work, as its host says (our choice).
#[derive(Clone, Copy, Debug, PartialEq, Eq)]
pub enum Ground {
    /// Its page is in the foreground.
    Foreground,
    /// Its page is in the background.
    Background,
    /// Its page is in the background, and has an encoder at work.
    BackgroundEncoding,
}

impl Ground {
    /// Whether a decoder there may be reclaimed while it is active.
    pub fn is_background(self) -> bool
        ensures { result ≡ is_background self }
    {
        matches!(self, Ground::Background)
    }

    /// Whether both are the same.
    pub fn is(self, other: Ground) -> bool
        ensures { result ≡ same_ground self other }
    {
        match (self, other) {
            (Ground::Foreground, Ground::Foreground) => true,
            (Ground::Background, Ground::Background) => true,
            (Ground::BackgroundEncoding, Ground::BackgroundEncoding) => true,
            _ => false,
        }
    }
}
