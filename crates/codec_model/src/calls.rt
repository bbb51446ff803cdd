// What calls, work items and kinds of codecs are to a codec's steps, case by case.
ghost use Rattle.std.specs.Prelude.{◌≡◌, IfOk, OnErr, None, option_map, true};
ghost use Rattle.codec_model.specs.Control.{is_coded, kind_of, held_of, is_decoder, no_opening};
ghost use Rattle.codec_model.specs.Control as control;
ghost use Rattle.codec_model.specs.Replay.{config_asked, is_cloned, refused_as, removes, sends};
ghost use Rattle.codec_model.specs.Shown.{exception_of, promise_of, refused_shows, shown_of};

use crate::entry::{Call, Coded, Handed, HeldMedium, Opening, Pair, Showing, Work, WorkKind};
use wc_base::{DomError, Ground, NoMemory};
use wc_chunk::Chunk;
use wc_config::{Config, Kind};

/// Whether a codec of this kind decodes.
pub fn is_decoder(kind: Kind) -> bool
    ensures { result ≡ is_decoder kind }
{
    match kind {
        Kind::AudioDecoder => true,
        Kind::AudioEncoder => false,
        Kind::VideoDecoder => true,
        Kind::VideoEncoder => false,
    }
}

/// Whether a codec of this kind is a decoder that works in the background.
pub fn is_background_decoder(kind: Kind, at: Ground) -> bool
    ensures { result ≡ control.is_background_decoder kind at }
{
    is_decoder(kind) && at.is_background()
}

fn adds_to_picture(bytes: &[u8]) -> bool
    ensures { result ≡ control.adds_to_picture bytes.now }
{
    match bytes.first() {
        Some(byte) => *byte == 1,
        None => false,
    }
}

/// Whether a codec of this kind can begin with a chunk (W3C WebCodecs, 3.5 'Methods' of VideoDecoder, decode).
pub fn is_key_chunk(kind: Kind, chunk: &Chunk) -> bool
    ensures { result ≡ control.is_key_chunk kind chunk.now }
{
    match kind {
        Kind::AudioDecoder => chunk.key,
        Kind::AudioEncoder => chunk.key,
        Kind::VideoDecoder => chunk.key && !adds_to_picture(&chunk.bytes),
        Kind::VideoEncoder => chunk.key,
    }
}

impl Opening {
    /// An opening where none is given.
    pub fn none() -> Opening
        ensures { result ≡ no_opening }
    {
        Opening {
            kind: Kind::AudioDecoder,
            saturation: 4,
        }
    }
}

impl Work {
    /// Its kind.
    pub fn kind(&self) -> WorkKind
        ensures { result ≡ kind_of self.now }
    {
        match self {
            Work::Configure(_) => WorkKind::Configure,
            Work::Coded(_) => WorkKind::Coded,
            Work::Flush => WorkKind::Flush,
        }
    }

    /// Whether it has an input of a coder.
    pub fn is_coded(&self) -> bool
        ensures { result ≡ is_coded self.now }
    {
        matches!(self, Work::Coded(_))
    }

    /// The config that it brings, if it brings one.
    pub fn config(&self) -> Option<&Config>
        ensures { option_map (λ c. c.now) result ≡ config_asked self.now }
    {
        match self {
            Work::Configure(config) => Some(config),
            Work::Coded(_) => None,
            Work::Flush => None,
        }
    }

    /// The reference that it holds, if it holds one.
    pub fn held(&self) -> Option<Pair>
        ensures { result ≡ held_of self.now }
    {
        match self {
            Work::Coded(Coded::Medium(medium)) => Some(medium.pair),
            Work::Coded(Coded::Chunk(_)) => None,
            Work::Configure(_) => None,
            Work::Flush => None,
        }
    }
}

impl HeldMedium {
    /// The same medium again, over the same shared bytes, with the numbers of its reference.
    pub fn copy(&self) -> Result<HeldMedium, NoMemory>
        ensures { IfOk result (λ m. m ≡ self.now) }
    {
        let bytes = self.bytes.clone()?;
        Ok(HeldMedium {
            shape: self.shape,
            bytes,
            pair: self.pair,
        })
    }
}

impl Handed {
    /// What became of a medium that an encode is refused, which was detached or not.
    pub fn of_refused(detached: bool) -> Handed
        ensures { result ≡ refused_as detached }
    {
        if detached { Handed::Gone } else { Handed::Kept }
    }

    /// The same again, over the same shared bytes.
    pub fn copy(&self) -> Result<Handed, NoMemory>
        ensures ok { IfOk result (λ h. h ≡ self.now) }
        ensures err { OnErr result (is_cloned self.now ≡ true) }
    {
        match self {
            Handed::Gone => Ok(Handed::Gone),
            Handed::Kept => Ok(Handed::Kept),
            Handed::Cloned(medium) => Ok(Handed::Cloned(medium.copy()?)),
        }
    }
}

impl Call {
    /// Whether it sends a message where it is not refused. Such a call alone takes memory.
    pub fn sends(&self) -> bool
        ensures { result ≡ sends self.now }
    {
        match self {
            Call::Configure(_) => true,
            Call::Decode(_) => true,
            Call::Encode(Handed::Gone) => false,
            Call::Encode(Handed::Kept) => false,
            Call::Encode(Handed::Cloned(_)) => true,
            Call::Flush => true,
            Call::Reset => false,
            Call::Close => false,
            Call::Take(_) => false,
            Call::Ground(_) => false,
        }
    }

    /// Whether it removes all that is queued, where it is not refused.
    pub fn removes(&self) -> bool
        ensures { result ≡ removes self.now }
    {
        matches!(self, Call::Reset | Call::Close)
    }

    /// The same call again, over the same shared bytes. Memory is wanted only of a call that sends a message.
    pub fn copy(&self) -> Result<Call, NoMemory>
        ensures ok { IfOk result (λ x. x ≡ self.now) }
        ensures err { OnErr result (sends self.now ≡ true) }
    {
        match self {
            Call::Configure(config) => Ok(Call::Configure(config.copy()?)),
            Call::Decode(chunk) => Ok(Call::Decode(chunk.copy()?)),
            Call::Encode(handed) => Ok(Call::Encode(handed.copy()?)),
            Call::Flush => Ok(Call::Flush),
            Call::Reset => Ok(Call::Reset),
            Call::Close => Ok(Call::Close),
            Call::Take(unit) => Ok(Call::Take(*unit)),
            Call::Ground(to) => Ok(Call::Ground(*to)),
        }
    }

    /// The promise that it gives, by the place of its entry: a flush gives one.
    pub fn promise(&self, place: u64) -> Option<u64>
        ensures { result ≡ promise_of self.now place }
    {
        match self {
            Call::Flush => Some(place),
            Call::Configure(_) => None,
            Call::Decode(_) => None,
            Call::Encode(_) => None,
            Call::Reset => None,
            Call::Close => None,
            Call::Take(_) => None,
            Call::Ground(_) => None,
        }
    }

    /// Its exception, where it is refused with this error; a flush has none, since its promise is rejected.
    pub fn exception(&self, error: Option<DomError>) -> Option<DomError>
        ensures { result ≡ exception_of self.now error }
    {
        match self {
            Call::Flush => None,
            Call::Configure(_) => error,
            Call::Decode(_) => error,
            Call::Encode(_) => error,
            Call::Reset => error,
            Call::Close => error,
            Call::Take(_) => error,
            Call::Ground(_) => error,
        }
    }
}

impl Showing {
    /// What a call shows that is refused with this error, with the promise that it gives, if it gives one.
    pub fn of_refused(promise: Option<u64>, error: DomError) -> Showing
        ensures { shown_of result ≡ record { turn = None; events = refused_shows promise error } }
    {
        match promise {
            None => Showing::Refusal(error),
            Some(promise) => Showing::Rejection { promise, error },
        }
    }
}
