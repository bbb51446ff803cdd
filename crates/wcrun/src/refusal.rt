// The lines that come in place of a report.
ghost use Rattle.std.specs.Prelude.{◌≡◌, ◌≢◌};
ghost use Rattle.wcrun.specs.Refusals.{status_of};

use chunk_files::{ChunkFault, DemuxFault, MediaFault};
use script_types::{Counted, Fault, Place, Wrong};
use std::fmt;

/// A fault, as the line that tells it.
#[derive(Debug, Drop)]
pub struct Refusal(pub Fault);

impl Refusal {
    /// The status with which the program ends.
    pub fn status(&self) -> u8
        ensures exact { result ≡ status_of self.now.0 }
    {
        match &self.0 {
            Fault::NotJson => 3,
            Fault::At { place: _, wrong: _ } => 3,
            Fault::TooMany(_) => 7,
            Fault::Unread { name: _ } => 4,
            Fault::Chunks { name: _, fault: _ } => 3,
            Fault::NoIndex { name: _, place: _ } => 3,
        }
    }
}

// What is limited, and its limit and 1, as a line tells it.
#[derive(Clone, Copy)]
struct LimitText(Counted);

impl fmt::Display for LimitText {
    ghost use Rattle.std.specs.Prelude.{Some};
    ghost use Rattle.wcrun.specs.Refusals.{limit_text};

    ghost output = { λ x. Some (limit_text x.0) };

    fn fmt<W: fmt::Write>(&self, f: &mut fmt::Formatter<W>) -> fmt::Result {
        f.write_str(match self.0 {
            Counted::Script => "script 16777217",
            Counted::Codecs => "codecs 65",
            Counted::Callers => "callers 17",
            Counted::Steps => "steps 100001",
            Counted::Order => "order 1000001",
            Counted::Chunk => "chunk 16777217",
            Counted::File => "file 268435457",
            Counted::Media => "media 268435457",
            Counted::Report => "report 268435457",
        })
    }
}

// What is wrong at a place, as a line tells it.
#[derive(Clone, Copy)]
struct WrongText(Wrong);

impl fmt::Display for WrongText {
    ghost use Rattle.std.specs.Prelude.{Some};
    ghost use Rattle.wcrun.specs.Refusals.{wrong_text};

    ghost output = { λ x. Some (wrong_text x.0) };

    fn fmt<W: fmt::Write>(&self, f: &mut fmt::Formatter<W>) -> fmt::Result {
        f.write_str(match self.0 {
            Wrong::Shape => "shape",
            Wrong::Twice => "twice",
            Wrong::UnknownName => "unknown name",
        })
    }
}

// The first fault of a chunk file, as a line tells it.
#[derive(Clone, Copy)]
struct ChunkFaultText(ChunkFault);

impl fmt::Display for ChunkFaultText {
    ghost use Rattle.std.specs.Prelude.{Some};
    ghost use Rattle.wcrun.specs.Refusals.{chunk_fault_text};

    ghost output = { λ x. Some (chunk_fault_text x.0) };

    fn fmt<W: fmt::Write>(&self, f: &mut fmt::Formatter<W>) -> fmt::Result {
        match self.0 {
            ChunkFault::BadMark { at } => write!(f, "bad mark at {at}"),
            ChunkFault::BadKind { at, found: _ } => write!(f, "bad kind at {at}"),
            ChunkFault::Short { at } => write!(f, "short at {at}"),
        }
    }
}

// The first fault of a WAV file or a native FLAC file, as a line tells it.
#[derive(Clone, Copy)]
struct SoundFaultText(DemuxFault);

impl fmt::Display for SoundFaultText {
    ghost use Rattle.std.specs.Prelude.{Some};
    ghost use Rattle.wcrun.specs.Refusals.{sound_fault_text};

    ghost output = { λ x. Some (sound_fault_text x.0) };

    fn fmt<W: fmt::Write>(&self, f: &mut fmt::Formatter<W>) -> fmt::Result {
        match self.0 {
            DemuxFault::BadWav { at } => write!(f, "bad wav at {at}"),
            DemuxFault::Unsupported { tag, bits } => write!(f, "wav tag {tag} bits {bits}"),
            DemuxFault::BadFlac { at } => write!(f, "bad flac at {at}"),
        }
    }
}

// The first fault of a media file, as a line tells it.
#[derive(Clone, Copy)]
struct FaultText(MediaFault);

impl fmt::Display for FaultText {
    ghost use Rattle.std.specs.Prelude.{Some};
    ghost use Rattle.wcrun.specs.Refusals.{fault_text};

    ghost output = { λ x. Some (fault_text x.0) };

    fn fmt<W: fmt::Write>(&self, f: &mut fmt::Formatter<W>) -> fmt::Result {
        match self.0 {
            MediaFault::Chunks(fault) => {
                let text = ChunkFaultText(fault);
                write!(f, "{text}")
            }
            MediaFault::Sound(fault) => {
                let text = SoundFaultText(fault);
                write!(f, "{text}")
            }
        }
    }
}

// The place of a step whose chunk its file lacks, as a line tells it.
#[derive(Clone, Copy)]
struct LackText(Place);

impl fmt::Display for LackText {
    ghost use Rattle.std.specs.Prelude.{Some};
    ghost use Rattle.wcrun.specs.Refusals.{lack_text};

    ghost output = { λ x. Some (lack_text x.0) };

    fn fmt<W: fmt::Write>(&self, f: &mut fmt::Formatter<W>) -> fmt::Result {
        let place = self.0;
        write!(f, "no index at {place}")
    }
}

impl fmt::Display for Refusal {
    ghost use Rattle.std.specs.Prelude.{Some};
    ghost use Rattle.wcrun.specs.Refusals.{line_of};

    ghost output = { λ r. Some (line_of r.0) };

    fn fmt<W: fmt::Write>(&self, f: &mut fmt::Formatter<W>) -> fmt::Result {
        match &self.0 {
            Fault::NotJson => f.write_str("script: not json\n"),
            Fault::At { place, wrong } => {
                let wrong = WrongText(*wrong);
                write!(f, "script: {wrong} at {place}\n")
            }
            Fault::TooMany(what) => {
                let what = LimitText(*what);
                write!(f, "limit: {what}\n")
            }
            Fault::Unread { name } => {
                let name = name.as_str();
                write!(f, "read fault: {name}\n")
            }
            Fault::Chunks { name, fault } => {
                let name = name.as_str();
                let fault = FaultText(*fault);
                write!(f, "script: chunks {name} {fault}\n")
            }
            Fault::NoIndex { name, place } => {
                let name = name.as_str();
                let lack = LackText(*place);
                write!(f, "script: chunks {name} {lack}\n")
            }
        }
    }
}
