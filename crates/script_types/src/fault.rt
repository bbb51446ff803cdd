// Why a script is not replayed.
use chunk_files::MediaFault;
use std::fmt;
use wc_base::Text;

/// A place in a script, by the numbers of its codecs, callers, steps of a caller, and order items.
#[derive(Clone, Copy, Debug, PartialEq, Eq)]
pub enum Place {
    Top,
    Codec(u32),
    Caller(u32),
    Step(u32, u32),
    Order(u32),
}

impl fmt::Display for Place {
    ghost use Rattle.std.specs.Prelude.{Some};
    ghost use Rattle.script_types.specs.Places.{place_text};

    ghost output = { λ p. Some (place_text p) };

    fn fmt<W: fmt::Write>(&self, f: &mut fmt::Formatter<W>) -> fmt::Result {
        match self {
            Place::Top => f.write_str("top"),
            Place::Codec(i) => write!(f, "codec {i}"),
            Place::Caller(i) => write!(f, "caller {i}"),
            Place::Step(i, j) => write!(f, "step {i} {j}"),
            Place::Order(i) => write!(f, "order {i}"),
        }
    }
}

/// What is counted against a limit: the bytes of a script file, its codecs, callers, steps of all callers and order
/// items, the bytes of one chunk or one inline data, those of one chunk file, those of all chunks and all inline data,
/// and those of a report that is checked.
#[derive(Clone, Copy, Debug, PartialEq, Eq)]
pub enum Counted {
    Script,
    Codecs,
    Callers,
    Steps,
    Order,
    Chunk,
    File,
    Media,
    Report,
}

/// What is wrong at one place of a script (our choice; WebIDL's own faults are no faults of the script).
#[derive(Clone, Copy, Debug, PartialEq, Eq)]
pub enum Wrong {
    /// A member is missing, of another JSON kind, out of its range or form, or names a thing of another kind than is
    /// needed there.
    Shape,
    /// The name was given before.
    Twice,
    /// Nothing has the name.
    UnknownName,
}

/// Why a script is not replayed: its first fault, with its place, or that of its files.
#[derive(Debug, PartialEq, Drop)]
pub enum Fault {
    /// The bytes are no JSON value.
    NotJson,
    At { place: Place, wrong: Wrong },
    /// A count is above its limit.
    TooMany(Counted),
    /// The file of this name was not read; the files' count of faults rose.
    Unread { name: Text },
    /// The bytes of the chunk file of this name are no media file, with their first fault.
    Chunks { name: Text, fault: MediaFault },
    /// The chunk file of this name lacks the chunk that the step at this place takes.
    NoIndex { name: Text, place: Place },
}
