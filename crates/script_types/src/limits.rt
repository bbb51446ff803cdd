// How many there may be of what is counted.
ghost use Rattle.std.specs.Prelude.{◌≡◌};
ghost use Rattle.script_types.specs.Limits as spec;

use crate::Counted;

/// How many there may be.
pub fn limit_of(what: Counted) -> usize
    ensures { result ≡ spec.limit_of what }
{
    match what {
        Counted::Script => 16_777_216,
        Counted::Codecs => 64,
        Counted::Callers => 16,
        Counted::Steps => 100_000,
        Counted::Order => 1_000_000,
        Counted::Chunk => 16_777_216,
        Counted::File => 268_435_456,
        Counted::Media => 268_435_456,
        Counted::Report => 268_435_456,
    }
}
