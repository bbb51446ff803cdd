// The words that spell a load.
ghost use Rattle.std.specs.Prelude.{◌≡◌, ◌≤◌, IfSome, IsTrue};
ghost use Rattle.std.specs.Char.{is_ascii_digit};
ghost use Rattle.std.specs.List.{list_all};
ghost use Rattle.load_script.specs.Words as spec;

/// A load: the number with which its draws begin, and how many chunks each caller has.
#[derive(Clone, Copy, Debug, PartialEq, Eq)]
pub struct Load {
    pub start: u64,
    pub chunks: u32,
}

fn are_digits(word: &[u8]) -> bool
    ensures { result ≡ list_all is_ascii_digit word.now }
{
    word.iter().all(|byte| byte.is_ascii_digit())
}

// Whether these are digits with no needless zero in front.
fn is_plain(word: &[u8]) -> bool
    ensures { result ≡ spec.is_plain word.now }
{
    match word {
        [] => false,
        [first, rest @ ..] => {
            if *first == b'0' {
                rest.is_empty()
            } else {
                are_digits(word)
            }
        }
    }
}

// Rust's own parse also takes a sign in front, and needless zeros.
#[tactic(auto, using(crate::proofs::Numbers::plain_parsed, crate::proofs::Numbers::not_plain))]
fn number_of(word: &str) -> Option<u64>
    ensures { result ≡ spec.number_of word.now }
{
    if is_plain(word.as_bytes()) {
        word.parse::<u64>().ok()
    } else {
        None
    }
}

/// The load that two words spell: plain digits with no needless zero in front, and 1 to 5,000 chunks.
#[tactic(auto, unfolding(crate::specs::Words::load_of))]
pub fn load_of(start: &str, chunks: &str) -> Option<Load>
    ensures told { result ≡ spec.load_of start.now chunks.now }
    ensures few { IfSome result (λ l. (1 ≤ l.chunks) × (l.chunks ≤ 5000)) }
{
    let start = number_of(start)?;
    let chunks = number_of(chunks)?;
    if chunks < 1 || 5_000 < chunks {
        return None;
    }
    Some(Load {
        start,
        chunks: chunks as u32,
    })
}
