// Picks the codec that is reclaimed.
ghost use Rattle.std.specs.Prelude.{◌≡◌, IfNone, IfSome};
ghost use Rattle.reclaimer.specs.Picks.{is_inactive as the_inactive, is_background_decoder as the_background, comes_before as the_before, first_of as the_first, is_wanted, NoneIs, IsLeast, IsPicked, IsUnpicked};

use crate::holder::Holder;

// How long a codec counts as active after its last item ended, in microseconds.
const ACTIVITY: u64 = 10_000_000;

/// Why a codec may be reclaimed.
#[derive(Clone, Copy, Debug, PartialEq, Eq, Drop)]
pub(crate) enum Reason {
    Inactive,
    Background,
}

fn is_inactive(holder: &Holder, now: u64) -> bool
    ensures { result ≡ the_inactive now holder.now }
{
    now >= ACTIVITY && holder.progress <= now - ACTIVITY
}

fn is_background_decoder(holder: &Holder) -> bool
    ensures { result ≡ the_background holder.now }
{
    holder.decoder && holder.ground.is_background()
}

fn wants(reason: Reason, now: u64, holder: &Holder) -> bool
    ensures { result ≡ is_wanted reason now holder.now }
{
    match reason {
        Reason::Inactive => is_inactive(holder, now),
        Reason::Background => is_background_decoder(holder),
    }
}

fn comes_before(a: &Holder, b: &Holder) -> bool
    ensures { result ≡ the_before a.now b.now }
{
    a.progress < b.progress || a.progress == b.progress && a.codec <= b.codec
}

// The one of the two that comes first.
fn first_of(best: Option<Holder>, holder: &Holder) -> Holder
    ensures { result ≡ the_first best holder.now }
{
    match best {
        Some(best) if comes_before(&best, holder) => best,
        _ => *holder,
    }
}

// The first of the holders that are wanted for this reason.
fn least(list: &[Holder], reason: Reason, now: u64) -> Option<Holder>
    ensures none { IfNone result (NoneIs (is_wanted reason now) list.now) }
    ensures some { IfSome result (λ h. IsLeast (is_wanted reason now) list.now h) }
{
    let mut best = None;
    let mut rest = list;
    while let [holder, more @ ..] = rest {
        if wants(reason, now, holder) {
            best = Some(first_of(best, holder));
        }
        rest = more;
    }
    best
}

/// The codec that is reclaimed among those that hold a coder, at a moment in microseconds. It is the inactive one of least
/// progress: one is inactive from ten seconds after its last item ended on. Where none is inactive, it is the decoder in the
/// background of least progress. The least number decides between codecs of the same progress. `None` exactly where no holder
/// is inactive and none is a decoder in the background.
pub fn pick(list: &[Holder], now: u64) -> Option<u32>
    ensures none { IfNone result (IsUnpicked now list.now) }
    ensures some { IfSome result (IsPicked now list.now) }
{
    if let Some(holder) = least(list, Reason::Inactive, now) {
        return Some(holder.codec);
    }
    match least(list, Reason::Background, now) {
        Some(holder) => Some(holder.codec),
        None => None,
    }
}
