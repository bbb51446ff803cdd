// Ends of items as they stand.
ghost use Rattle.std.specs.Prelude.{◌≡◌, IfOk};
ghost use Rattle.codec_follow.specs.Follow.{blank as the_blank, blanks as the_blanks, ran_as, ended_by};
ghost use Rattle.codec_follow.specs.Followed.{known_with, known_after, nothing_known as the_nothing};

use crate::known::Known;
use bytes::Bytes;
use codec_model::{Call, Ended, Outcome, Work, WorkKind};
use coder_api::Unit;
use std::alloc::Global;
use wc_base::{DomError, List, NoMemory, try_push};
use wc_chunk::Chunk;

// The place of an output whose content is not told.
fn blank() -> Unit
    ensures { result ≡ the_blank }
{
    Unit::Coded {
        chunk: Chunk {
            key: false,
            timestamp: 0,
            duration: None,
            bytes: Bytes::new(),
        },
        config: None,
    }
}

// The places of so many outputs.
fn blanks(alloc: Global, units: u64) -> Result<List<Unit>, NoMemory>
    ensures { IfOk result (λ l. l ≡ the_blanks units) }
{
    let mut list = Vec::with_capacity(alloc, units as usize)?;
    for n in 0..units {
        try_push(&mut list, blank())?;
    }
    Ok(List::of(list))
}

// An item of this kind ran and gave so many units; a configure item gives none.
fn ran(alloc: Global, kind: WorkKind, units: u64) -> Result<Option<Ended>, NoMemory>
    ensures { IfOk result (λ e. e ≡ ran_as kind units) }
{
    match kind {
        WorkKind::Configure => {
            if units == 0 {
                Ok(Some(Ended::Ran(List::empty(alloc))))
            } else {
                Ok(None)
            }
        }
        WorkKind::Coded => Ok(Some(Ended::Ran(blanks(alloc, units)?))),
        WorkKind::Flush => Ok(Some(Ended::Ran(blanks(alloc, units)?))),
    }
}

/// How an item of this kind ends with this outcome as it stands; none exactly where that does not follow.
pub(crate) fn ended_as(
    alloc: Global,
    kind: WorkKind,
    known: Known,
    outcome: Outcome,
) -> Result<Option<Ended>, NoMemory>
    ensures { IfOk result (λ e. e ≡ ended_by kind known outcome) }
{
    match outcome {
        Outcome::Ran { units } => ran(alloc, kind, units),
        Outcome::Refused => Ok(match kind {
            WorkKind::Configure => Some(Ended::Refused),
            WorkKind::Coded => Some(Ended::Refused),
            WorkKind::Flush => None,
        }),
        Outcome::NoSlot { entry } => Ok(match kind {
            WorkKind::Configure => known.supported.then_some(Ended::NoSlot(entry)),
            WorkKind::Flush | WorkKind::Coded => None,
        }),
        Outcome::NoMemory => Ok(Some(Ended::NoMemory)),
    }
}

/// What is known where nothing was given.
pub(crate) fn nothing_known() -> Known
    ensures { result ≡ the_nothing }
{
    Known { supported: false }
}

/// What is known of the config that was last given, with one more item.
pub(crate) fn known_after_item(work: &Work, before: Known) -> Known
    ensures { result ≡ known_with work.now before }
{
    match work.config() {
        Some(config) => Known {
            supported: config.supported(),
        },
        None => before,
    }
}

/// What is known after a call, refused with this error or else made: nothing after a reset or close that was made.
pub(crate) fn known_after_call(call: &Call, error: Option<DomError>, before: Known) -> Known
    ensures { result ≡ known_after error call.now before }
{
    if call.removes() && error.is_none() {
        nothing_known()
    } else {
        before
    }
}
