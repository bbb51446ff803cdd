// Takes of a caller of codecs' outputs.
ghost use Rattle.std.specs.Prelude.{ℕ, ◌≡◌, ◌∷◌, [], ◌<◌, Some, IfOk, OnErr, length, option_map};
ghost use Rattle.shared_pool.specs.Refs.{IsPoolRef};
ghost use Rattle.shared_codec.specs.Names.{taken_calls};
ghost use Rattle.shared_codec.specs.Takes.{OutputTells, TakeTells};
ghost use Rattle.codec_desk.specs.Clocks.{EndsAt};
ghost use Rattle.codec_desk.specs.Desks.{SitAt, Settled};
ghost use Rattle.codec_desk.specs.Each.{Each, OneAt};
ghost use Rattle.codec_desk.specs.Named.{Calls};
ghost use Rattle.codec_desk.specs.Runs.{EachRunsNone};
ghost use Rattle.script_types.specs.declared.steps.Step.TheVariants as step;
ghost use Rattle.script_types.specs.declared.steps.MediaStep.TheVariants as on_media;
ghost use Rattle.media_variables.specs.Held.{AreOf, seen_in};
ghost use Rattle.desk_callers.specs.Acts.{AreOpened, Helped, StaySeats, Did};
ghost use Rattle.desk_callers.specs.declared.takes.FoundOutput.TheVariants as found;
ghost use Rattle.desk_callers.specs.Takes.{IsFound, IsSighted, IsTried};

use codec_definitions::Unit;
use codec_desk::{Desk, Seats};
use coder_api::Coder;
use media_variables::Variables;
use report_text::StepResult;
use script_types::{ScriptData, VariableKind};
use shared_codec::{NextOutput, dues_add_up};
use shared_variables::take_at;
use std::sync::Wait;
use std::thread;
use wc_base::{List, NoMemory, Text, Who};
use wc_chunk::Chunk;

// What a take of a codec's outputs found: the output that it took, with its number and the place of the take's entry; or none,
// by a look after this many entries.
#[derive(Drop)]
enum FoundOutput {
    Taken { place: u64, number: u64, unit: Unit },
    Nothing { length: u64 },
}

// The number of entries of a codec, and its first output that was shown and not taken yet, by one look. Memory is wanted for
// the copy alone.
fn look_for_output<C: Coder, R: Wait>(
    rt: &R,
    desk: &Desk<C>,
    seats: &mut Seats<C>,
    codec: usize,
) -> Result<(u64, Option<NextOutput>), NoMemory>
    requires sits { SitAt desk.now seats.old }
    requires codec { codec < length desk.now.codecs.items }
    ensures sits { SitAt desk.now seats.new }
    ensures looked { OneAt codec (λ s a b. OutputTells s result a b)
        desk.now.codecs.items seats.old.codecs.items seats.new.codecs.items }
    ensures helped { Helped desk.now seats.old seats.new }
    ensures runs { EachRunsNone desk.now.codecs.items seats.old.codecs.items
        → EachRunsNone desk.now.codecs.items seats.new.codecs.items }
    ensures ends { Each (EndsAt [])
        desk.now.codecs.items seats.old.codecs.items seats.new.codecs.items }
{
    dues_add_up();
    desk.codecs[codec].look_for_output(rt, &mut seats.codecs[codec])
}

// A take of the output of this number, and the place of its entry; none where another thread took it.
fn take_output<C: Coder, R: Wait>(
    rt: &R,
    desk: &Desk<C>,
    seats: &mut Seats<C>,
    codec: usize,
    who: Who,
    number: u64,
) -> Result<Option<u64>, NoMemory>
    requires sits { SitAt desk.now seats.old }
    requires codec { codec < length desk.now.codecs.items }
    ensures sits { SitAt desk.now seats.new }
    ensures taken { OneAt codec (λ s a b. TakeTells s who number result a b)
        desk.now.codecs.items seats.old.codecs.items seats.new.codecs.items }
    ensures settled { Settled desk.now seats.old seats.new }
    ensures calls { Calls desk.now (taken_calls codec who number result) seats.old seats.new }
    ensures runs { EachRunsNone desk.now.codecs.items seats.old.codecs.items
        → EachRunsNone desk.now.codecs.items seats.new.codecs.items }
    ensures ends { Each (EndsAt [])
        desk.now.codecs.items seats.old.codecs.items seats.new.codecs.items }
{
    dues_add_up();
    desk.codecs[codec].take(rt, &mut seats.codecs[codec], who, number)
}

// What was found by a take of this output, if it was made.
fn found_by(taken: Option<u64>, next: NextOutput) -> Option<FoundOutput>
    ensures { result ≡ option_map (λ p. found.Taken p next.number next.unit) taken }
{
    let NextOutput { number, unit } = next;
    match taken {
        Some(place) => Some(FoundOutput::Taken {
            place,
            number,
            unit,
        }),
        None => None,
    }
}

// A take of an output that a look found; none where another thread took it in between.
fn take_found<C: Coder, R: Wait>(
    rt: &R,
    desk: &Desk<C>,
    seats: &mut Seats<C>,
    codec: usize,
    who: Who,
    next: NextOutput,
) -> Result<Option<FoundOutput>, NoMemory>
    requires sits { SitAt desk.now seats.old }
    requires codec { codec < length desk.now.codecs.items }
    requires sighted { IsSighted desk.now codec seats.old next }
    ensures sits { SitAt desk.now seats.new }
    ensures runs { EachRunsNone desk.now.codecs.items seats.old.codecs.items
        → EachRunsNone desk.now.codecs.items seats.new.codecs.items }
    ensures ends { Each (EndsAt [])
        desk.now.codecs.items seats.old.codecs.items seats.new.codecs.items }
    ensures stay { StaySeats desk.now seats.old seats.new }
    ensures tried { IfOk result (IsTried desk.now who codec seats.old seats.new) }
{
    match take_output(rt, desk, seats, codec, who, next.number) {
        Ok(taken) => Ok(found_by(taken, next)),
        Err(NoMemory) => Err(NoMemory),
    }
}

// A look for an output, and a take of it; none where another thread took it in between.
fn try_output<C: Coder, R: Wait>(
    rt: &R,
    desk: &Desk<C>,
    seats: &mut Seats<C>,
    codec: usize,
    who: Who,
) -> Result<Option<FoundOutput>, NoMemory>
    requires sits { SitAt desk.now seats.old }
    requires codec { codec < length desk.now.codecs.items }
    ensures sits { SitAt desk.now seats.new }
    ensures runs { EachRunsNone desk.now.codecs.items seats.old.codecs.items
        → EachRunsNone desk.now.codecs.items seats.new.codecs.items }
    ensures ends { Each (EndsAt [])
        desk.now.codecs.items seats.old.codecs.items seats.new.codecs.items }
    ensures stay { StaySeats desk.now seats.old seats.new }
    ensures tried { IfOk result (IsTried desk.now who codec seats.old seats.new) }
{
    let seen = match look_for_output(rt, desk, seats, codec) {
        Ok(seen) => seen,
        Err(NoMemory) => return Err(NoMemory),
    };
    let (length, next) = seen;
    match next {
        Some(next) => take_found(rt, desk, seats, codec, who, next),
        None => Ok(Some(FoundOutput::Nothing { length })),
    }
}

// A look for an output, and a take of it; again where another thread took it in between.
fn find_output<C: Coder, R: Wait>(
    rt: &R,
    desk: &Desk<C>,
    seats: &mut Seats<C>,
    codec: usize,
    who: Who,
) -> Result<FoundOutput, NoMemory>
    requires sits { SitAt desk.now seats.old }
    requires codec { codec < length desk.now.codecs.items }
    ensures sits { SitAt desk.now seats.new }
    ensures runs { EachRunsNone desk.now.codecs.items seats.old.codecs.items
        → EachRunsNone desk.now.codecs.items seats.new.codecs.items }
    ensures ends { Each (EndsAt [])
        desk.now.codecs.items seats.old.codecs.items seats.new.codecs.items }
    ensures stay { StaySeats desk.now seats.old seats.new }
    ensures found { IfOk result (IsFound desk.now who codec seats.old seats.new) }
{
    for _ in rt.forever() {
        let tried = match try_output(rt, desk, seats, codec, who) {
            Ok(tried) => tried,
            Err(NoMemory) => return Err(NoMemory),
        };
        match tried {
            Some(found) => return Ok(found),
            None => thread::yield_now(),
        }
    }
    unreachable!()
}

/// A step of a caller that takes the next output of a codec, if there is one. Where memory is wanted the caller's variables are
/// as they were; the output may have been taken.
pub(crate) fn take_step<C: Coder, R: Wait>(
    rt: &R,
    desk: &Desk<C>,
    seats: &mut Seats<C>,
    script: &ScriptData,
    media: &[List<Chunk>],
    who: Who,
    codec: u32,
    bind: &Text,
    kind: VariableKind,
    results: &[StepResult],
    variables: &mut Variables,
) -> Result<StepResult, NoMemory>
    requires sits { SitAt desk.now seats.old }
    requires opened { AreOpened script.now desk.now.codecs.items }
    requires codec { codec < length desk.now.codecs.items }
    requires held { AreOf (IsPoolRef desk.now.pool) variables.old }
    ensures sits { SitAt desk.now seats.new }
    ensures runs { EachRunsNone desk.now.codecs.items seats.old.codecs.items
        → EachRunsNone desk.now.codecs.items seats.new.codecs.items }
    ensures ends { Each (EndsAt [])
        desk.now.codecs.items seats.old.codecs.items seats.new.codecs.items }
    ensures stay { StaySeats desk.now seats.old seats.new }
    ensures held { AreOf (IsPoolRef desk.now.pool) variables.new }
    ensures did { let vs = seen_in variables.old in let after = seen_in variables.new in
        let x = step.Media (on_media.Take codec bind.now kind) in
        let s = script.now in let m = media.now in
        let did = Did s m desk.now who x results.now seats.old seats.new vs after in
        IfOk result did }
    ensures same { OnErr result (seen_in variables.new ≡ seen_in variables.old) }
{
    let found = find_output(rt, desk, seats, codec as usize, who)?;
    match found {
        FoundOutput::Taken {
            place,
            number,
            unit,
        } => {
            let answer = StepResult::Unit {
                codec,
                place,
                number,
            };
            take_at(
                rt,
                &desk.pool,
                &mut seats.pool,
                who,
                unit,
                answer,
                variables,
            )
        }
        FoundOutput::Nothing { length } => Ok(StepResult::NoUnit { codec, length }),
    }
}
