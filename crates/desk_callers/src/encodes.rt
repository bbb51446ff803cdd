// Encodes of a caller of what its variables hold.
ghost use Rattle.std.specs.Prelude.{ℕ, ◌≡◌, ◌<◌, [], IfOk, length};
ghost use Rattle.shared_codec.specs.Encodes.{EncodeTells};
ghost use Rattle.shared_pool.specs.Refs.{IsPoolRef};
ghost use Rattle.codec_desk.specs.Clocks.{EndsAt};
ghost use Rattle.codec_desk.specs.Desks.{SitAt};
ghost use Rattle.codec_desk.specs.Each.{Each, OneAt};
ghost use Rattle.codec_desk.specs.Runs.{EachRunsNone};
ghost use Rattle.script_types.specs.declared.steps.Step.TheVariants as step;
ghost use Rattle.script_types.specs.declared.steps.MediaStep.TheVariants as on_media;
ghost use Rattle.media_variables.specs.declared.lending.MediumFound.TheVariants as found;
ghost use Rattle.media_variables.specs.Variables.{lendable_at};
ghost use Rattle.media_variables.specs.Held.{AreOf, medium_found, seen_in};
ghost use Rattle.desk_callers.specs.Acts.{AreOpened, EncodedAs, StaySeats, Did};

use crate::calls::call_codec;
use crate::lending::LentVariable;
use codec_desk::{Desk, Seats};
use codec_model::{Call, Handed};
use coder_api::Coder;
use media_variables::{MediumFound, Variables};
use report_text::StepResult;
use script_types::{ScriptData, Variable};
use shared_codec::dues_add_up;
use std::sync::Wait;
use wc_base::{List, NoMemory, Who};
use wc_chunk::Chunk;

// An encode of the open medium that a variable holds, and its result. Where the codec accepts it, a clone of the medium's
// reference is made for it and kept; else none is made. Where memory is wanted no entry was made at the codec.
fn encode_open<C: Coder, R: Wait>(
    rt: &R,
    desk: &Desk<C>,
    seats: &mut Seats<C>,
    who: Who,
    codec: u32,
    variables: &mut Variables,
    variable: u32,
) -> Result<StepResult, NoMemory>
    requires sits { SitAt desk.now seats.old }
    requires codec { codec < length desk.now.codecs.items }
    requires held { AreOf (IsPoolRef desk.now.pool) variables.old }
    requires open { medium_found (lendable_at (seen_in variables.old) variable) ≡ found.Open }
    ensures sits { SitAt desk.now seats.new }
    ensures runs { EachRunsNone desk.now.codecs.items seats.old.codecs.items
        → EachRunsNone desk.now.codecs.items seats.new.codecs.items }
    ensures ends { Each (EndsAt [])
        desk.now.codecs.items seats.old.codecs.items seats.new.codecs.items }
    ensures stay { StaySeats desk.now seats.old seats.new }
    ensures held { AreOf (IsPoolRef desk.now.pool) variables.new }
    ensures same { seen_in variables.new ≡ seen_in variables.old }
    ensures encoded { let x = lendable_at (seen_in variables.old) variable in
        IfOk result (EncodedAs desk.now who codec x seats.old seats.new) }
{
    dues_add_up();
    let place = codec as usize;
    let mut lender = LentVariable::new(variables, variable);
    match desk.codecs[place].encode(
        rt,
        &mut seats.codecs[place],
        who,
        &mut lender,
        &desk.pool,
        &mut seats.pool,
    ) {
        Ok(reply) => Ok(StepResult::Call {
            codec,
            place: reply.place,
            error: reply.exception,
        }),
        Err(NoMemory) => Err(NoMemory),
    }
}

// An encode of a detached medium, which hands nothing, and its result. Where memory is wanted no entry was made.
fn encode_gone<C: Coder, R: Wait>(
    rt: &R,
    desk: &Desk<C>,
    seats: &mut Seats<C>,
    who: Who,
    codec: u32,
    variables: &Variables,
    variable: u32,
) -> Result<StepResult, NoMemory>
    requires sits { SitAt desk.now seats.old }
    requires codec { codec < length desk.now.codecs.items }
    requires gone { medium_found (lendable_at (seen_in variables.now) variable) ≡ found.Detached }
    ensures sits { SitAt desk.now seats.new }
    ensures runs { EachRunsNone desk.now.codecs.items seats.old.codecs.items
        → EachRunsNone desk.now.codecs.items seats.new.codecs.items }
    ensures ends { Each (EndsAt [])
        desk.now.codecs.items seats.old.codecs.items seats.new.codecs.items }
    ensures stay { StaySeats desk.now seats.old seats.new }
    ensures encoded { let x = lendable_at (seen_in variables.now) variable in
        IfOk result (EncodedAs desk.now who codec x seats.old seats.new) }
{
    call_codec(rt, desk, seats, who, codec, Call::Encode(Handed::Gone))
}

/// A step of a caller that encodes what a variable holds, unless that is absent. Where memory is wanted no entry was made at
/// the codec.
pub(crate) fn encode_step<C: Coder, R: Wait>(
    rt: &R,
    desk: &Desk<C>,
    seats: &mut Seats<C>,
    script: &ScriptData,
    media: &[List<Chunk>],
    who: Who,
    codec: u32,
    content: &Variable,
    results: &[StepResult],
    variables: &mut Variables,
) -> Result<StepResult, NoMemory>
    requires sits { SitAt desk.now seats.old }
    requires opened { AreOpened script.now desk.now.codecs.items }
    requires codec { codec < length desk.now.codecs.items }
    requires held { AreOf (IsPoolRef desk.now.pool) variables.old }
    ensures sits { SitAt desk.now seats.new }
    ensures runs { EachRunsNone desk.now.codecs.items seats.old.codecs.items
        → EachRunsNone desk.now.codecs.items seats.new.codecs.items }
    ensures ends { Each (EndsAt [])
        desk.now.codecs.items seats.old.codecs.items seats.new.codecs.items }
    ensures stay { StaySeats desk.now seats.old seats.new }
    ensures held { AreOf (IsPoolRef desk.now.pool) variables.new }
    ensures same { seen_in variables.new ≡ seen_in variables.old }
    ensures did { let vs = seen_in variables.old in let s = script.now in
        let x = step.Media (on_media.Encode codec content.now) in
        let did = Did s media.now desk.now who x results.now seats.old seats.new vs vs in
        IfOk result did }
{
    match variables.find_medium(content.step) {
        MediumFound::Absent => Ok(StepResult::Absent),
        MediumFound::Detached => {
            encode_gone(rt, desk, seats, who, codec, variables, content.step)
        }
        MediumFound::Open => { encode_open(rt, desk, seats, who, codec, variables, content.step) }
    }
}
