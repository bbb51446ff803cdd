// The steps of the callers, and the items of the order.
ghost use Rattle.std.specs.Prelude.{◌≡◌, ◌≤◌, ◌<◌, [], false, true, Some, OnOk, IfOk, is_some, length, slice_get, option_copied, option_map, None};
ghost use Rattle.codec_accounts.specs.Codec.{codec_at, state_of, AreGivable};
ghost use Rattle.codec_accounts.specs.Owed.{at};
ghost use Rattle.codec_model.specs.declared.entry.Entry.TheVariants as entry;
ghost use Rattle.codec_model.specs.declared.entry.Call.TheVariants.{Decode, Encode};
ghost use Rattle.codec_model.specs.Held.{adds_held};
ghost use Rattle.codec_model.specs.Replay.{may_call, encode_error, refused_as};
ghost use Rattle.media_accounts.specs.Accounts.{AreLent};
ghost use Rattle.media_variables.specs.Held.{medium_found};
ghost use Rattle.media_variables.specs.declared.lending.MediumFound.TheVariants as found;
ghost use Rattle.order_laws.specs.Course.{held_by_all};
ghost use Rattle.order_laws.specs.Ends.{is_listed, is_listed_end};
ghost use Rattle.script_types.specs.Names.{taken_from};
ghost use Rattle.script_types.specs.declared.steps.Step.TheVariants as a_step;
ghost use Rattle.media_variables.specs.Variables.{Brought, lendable_at, media_came, next_numbers};
ghost use Rattle.media_variables.specs.Variables.{taken_came, uses_port, variables_of};
ghost use Rattle.media_variables.specs.Variables.{post_came, posted_from, received_came};
ghost use Rattle.run_model.specs.Follow.{get_move, post_move, waiting_at};
ghost use Rattle.wc_replay.specs.Player.{is_use_within};
ghost use Rattle.run_model.specs.Follow.{Ask, with_result, after_move, advance, item_entry, call_move, encode_of, handle_move, media_move, take_move, found_at, look_of_flush, look_of_state, step_move, follow_item};
ghost use Rattle.run_model.specs.Recorded.{chunk_for, promise_after, steps_of, source_error};
ghost use Rattle.report_text.specs.declared.result.StepResult.TheVariants as came;
ghost use Rattle.script_types.specs.declared.script.OrderItem.TheVariants as item;
ghost use Rattle.wc_replay.specs.Desk.{IsNext};
ghost use Rattle.wc_replay.specs.Player.{IsInRange, NamesInRange, IsPlayable, call_in, encoded_by};

use crate::copied::copied_chunk;
use crate::desk::{Answer, Desk, Output};
use crate::moving::{call_at, desk_at, place_at, refusal_at, take_at};
use crate::ports::{Port, put_at, take_at as take_from};
use crate::results::{Results, made_by, note, result_of};
use codec_model::{Call, Handed, PromiseState};
use coder_api::Coder;
use media_variables::{CallerMedia, MediumFound};
use run_model::{StepResult, find_chunk, steps_of};
use script_types::{ChunkSource, MediaStep, OrderItem, ScriptData, Step};
use slot_registry::Slots;
use std::alloc::Global;
use std::marker::Model;
use wc_base::{By, DomError, List, NoMemory, Who};
use wc_chunk::Chunk;

/// The codecs, each caller's results so far, the callers' media, the registry of the boxes, and the ports.
#[derive(Drop)]
pub(crate) struct Player<C: Coder> {
    pub(crate) desks: Vec<Desk<C>>,
    pub(crate) callers: Vec<Results>,
    pub(crate) media: CallerMedia,
    pub(crate) slots: Slots<C>,
    pub(crate) ports: Vec<Port>,
}

impl<C: Coder> Model for Player<C> {
    ghost use Rattle.run_model.specs.Follow.{Course};

    ghost Value = { Course };

    ghost view = { λ p. record { callers = p.callers.items; codecs = p.desks.items; media = p.media; slots = p.slots; ports = p.ports.items } };
}

/// Whether the entry at this place of the codec with this number is listed.
fn is_listed(listed: &[(u32, u64)], codec: u32, place: u64) -> bool
    ensures { result ≡ is_listed listed.now codec place }
{
    listed
        .iter()
        .any(|entry| entry.0 == codec && entry.1 == place)
}

/// The exception of a chunk's init; a chunk of a file has none.
fn local_result(source: &ChunkSource) -> StepResult
    ensures { result ≡ came.Local (source_error source.now) }
{
    let error = match source {
        ChunkSource::Init(None) => Some(DomError::TypeErr),
        ChunkSource::Init(Some(_)) => None,
        ChunkSource::File { file: _, index: _ } => None,
    };
    StepResult::Local { error }
}

/// The codec and the place of a call, if the result is one.
fn call_in(flush: Option<&StepResult>) -> Option<(u32, u64)>
    ensures { result ≡ call_in (option_copied flush.entry) }
{
    match flush {
        Some(
            StepResult::Call {
                codec,
                place,
                error: _,
            },
        ) => Some((*codec, *place)),
        _ => None,
    }
}

/// The result of a call on the codec with this number.
fn call_result(codec: u32, answer: Answer) -> StepResult
    ensures { result ≡ came.Call codec answer.place answer.error }
{
    StepResult::Call {
        codec,
        place: answer.place,
        error: answer.error,
    }
}

/// What a look shows at the promise of the flush of this codec at this place.
fn look_at<C: Coder>(desks: &[Desk<C>], codec: u32, place: u64) -> StepResult
    ensures { let d = codec_at codec desks.now in
        result
        ≡ came.Look codec (length d.history) (promise_after d.opening d.history place) }
{
    match desks.get(codec as usize) {
        Some(desk) => {
            let (length, _, _) = desk.look();
            let end = desk.end_of(place);
            StepResult::Look { codec, length, end }
        }
        // A codec that is not there has no entry.
        None => StepResult::Look {
            codec,
            length: 0,
            end: PromiseState::Pending,
        },
    }
}

/// What a look shows at the promise of the flush that came to this result.
fn look_result<C: Coder>(desks: &[Desk<C>], flush: Option<&StepResult>) -> StepResult
    ensures { result ≡ look_of_flush desks.now (option_copied flush.entry) }
{
    let Some((codec, place)) = call_in(flush) else {
        return StepResult::Absent;
    };
    look_at(desks, codec, place)
}

/// What a look shows of a codec's state.
fn state_result<C: Coder>(desks: &[Desk<C>], codec: u32) -> StepResult
    requires { codec < length desks.now }
    ensures { result ≡ look_of_state codec (codec_at codec desks.now) }
{
    let (length, state, size) = desk_at(desks, codec).look();
    StepResult::State {
        codec,
        length,
        state,
        size,
    }
}

/// The result of a take of this output, whose entry stands at this place.
fn unit_result(codec: u32, place: u64, number: u64) -> StepResult
    ensures { result ≡ came.Unit codec place number }
{
    StepResult::Unit {
        codec,
        place,
        number,
    }
}

/// What a take shows that finds no output of a codec.
fn no_unit<C: Coder>(desks: &[Desk<C>], codec: u32) -> StepResult
    requires { codec < length desks.now }
    ensures { result ≡ came.NoUnit codec (length (codec_at codec desks.now).history) }
{
    let length = place_at(desks, codec);
    StepResult::NoUnit { codec, length }
}

/// The codec that a step on media takes an output of, if it takes one.
fn taken_from(step: &MediaStep) -> Option<u32>
    ensures { result ≡ taken_from (a_step.Media step.now) }
{
    match step {
        MediaStep::Take { on, .. } => Some(*on),
        _ => None,
    }
}

/// The codec and the variable of a step that encodes, if it is one.
fn encoded_by(step: &MediaStep) -> Option<(u32, u32)>
    ensures { result ≡ encoded_by step.now }
{
    match step {
        MediaStep::Encode { on, content } => Some((*on, content.step)),
        _ => None,
    }
}

fn step_at(steps: &[Step], number: usize) -> Option<&Step>
    ensures { option_copied result ≡ slice_get steps.now number }
{
    steps.get(number)
}

impl<C: Coder> Player<C> {
    /// A call of a caller that brings no reference.
    fn call(&mut self, who: Who, codec: u32, call: Call) -> Result<(), NoMemory>
        requires codec { codec < length self.old.codecs }
        requires may { let control = (state_of (codec_at codec self.old.codecs)).control in
            may_call call control ≡ true }
        requires none { adds_held (entry.Call who call) ≡ [] }
        requires givable { AreGivable self.old.codecs self.old.slots.history }
        requires lent { AreLent self.old.media.pool self.old.media.variables
            (held_by_all self.old) }
        ensures { OnOk result (self.new ≡ after_move (Ask who codec call) self.old) }
    {
        let Player {
            desks,
            callers,
            media,
            slots,
            ports: _,
        } = self;
        let answer = call_at(desks, slots, media, codec, who, call, None)?;
        note(callers, who.caller, call_result(codec, answer))
    }

    /// A step that calls no codec.
    fn answer(&mut self, who: Who, came: StepResult) -> Result<(), NoMemory>
        ensures { OnOk result (self.new ≡ with_result who.caller came self.old) }
    {
        note(&mut self.callers, who.caller, came)
    }

    /// The chunk of a caller's variable: its step made it or took it from a chunk file, or it was taken from an encoder.
    fn chunk(
        &self,
        media: &[List<Chunk>],
        steps: &[Step],
        caller: u32,
        variable: u32,
    ) -> Result<Option<Chunk>, NoMemory>
        ensures { let vs = variables_of caller self.now.media.variables in
            IfOk result (λ c. c ≡ chunk_for media.now steps.now vs variable) }
    {
        match find_chunk(media, steps, variable)? {
            Some(chunk) => Ok(Some(chunk)),
            None => self.media.chunk(caller, variable),
        }
    }

    /// A decode of the chunk that the variable holds, unless it is absent.
    fn decode(&mut self, who: Who, codec: u32, chunk: Option<Chunk>) -> Result<(), NoMemory>
        requires codec { codec < length self.old.codecs }
        requires givable { AreGivable self.old.codecs self.old.slots.history }
        requires lent { AreLent self.old.media.pool self.old.media.variables
            (held_by_all self.old) }
        ensures { OnOk result
            (self.new ≡ after_move (call_move who codec (option_map Decode chunk)) self.old) }
    {
        match chunk {
            Some(chunk) => self.call(who, codec, Call::Decode(chunk)),
            None => self.answer(who, StepResult::Absent),
        }
    }

    /// A look at the promise of the flush that is the caller's step with this number.
    fn look(&mut self, who: Who, flush: u32) -> Result<(), NoMemory>
        ensures { OnOk result
            (self.new
            ≡ with_result who.caller
            (look_of_flush self.old.codecs
            (slice_get (at who.caller self.old.callers) flush)) self.old) }
    {
        let flush = result_of(&self.callers, who.caller, flush);
        let came = look_result(&self.desks, flush);
        self.answer(who, came)
    }

    /// A look at a codec's state.
    fn look_at_state(&mut self, who: Who, codec: u32) -> Result<(), NoMemory>
        requires { codec < length self.old.codecs }
        ensures { OnOk result
            (self.new
            ≡ with_result who.caller
            (look_of_state codec (codec_at codec self.old.codecs)) self.old) }
    {
        let came = state_result(&self.desks, codec);
        self.answer(who, came)
    }

    /// An encode that the codec refuses, of data that is detached or is not.
    fn refuse(&mut self, who: Who, codec: u32, detached: bool) -> Result<(), NoMemory>
        requires codec { codec < length self.old.codecs }
        requires refused { let control = (state_of (codec_at codec self.old.codecs)).control in
            is_some (encode_error detached control) ≡ true }
        requires givable { AreGivable self.old.codecs self.old.slots.history }
        requires lent { AreLent self.old.media.pool self.old.media.variables
            (held_by_all self.old) }
        ensures { OnOk result
            (self.new ≡ after_move (Ask who codec (Encode (refused_as detached))) self.old) }
    {
        self.call(who, codec, Call::Encode(Handed::of_refused(detached)))
    }

    /// An encode that the codec accepts: it holds one reference more to the variable's medium from now on.
    fn lend(&mut self, who: Who, codec: u32, content: u32) -> Result<(), NoMemory>
        requires codec { codec < length self.old.codecs }
        requires accepted { let control = (state_of (codec_at codec self.old.codecs)).control in
            encode_error false control ≡ None }
        requires open { let vs = variables_of who.caller self.old.media.variables in
            medium_found (lendable_at vs content) ≡ found.Open }
        requires givable { AreGivable self.old.codecs self.old.slots.history }
        ensures { let d = codec_at codec self.old.codecs in
            let x = lendable_at (variables_of who.caller self.old.media.variables) content in
            OnOk result
            (self.new
            ≡ after_move
            (call_move who codec (option_map (encode_of self.old.media.pool d) x)) self.old) }
    {
        let place = place_at(&self.desks, codec);
        let cause = By::Codec { codec, place };
        let (medium, held) = self.media.lend(cause, who.caller, content)?;
        let call = Call::Encode(Handed::Cloned(medium));
        let Player {
            desks,
            callers,
            media,
            slots,
            ports: _,
        } = self;
        let answer = call_at(desks, slots, media, codec, who, call, Some(held))?;
        note(callers, who.caller, call_result(codec, answer))
    }

    /// An encode of a medium that is not detached.
    fn hand(&mut self, who: Who, codec: u32, content: u32) -> Result<(), NoMemory>
        requires codec { codec < length self.old.codecs }
        requires open { let vs = variables_of who.caller self.old.media.variables in
            medium_found (lendable_at vs content) ≡ found.Open }
        requires givable { AreGivable self.old.codecs self.old.slots.history }
        requires lent { AreLent self.old.media.pool self.old.media.variables
            (held_by_all self.old) }
        ensures { let d = codec_at codec self.old.codecs in
            let x = lendable_at (variables_of who.caller self.old.media.variables) content in
            OnOk result
            (self.new
            ≡ after_move
            (call_move who codec (option_map (encode_of self.old.media.pool d) x)) self.old) }
    {
        match refusal_at(&self.desks, codec, false) {
            Some(_) => self.refuse(who, codec, false),
            None => self.lend(who, codec, content),
        }
    }

    /// An encode of the medium that the variable holds, unless it is absent.
    fn encode(&mut self, who: Who, codec: u32, content: u32) -> Result<(), NoMemory>
        requires codec { codec < length self.old.codecs }
        requires givable { AreGivable self.old.codecs self.old.slots.history }
        requires lent { AreLent self.old.media.pool self.old.media.variables
            (held_by_all self.old) }
        ensures { let d = codec_at codec self.old.codecs in
            let x = lendable_at (variables_of who.caller self.old.media.variables) content in
            OnOk result
            (self.new
            ≡ after_move
            (call_move who codec (option_map (encode_of self.old.media.pool d) x)) self.old) }
    {
        match self.media.find_medium(who.caller, content) {
            MediumFound::Absent => self.answer(who, StepResult::Absent),
            MediumFound::Detached => self.refuse(who, codec, true),
            MediumFound::Open => self.hand(who, codec, content),
        }
    }

    /// A step on media of a caller that is its own, and its answer; `chunk` is the one that the step copies, if it copies
    /// one.
    fn handle(
        &mut self,
        alloc: Global,
        who: Who,
        chunk: Option<Chunk>,
        step: &MediaStep,
    ) -> Result<(), NoMemory>
        requires there { who.caller < length self.old.media.variables }
        requires ports { uses_port step.now ≡ false }
        ensures { let b : Brought = record { chunk = chunk; taken = None; received = None } in
            OnOk result
            (self.new
            ≡ after_move
            (handle_move who
            (media_came (next_numbers self.old.media.pool) who b step.now
            (variables_of who.caller self.old.media.variables))) self.old) }
    {
        match self.media.step(alloc, who, chunk, step)? {
            Some(came) => note(&mut self.callers, who.caller, came),
            None => Ok(()),
        }
    }

    /// A take of a caller: this output, the codec's next one, becomes what the step's variable holds.
    fn take_output(&mut self, who: Who, codec: u32, output: Output) -> Result<(), NoMemory>
        requires codec { codec < length self.old.codecs }
        requires caller { who.caller < length self.old.media.variables }
        requires next { IsNext (codec_at codec self.old.codecs) (Some output) }
        requires givable { AreGivable self.old.codecs self.old.slots.history }
        requires lent { AreLent self.old.media.pool self.old.media.variables
            (held_by_all self.old) }
        ensures { let d = codec_at codec self.old.codecs in
            let numbers = next_numbers self.old.media.pool in
            let came = taken_came numbers who.step (found_at codec d)
            (variables_of who.caller self.old.media.variables) in
            OnOk result (self.new ≡ after_move (take_move who codec d came) self.old) }
    {
        let Player {
            desks,
            callers,
            media,
            slots,
            ports: _,
        } = self;
        let Output { number, unit } = output;
        let answer = call_at(desks, slots, media, codec, who, Call::Take(number), None)?;
        let came = media.take(who, unit, unit_result(codec, answer.place, number))?;
        note(callers, who.caller, came)
    }

    /// A take of a caller: the next output of the codec becomes what the step's variable holds, if one is left.
    fn receive(&mut self, who: Who, codec: u32) -> Result<(), NoMemory>
        requires codec { codec < length self.old.codecs }
        requires caller { who.caller < length self.old.media.variables }
        requires givable { AreGivable self.old.codecs self.old.slots.history }
        requires lent { AreLent self.old.media.pool self.old.media.variables
            (held_by_all self.old) }
        ensures { let d = codec_at codec self.old.codecs in
            let numbers = next_numbers self.old.media.pool in
            let came = taken_came numbers who.step (found_at codec d)
            (variables_of who.caller self.old.media.variables) in
            OnOk result (self.new ≡ after_move (take_move who codec d came) self.old) }
    {
        match desk_at(&self.desks, codec).next_output()? {
            Some(output) => self.take_output(who, codec, output),
            None => {
                let came = no_unit(&self.desks, codec);
                self.answer(who, came)
            }
        }
    }

    /// A step of a caller on media that uses no port.
    fn on_own_media(
        &mut self,
        alloc: Global,
        media: &[List<Chunk>],
        steps: &[Step],
        who: Who,
        step: &MediaStep,
        script: &ScriptData,
    ) -> Result<(), NoMemory>
        requires steps { steps_of script.now who.caller ≡ steps.now }
        requires range { NamesInRange (length self.old.codecs) (a_step.Media step.now) }
        requires ports { uses_port step.now ≡ false }
        requires caller { who.caller < length self.old.media.variables }
        requires givable { AreGivable self.old.codecs self.old.slots.history }
        requires lent { AreLent self.old.media.pool self.old.media.variables
            (held_by_all self.old) }
        ensures { OnOk result
            (self.new
            ≡ after_move (media_move script.now media.now who step.now self.old) self.old) }
    {
        match taken_from(step) {
            Some(codec) => self.receive(who, codec),
            None => match encoded_by(step) {
                Some((codec, content)) => self.encode(who, codec, content),
                None => {
                    let chunk = copied_chunk(media, steps, step)?;
                    self.handle(alloc, who, chunk, step)
                }
            },
        }
    }

    /// A post of a caller: the medium of its variable goes into a port, unless it is detached or absent.
    fn post(&mut self, who: Who, port: u64, content: u32) -> Result<(), NoMemory>
        requires port { port < length self.old.ports }
        requires caller { who.caller < length self.old.media.variables }
        ensures { let vs = variables_of who.caller self.old.media.variables in
            let came = Some (post_came content vs) in
            OnOk result
            (self.new ≡ after_move (post_move who port (posted_from vs content) came) self.old) }
    {
        let (came, medium) = self.media.post(who, content);
        put_at(&mut self.ports, port, who, medium)?;
        note(&mut self.callers, who.caller, came)
    }

    /// A receive of a caller: the oldest medium that waits in the port becomes what the step's variable holds, if one does.
    fn receive_from(&mut self, who: Who, port: u64) -> Result<(), NoMemory>
        requires port { port < length self.old.ports }
        requires caller { who.caller < length self.old.media.variables }
        requires lent { AreLent self.old.media.pool self.old.media.variables
            (held_by_all self.old) }
        ensures { let vs = variables_of who.caller self.old.media.variables in
            let came = Some (received_came who.step (waiting_at port self.old) vs) in
            OnOk result (self.new ≡ after_move (get_move who port came) self.old) }
    {
        match take_from(&mut self.ports, port) {
            Some(posted) => {
                let came = self.media.receive(who, posted.poster, posted.medium)?;
                note(&mut self.callers, who.caller, came)
            }
            None => self.answer(who, StepResult::Nothing),
        }
    }

    /// A step of a caller on media: a take of a codec's output, an encode, a post or a receive, or one that no codec has a
    /// part in.
    fn on_media(
        &mut self,
        alloc: Global,
        media: &[List<Chunk>],
        steps: &[Step],
        who: Who,
        step: &MediaStep,
        script: &ScriptData,
    ) -> Result<(), NoMemory>
        requires steps { steps_of script.now who.caller ≡ steps.now }
        requires range { NamesInRange (length self.old.codecs) (a_step.Media step.now) }
        requires ports { is_use_within (length self.old.ports) (a_step.Media step.now) ≡ true }
        requires caller { who.caller < length self.old.media.variables }
        requires givable { AreGivable self.old.codecs self.old.slots.history }
        requires lent { AreLent self.old.media.pool self.old.media.variables
            (held_by_all self.old) }
        ensures { OnOk result
            (self.new
            ≡ after_move (media_move script.now media.now who step.now self.old) self.old) }
    {
        match step {
            MediaStep::Post { to, content } => self.post(who, *to, content.step),
            MediaStep::Receive {
                from,
                bind: _,
                kind: _,
            } => self.receive_from(who, *from),
            _ => self.on_own_media(alloc, media, steps, who, step, script),
        }
    }

    /// A step of a caller, one of these steps of its own.
    fn step(
        &mut self,
        alloc: Global,
        media: &[List<Chunk>],
        steps: &[Step],
        who: Who,
        step: &Step,
        script: &ScriptData,
    ) -> Result<(), NoMemory>
        requires steps { steps_of script.now who.caller ≡ steps.now }
        requires range { NamesInRange (length self.old.codecs) step.now }
        requires ports { is_use_within (length self.old.ports) step.now ≡ true }
        requires caller { who.caller < length self.old.media.variables }
        requires givable { AreGivable self.old.codecs self.old.slots.history }
        requires lent { AreLent self.old.media.pool self.old.media.variables
            (held_by_all self.old) }
        ensures { OnOk result
            (self.new
            ≡ after_move (step_move script.now media.now who step.now self.old) self.old) }
    {
        match step {
            Step::Configure { on, config } => {
                let call = Call::Configure(config.copy()?);
                self.call(who, *on, call)
            }
            Step::Chunk { bind: _, source } => self.answer(who, local_result(source)),
            Step::Decode { on, chunk } => {
                let chunk = self.chunk(media, steps, who.caller, chunk.step)?;
                self.decode(who, *on, chunk)
            }
            Step::Flush { on, bind: _ } => self.call(who, *on, Call::Flush),
            Step::Poll { promise } => self.look(who, promise.step),
            Step::Await { promise } => self.look(who, promise.step),
            Step::Reset { on } => self.call(who, *on, Call::Reset),
            Step::Close { on } => self.call(who, *on, Call::Close),
            Step::State { on } => self.look_at_state(who, *on),
            Step::Ground { on, to } => self.call(who, *on, Call::Ground(*to)),
            Step::Media(handled) => self.on_media(alloc, media, steps, who, handled, script),
        }
    }

    /// The next step of a caller, if it has one.
    fn next(
        &mut self,
        alloc: Global,
        script: &ScriptData,
        media: &[List<Chunk>],
        caller: u32,
    ) -> Result<(), NoMemory>
        requires codecs { length self.old.codecs ≡ length script.now.codecs }
        requires callers { length self.old.media.variables ≡ length script.now.callers }
        requires ports { length self.old.ports ≡ length script.now.ports }
        requires playable { IsPlayable script.now }
        requires givable { AreGivable self.old.codecs self.old.slots.history }
        requires lent { AreLent self.old.media.pool self.old.media.variables
            (held_by_all self.old) }
        ensures { OnOk result
            (self.new ≡ follow_item script.now media.now false (item.Caller caller) self.old) }
    {
        let steps = steps_of(script, caller);
        let number = made_by(&self.callers, caller);
        match step_at(steps, number) {
            Some(step) => {
                let who = Who {
                    caller,
                    step: number as u32,
                };
                self.step(alloc, media, steps, who, step, script)
            }
            None => Ok(()),
        }
    }

    /// An item of the order that names the codec with this number, and whether its end wanted memory.
    fn advance(
        &mut self,
        alloc: Global,
        codec: u32,
        item: OrderItem,
        starved: bool,
    ) -> Result<bool, NoMemory>
        requires codec { codec < length self.old.codecs }
        requires givable { AreGivable self.old.codecs self.old.slots.history }
        requires lent { AreLent self.old.media.pool self.old.media.variables
            (held_by_all self.old) }
        ensures { IfOk result
            (λ wants. self.new
            ≡ after_move
            (advance codec (item_entry wants item (codec_at codec self.old.codecs))) self.old) }
    {
        let Player {
            desks,
            callers: _,
            media,
            slots,
            ports: _,
        } = self;
        take_at(desks, slots, media, codec, alloc, item, starved)
    }

    /// One item of the order. The answer is whether it is an end that wanted memory; where it is starved an end does, and
    /// the same stands for what is no end.
    pub(crate) fn take(
        &mut self,
        alloc: Global,
        script: &ScriptData,
        media: &[List<Chunk>],
        item: OrderItem,
        starved: bool,
    ) -> Result<bool, NoMemory>
        requires codecs { length self.old.codecs ≡ length script.now.codecs }
        requires callers { length self.old.media.variables ≡ length script.now.callers }
        requires ports { length self.old.ports ≡ length script.now.ports }
        requires playable { IsPlayable script.now }
        requires range { IsInRange (length self.old.codecs) item }
        requires givable { AreGivable self.old.codecs self.old.slots.history }
        requires lent { AreLent self.old.media.pool self.old.media.variables
            (held_by_all self.old) }
        ensures { IfOk result
            (λ wants. self.new ≡ follow_item script.now media.now wants item self.old) }
    {
        match item {
            OrderItem::Caller(caller) => {
                self.next(alloc, script, media, caller)?;
                Ok(starved)
            }
            OrderItem::Start(codec) => self.advance(alloc, codec, item, starved),
            OrderItem::Done { codec, at: _ } => self.advance(alloc, codec, item, starved),
            OrderItem::Turn(codec) => self.advance(alloc, codec, item, starved),
            OrderItem::Reclaim { codec, at: _ } => self.advance(alloc, codec, item, starved),
        }
    }

    /// Whether the item is an end whose entry would be a listed one.
    pub(crate) fn is_listed_end(&self, listed: &[(u32, u64)], item: OrderItem) -> bool
        requires { IsInRange (length self.now.codecs) item }
        ensures { result ≡ is_listed_end listed.now item self.now }
    {
        match item {
            OrderItem::Done { codec, at: _ } => {
                is_listed(listed, codec, place_at(&self.desks, codec))
            }
            _ => false,
        }
    }
}
