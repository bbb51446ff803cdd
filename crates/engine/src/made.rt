// The steps of a codec that has queues.
ghost use Rattle.std.specs.Prelude.{◌≡◌, ◌≤◌, ◌+◌, ◌^◌, ◌↔◌, IsTrue, true};
ghost use Rattle.codec_model.specs.declared.entry.Call.TheVariants as call;
ghost use Rattle.codec_model.specs.Replay.{is_configured, may_call};
ghost use Rattle.engine.specs.Steps.{IsUsedUp, Called, Turned, Worked, Started, Returned, LooksAt};
ghost use Rattle.engine.specs.Steps.{handed_of};
ghost use Rattle.engine.specs.Told.{no_reply, no_turn, no_look};

use crate::answers::{
    DONE, IDLE, Look, NO_MEMORY, REFUSED, Reply, Turn, USED_UP, exception_code, phase_code,
    status_of,
};
use crate::coder::AudioCoder;
use crate::media::medium_of;
use crate::shown::{settled_count, told};
use crate::work::end_of;
use codec_live::{DoneJob, Job, LiveCore};
use codec_model::{Call, CodecState, Handed, Showing};
use std::alloc::Global;
use wc_base::{NoMemory, Samples};

pub(crate) fn no_reply(status: u32) -> Reply
    ensures { result ≡ no_reply status }
{
    Reply {
        status,
        error: 0,
        place: 0,
        settled: 0,
    }
}

pub(crate) fn no_turn(status: u32) -> Turn
    ensures { result ≡ no_turn status }
{
    Turn {
        status,
        word: 0,
        error: 0,
        outputs: 0,
        settled: 0,
        place: 0,
    }
}

/// Whether a step, and the end of an item that it begins, would be entries past the last.
pub(crate) fn is_used_up(core: &LiveCore<AudioCoder>) -> bool
    ensures { IsTrue result ↔ IsUsedUp core.now }
{
    core.place() >= u64::MAX - 1
}

/// A call.
#[tactic(auto, using(crate::proofs::Cases::called_made, crate::proofs::Cases::called_out_of_memory, crate::proofs::Cases::called_used_up))]
pub(crate) fn call_core(
    core: &mut LiveCore<AudioCoder>,
    showing: &mut Showing,
    call: &Call,
) -> Reply
    requires { may_call call.now core.old.control ≡ true }
    ensures { Called call.now core.old core.new showing.old showing.new result }
{
    if is_used_up(core) {
        return no_reply(USED_UP);
    }
    match core.call(call) {
        Ok(step) => {
            let answer = step.answer;
            *showing = answer.showing;
            Reply {
                status: status_of(answer.exception),
                error: exception_code(answer.exception),
                place: answer.place,
                settled: settled_count(showing),
            }
        }
        Err(NoMemory) => no_reply(NO_MEMORY),
    }
}

fn is_configured(core: &LiveCore<AudioCoder>) -> bool
    ensures { result ≡ is_configured core.now.control }
{
    match core.phase() {
        CodecState::Configured => true,
        CodecState::Unconfigured => false,
        CodecState::Closed => false,
    }
}

/// What becomes of samples that an encode is given.
fn handed_of(core: &LiveCore<AudioCoder>, samples: Samples) -> Handed
    ensures handed { result ≡ handed_of samples core.now.control }
    ensures may { may_call (call.Encode result) core.now.control ≡ true }
{
    if is_configured(core) {
        Handed::Cloned(medium_of(samples))
    } else {
        Handed::of_refused(false)
    }
}

/// An encode.
pub(crate) fn encode_core(
    core: &mut LiveCore<AudioCoder>,
    showing: &mut Showing,
    samples: Samples,
) -> Reply
    ensures { Called (call.Encode (handed_of samples core.old.control))
        core.old core.new showing.old showing.new result }
{
    let call = Call::Encode(handed_of(core, samples));
    call_core(core, showing, &call)
}

/// The front event task.
#[tactic(auto, using(crate::proofs::Cases::turned_made, crate::proofs::Cases::turned_idle, crate::proofs::Cases::turned_used_up))]
pub(crate) fn turn_core(core: &mut LiveCore<AudioCoder>, showing: &mut Showing) -> Turn
    ensures { Turned core.old core.new showing.old showing.new result }
{
    if is_used_up(core) {
        return no_turn(USED_UP);
    }
    match core.turn() {
        Some(step) => {
            let turned = step.answer;
            *showing = turned.showing;
            told(showing, turned.place)
        }
        None => no_turn(IDLE),
    }
}

/// The work of the front item, which ends at a moment in microseconds.
#[tactic(auto, using(crate::proofs::Cases::worked_made, crate::proofs::Cases::worked_idle, crate::proofs::Cases::worked_used_up))]
pub(crate) fn work_core(alloc: Global, core: &mut LiveCore<AudioCoder>, moment: u64) -> u32
    ensures { Worked moment core.old core.new result }
{
    if is_used_up(core) {
        return USED_UP;
    }
    match core.start() {
        Some(job) => {
            let end = end_of(alloc, job);
            let _ = core.done(end, moment);
            DONE
        }
        None => IDLE,
    }
}

/// The front item begins, and leaves.
pub(crate) fn start_core(core: &mut LiveCore<AudioCoder>) -> Option<Job<AudioCoder>>
    ensures { Started core.old core.new result }
{
    if is_used_up(core) {
        return None;
    }
    core.start()
}

/// The item at work ends by this end, where it is its own.
#[tactic(auto, using(crate::proofs::Cases::returned_made, crate::proofs::Cases::returned_other, crate::proofs::Cases::returned_used_up))]
pub(crate) fn done_core(
    core: &mut LiveCore<AudioCoder>,
    done: DoneJob<AudioCoder>,
    moment: u64,
) -> u32
    ensures { Returned moment done core.old core.new result }
{
    if is_used_up(core) {
        return USED_UP;
    }
    let (epoch, number) = done.number();
    if !core.is_at_work(epoch, number) {
        return REFUSED;
    }
    let _ = core.done(done, moment);
    DONE
}

pub(crate) fn look_core(core: &LiveCore<AudioCoder>) -> Look
    ensures { LooksAt core.now result }
{
    Look {
        status: DONE,
        phase: phase_code(core.phase()),
        size: core.size(),
        entries: core.place(),
    }
}

pub(crate) fn no_look(status: u32) -> Look
    ensures { result ≡ no_look status }
{
    Look {
        status,
        phase: 0,
        size: 0,
        entries: 0,
    }
}
