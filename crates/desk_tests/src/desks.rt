// Desks of decoders, on which calls are made before threads work.
ghost use Rattle.std.specs.Prelude.{◌≡◌, ◌<◌, ◌+◌, ◌^◌, ◌≤◌, [], length, vec_capacity, IfOk};
ghost use Rattle.shared_codec.specs.Calls.{MayAlways};
ghost use Rattle.codec_desk.specs.Desks.{SitAt};
ghost use Rattle.desk_threads.specs.Accounts.{SawNone};
ghost use Rattle.desk_threads.specs.Parts.{HaveParts};
ghost use Rattle.desk_run.specs.Opened.{MayOpen};
ghost use Rattle.desk_tests.specs.Kept.{IsKept};

use crate::coders::{CountingClock, HeldCoder, Meeting, MeetingGate};
use bytes::Bytes;
use codec_desk::{Desk, Seats, Watch, call_once};
use codec_media::HoldingCore;
use codec_model::{Call, Kind, Opening};
use coder_api::Coder;
use desk_run::{Finished, complete_desk, open_desk, runs_begin};
use desk_threads::{accounts_are_kept, order_stands};
use sample_coder::{Coding, SampleCoder};
use sample_conversion::SampleSize;
use std::alloc::{AllocError, Global};
use std::sync::Wait;
use std::thread::Threads;
use wc_base::{NoMemory, Text, Who};
use wc_chunk::Chunk;
use wc_config::{AudioDecoderConfig, Config, Role};

// The first call of a decoder is a configure, and each other one a decode.
fn call_at(alloc: Global, step: u32) -> Result<Call, NoMemory>
    ensures { IfOk result MayAlways }
{
    if step == 0 {
        return Ok(Call::Configure(Config::AudioDecoder(AudioDecoderConfig {
            codec: Text::of(String::from_str(alloc, "pcm-s16")?),
            rate: 8000,
            channels: 1,
            description: None,
        })));
    }
    Ok(Call::Decode(Chunk {
        key: true,
        timestamp: 0,
        duration: None,
        bytes: Bytes::copy_from_slice(alloc, &[1, 0, 2, 0])?,
    }))
}

// The call of one step at one codec.
fn call_one<C: Coder, R: Wait>(
    rt: &R,
    alloc: Global,
    desk: &Desk<C>,
    seats: &mut Seats<C>,
    codec: usize,
    step: u32,
) -> Result<(), NoMemory>
    requires sits { SitAt desk.now seats.old }
    requires codec { codec < length desk.now.codecs.items }
    ensures { IsKept desk.now seats.old seats.new }
{
    let call = call_at(alloc, step)?;
    match call_once(rt, desk, seats, codec, Who { caller: 0, step }, call) {
        Ok(_) => Ok(()),
        Err(NoMemory) => Err(NoMemory),
    }
}

// The call of one step at each codec.
fn call_each<C: Coder, R: Wait>(
    rt: &R,
    alloc: Global,
    desk: &Desk<C>,
    seats: &mut Seats<C>,
    step: u32,
) -> Result<(), NoMemory>
    requires { SitAt desk.now seats.old }
    ensures { IsKept desk.now seats.old seats.new }
{
    for codec in 0..desk.codecs.len() {
        call_one(rt, alloc, desk, seats, codec, step)?;
    }
    Ok(())
}

// So many calls of each codec.
fn call_all<C: Coder, R: Wait>(
    rt: &R,
    alloc: Global,
    desk: &Desk<C>,
    seats: &mut Seats<C>,
    calls: u32,
) -> Result<(), NoMemory>
    requires { SitAt desk.now seats.old }
    ensures { IsKept desk.now seats.old seats.new }
{
    for step in 0..calls {
        call_each(rt, alloc, desk, seats, step)?;
    }
    Ok(())
}

// A decoder of PCM.
fn opening() -> Opening
    ensures { result.saturation ≡ 2 }
{
    Opening {
        kind: Kind::AudioDecoder,
        saturation: 2,
    }
}

/// So many decoders.
pub fn openings(alloc: Global, count: usize) -> Result<Vec<Opening>, AllocError>
    ensures may { IfOk result (λ v. MayOpen v.items) }
    ensures many { IfOk result (λ v. length v.items ≡ count) }
{
    let mut openings = Vec::with_capacity(alloc, count)?;
    for _ in 0..count {
        openings.push_reserved(opening());
    }
    Ok(openings)
}

// So many clocks, with gates at this meeting.
fn watches(
    alloc: Global,
    count: usize,
    meeting: &Meeting,
) -> Result<Vec<Watch<CountingClock, MeetingGate>>, AllocError>
    ensures { IfOk result (λ v. length v.items ≡ count) }
{
    let mut watches = Vec::with_capacity(alloc, count)?;
    for _ in 0..count {
        let meeting = meeting.again()?;
        watches.push_reserved(Watch {
            clock: CountingClock { asked: 0 },
            gate: MeetingGate { meeting },
        });
    }
    Ok(watches)
}

/// A coder for each of so many decoders of PCM, which are held at this meeting.
pub fn held_coders(
    alloc: Global,
    count: usize,
    meeting: &Meeting,
) -> Result<Vec<HeldCoder>, AllocError>
    ensures { IfOk result (λ v. length v.items ≡ count) }
{
    let mut coders = Vec::with_capacity(alloc, count)?;
    for _ in 0..count {
        let meeting = meeting.again()?;
        coders.push_reserved(HeldCoder {
            inner: SampleCoder::new(Role::Decode, Coding::Pcm(SampleSize::Two)),
            meeting,
        });
    }
    Ok(coders)
}

// The calls of each codec of a desk that nobody has used, and then what is left to do.
fn call_and_complete<C: Coder, R: Threads + Wait + Sync>(
    rt: &R,
    alloc: Global,
    desk: Desk<C>,
    mut seats: Seats<C>,
    calls: u32,
    watches: Vec<Watch<CountingClock, MeetingGate>>,
    mut gate: MeetingGate,
    cores: Vec<HoldingCore<C>>,
) -> Result<Finished<C>, NoMemory>
    requires sits { SitAt desk seats }
    requires parts { HaveParts (2 ^ 32) seats }
    requires none { SawNone seats }
    requires few { length watches.items + 1 ≤ 2 ^ 32 }
    requires empty { cores.items ≡ [] }
    requires room { length desk.codecs.items ≤ vec_capacity cores }
{
    accounts_are_kept::<C>();
    order_stands::<C>();
    runs_begin::<C>();
    let called = call_all(rt, alloc, &desk, &mut seats, calls);
    let mut clock = CountingClock { asked: 0 };
    let left = complete_desk(
        rt, alloc, desk, seats, watches, &mut clock, &mut gate, cores,
    );
    called?;
    Ok(left)
}

/// What so many decoders leave, each with so many calls, a configure and then decodes, that a turner
/// and workers do in threads. The configures meet in their coders, and all jobs before they are
/// performed.
pub fn decode_by_threads<R: Threads + Wait + Sync>(
    rt: &R,
    alloc: Global,
    decoders: u8,
    workers: u8,
    calls: u32,
    in_coders: &Meeting,
    at_gates: &Meeting,
) -> Result<Finished<HeldCoder>, NoMemory> {
    let count = usize::from(decoders);
    let coders = held_coders(alloc, count, in_coders)?;
    let openings = openings(alloc, count)?;
    let watches = watches(alloc, usize::from(workers) + 1, at_gates)?;
    let gate = MeetingGate {
        meeting: at_gates.again()?,
    };
    let cores = Vec::with_capacity(alloc, count)?;
    let (desk, seats) = open_desk(alloc, openings.as_slice(), 0, coders)?;
    call_and_complete(rt, alloc, desk, seats, calls, watches, gate, cores)
}
