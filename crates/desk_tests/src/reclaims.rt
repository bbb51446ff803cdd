// Two decoders of mu-law that share one coder.
ghost use Rattle.std.specs.Prelude.{◌≡◌, ◌<◌, ◌^◌, ◌≤◌, [], length, vec_capacity, IfOk};
ghost use Rattle.shared_codec.specs.Calls.{MayAlways};
ghost use Rattle.codec_desk.specs.Desks.{SitAt};
ghost use Rattle.desk_threads.specs.Parts.{HaveParts};
ghost use Rattle.desk_tests.specs.Kept.{IsKept};

use crate::desks::openings;
use codec_desk::{Desk, OpenGate, Seats, call_once, turn_once, work_item};
use codec_media::HoldingCore;
use codec_model::Call;
use coder_api::Coder;
use desk_run::{Finished, finish_desk, open_desk};
use g711::Law;
use sample_coder::{Coding, SampleCoder};
use std::alloc::Global;
use std::sync::Wait;
use wc_base::{NoMemory, Text, Who};
use wc_config::{AudioDecoderConfig, Config, Role};
use work_moments::ListClock;

// The configure of a decoder of mu-law.
fn configure(alloc: Global) -> Result<Call, NoMemory>
    ensures { IfOk result MayAlways }
{
    Ok(Call::Configure(Config::AudioDecoder(AudioDecoderConfig {
        codec: Text::of(String::from_str(alloc, "ulaw")?),
        rate: 8000,
        channels: 1,
        description: None,
    })))
}

// One item of a codec, with a clock that gives this moment.
fn work_at<C: Coder, R: Wait>(
    rt: &R,
    alloc: Global,
    desk: &Desk<C>,
    seats: &mut Seats<C>,
    codec: usize,
    moment: u64,
) -> Result<(), NoMemory>
    requires sits { SitAt desk.now seats.old }
    requires codec { codec < length desk.now.codecs.items }
    ensures { IsKept desk.now seats.old seats.new }
{
    let mut moments = Vec::with_capacity(alloc, 1)?;
    moments.push_reserved(moment);
    let mut clock = ListClock::open(moments);
    let _ = work_item(rt, alloc, desk, seats, codec, &mut clock, &mut OpenGate);
    Ok(())
}

// A configure of a codec, its item at this moment, and two turns.
fn configure_at<C: Coder, R: Wait>(
    rt: &R,
    alloc: Global,
    desk: &Desk<C>,
    seats: &mut Seats<C>,
    codec: usize,
    moment: u64,
) -> Result<(), NoMemory>
    requires sits { SitAt desk.now seats.old }
    requires codec { codec < length desk.now.codecs.items }
    ensures { IsKept desk.now seats.old seats.new }
{
    let call = configure(alloc)?;
    if call_once(rt, desk, seats, codec, Who { caller: 0, step: 0 }, call).is_err() {
        return Err(NoMemory);
    }
    work_at(rt, alloc, desk, seats, codec, moment)?;
    let _ = turn_once(rt, desk, seats, codec);
    let _ = turn_once(rt, desk, seats, codec);
    Ok(())
}

// Both decoders, one after the other.
fn configure_both<C: Coder, R: Wait>(
    rt: &R,
    alloc: Global,
    desk: &Desk<C>,
    seats: &mut Seats<C>,
    first: u64,
    second: u64,
) -> Result<(), NoMemory>
    requires sits { SitAt desk.now seats.old }
    requires codecs { length desk.now.codecs.items ≡ 2 }
    ensures { IsKept desk.now seats.old seats.new }
{
    configure_at(rt, alloc, desk, seats, 0, first)?;
    configure_at(rt, alloc, desk, seats, 1, second)
}

// What is left of a desk of two decoders that were configured.
fn use_desk<C: Coder, R: Wait>(
    rt: &R,
    alloc: Global,
    desk: Desk<C>,
    mut seats: Seats<C>,
    first: u64,
    second: u64,
    cores: Vec<HoldingCore<C>>,
) -> Result<Finished<C>, NoMemory>
    requires sits { SitAt desk seats }
    requires codecs { length desk.codecs.items ≡ 2 }
    requires parts { HaveParts (2 ^ 32) seats }
    requires empty { cores.items ≡ [] }
    requires room { length desk.codecs.items ≤ vec_capacity cores }
{
    let used = configure_both(rt, alloc, &desk, &mut seats, first, second);
    let left = finish_desk(desk, seats, cores);
    used?;
    Ok(left)
}

/// What two decoders of mu-law leave that share one coder. Each is configured, worked on by a clock
/// that gives its moment, and turned, the first before the second.
pub fn two_configures<R: Wait>(
    rt: &R,
    alloc: Global,
    first: u64,
    second: u64,
) -> Result<Finished<SampleCoder>, NoMemory> {
    let mut coders = Vec::with_capacity(alloc, 1)?;
    coders.push_reserved(SampleCoder::new(Role::Decode, Coding::G711(Law::Ulaw)));
    let openings = openings(alloc, 2)?;
    let cores = Vec::with_capacity(alloc, 2)?;
    let (desk, seats) = open_desk(alloc, openings.as_slice(), 0, coders)?;
    use_desk(rt, alloc, desk, seats, first, second, cores)
}
