ghost use Rattle.std.specs.Prelude.{◌≡◌, None, true};
ghost use Rattle.codec_queues.specs.Labels.{label_of};

use bytes::Bytes;
use codec_model::{Call, CodecState, Ended, Event, Kind, Opening};
use codec_queues::Machine;
use coder_api::Unit;
use std::alloc::{AllocError, Global};
use std::process::Abort;
use std::test::Fail;
use wc_base::{DomError, List, SampleFormat, Samples, SoundShape, Text};
use wc_chunk::Chunk;
use wc_config::{AudioDecoderConfig, Config, VideoDecoderConfig};

fn pcm(alloc: Global) -> Result<Call, AllocError> {
    Ok(Call::Configure(Config::AudioDecoder(AudioDecoderConfig {
        codec: Text::of(String::from_str(alloc, "pcm-s16")?),
        rate: 8000,
        channels: 1,
        description: None,
    })))
}

fn chunk(alloc: Global) -> Result<Call, AllocError> {
    Ok(Call::Decode(Chunk {
        key: true,
        timestamp: 0,
        duration: None,
        bytes: Bytes::from_vec(vec![in alloc; 1, 0, 2, 0]?)?,
    }))
}

fn unit(alloc: Global) -> Result<Unit, AllocError> {
    Ok(Unit::Sound(Samples {
        shape: SoundShape {
            format: SampleFormat::S16,
            rate: 8000,
            channels: 1,
            frames: 2,
            timestamp: 0,
        },
        bytes: Bytes::from_vec(vec![in alloc; 1, 0, 2, 0]?)?,
    }))
}

fn units(alloc: Global) -> Result<List<Unit>, AllocError> {
    Ok(List::of(vec![in alloc; unit(alloc)?]?))
}

// Makes a call, and tells whether it was queued.
fn call(machine: &mut Machine, call: Call) -> bool {
    machine.place() < 100
        && machine
            .call(&call)
            .is_ok_and(|answer| answer.exception.is_none())
}

fn start(machine: &mut Machine) -> bool {
    machine.place() < 100 && machine.start().is_some()
}

// Whether no config goes with an end.
fn is_bare(ended: &Ended) -> bool
    ensures { result ≡ true → label_of ended.now ≡ None }
{
    match ended {
        Ended::Ran(units) => match units.as_slice() {
            [] => true,
            [Unit::Sound(_), ..] => true,
            _ => false,
        },
        _ => false,
    }
}

fn ends(machine: &mut Machine, ended: Ended, moment: u64) -> bool {
    if machine.place() >= 100 || machine.running().is_none() || !is_bare(&ended) {
        return false;
    }
    machine.done(ended, moment, None);
    true
}

// Runs one item from its start to its end and then a turn.
fn work(machine: &mut Machine, ended: Ended, moment: u64) -> bool {
    start(machine) && ends(machine, ended, moment) && turn(machine)
}

fn turn(machine: &mut Machine) -> bool {
    machine.place() < 100
        && machine
            .turn()
            .is_some_and(|answer| !answer.showing.closes())
}

// The events that the front task shows.
fn shown(alloc: Global, machine: &mut Machine) -> Option<List<Event>> {
    if machine.place() >= 100 {
        return None;
    }
    let shown = machine.turn()?.showing.into_shown(alloc).ok()?;
    Some(shown.events)
}

fn ordinary(alloc: Global, machine: &mut Machine) -> Result<bool, AllocError> {
    let calls = call(machine, pcm(alloc)?)
        && call(machine, chunk(alloc)?)
        && call(machine, Call::Flush);
    let none = List::empty(alloc);
    let configured = work(machine, Ended::Ran(none), 1) && turn(machine);
    let decoded = work(machine, Ended::Ran(units(alloc)?), 2);
    Ok(calls && configured && decoded)
}

// The output is delivered, and the flush ends.
fn delivers(rt: &impl Abort, alloc: Global, machine: &mut Machine) -> Result<(), AllocError> {
    let output = Event::Output {
        number: 0,
        unit: unit(alloc)?,
    };
    let events = shown(alloc, machine).expect(rt, "an output");
    assert_eq!(rt; events.as_slice(), [output].as_slice());
    assert!(rt; start(machine));
    assert!(rt; ends(machine, Ended::Ran(List::empty(alloc)), 3));
    let events = shown(alloc, machine).expect(rt, "a promise");
    assert_eq!(rt; events.as_slice(), [Event::Resolve(2)].as_slice());
    Ok(())
}

fn ended(rt: &impl Abort, machine: &Machine) {
    assert_eq!(rt; machine.phase(), CodecState::Configured);
    assert_eq!(rt;
        (machine.place(), machine.size(), machine.progress()),
        (14, 0, Some(3))
    );
}

#[test]
fn ordinary_run(rt: HostRuntime) -> Result<(), Fail> {
    let alloc = rt.alloc();
    let opening = Opening {
        kind: Kind::AudioDecoder,
        saturation: 4,
    };
    let mut machine = Machine::open(alloc, opening).expect(&rt, "a machine");
    assert!(rt; ordinary(alloc, &mut machine)?);
    delivers(&rt, alloc, &mut machine)?;
    ended(&rt, &machine);
    Ok(())
}

fn raw_video(alloc: Global) -> Result<Call, AllocError> {
    Ok(Call::Configure(Config::VideoDecoder(VideoDecoderConfig {
        codec: Text::of(String::from_str(alloc, "x-raw-i420")?),
        width: Some(1),
        height: Some(1),
        aspect_width: None,
        aspect_height: None,
    })))
}

fn decode(alloc: Global, key: bool, bytes: &[u8]) -> Result<Call, AllocError> {
    Ok(Call::Decode(Chunk {
        key,
        timestamp: 0,
        duration: None,
        bytes: Bytes::from_vec(Vec::from_slice(alloc, bytes)?)?,
    }))
}

// Compares whether each chunk is refused.
fn each_is_refused(
    rt: &impl Abort,
    alloc: Global,
    machine: &Machine,
    rows: &[(bool, &[u8], bool)],
) -> Result<(), AllocError> {
    for (key, bytes, refused) in rows {
        let error = machine.error_of(&decode(alloc, *key, bytes)?);
        assert_eq!(rt; error, refused.then_some(DomError::Data));
    }
    Ok(())
}

#[test]
fn key_chunks_of_video_are_looked_at(rt: HostRuntime) -> Result<(), Fail> {
    let alloc = rt.alloc();
    let opening = Opening {
        kind: Kind::VideoDecoder,
        saturation: 4,
    };
    let mut machine = Machine::open(alloc, opening).expect(&rt, "a machine");
    assert!(rt; call(&mut machine, raw_video(alloc)?));
    let wanted: [(bool, &[u8], bool); 7] = [
        (true, &[0, 1, 2, 3], false),
        (true, &[1, 1, 2, 3], true),
        (true, &[1], true),
        (true, &[2], false),
        (true, &[], false),
        (false, &[0, 1, 2, 3], true),
        (false, &[], true),
    ];
    each_is_refused(&rt, alloc, &machine, &wanted)?;
    assert!(rt; call(&mut machine, decode(alloc, true, &[0, 1, 2, 3])?));
    let not_wanted: [(bool, &[u8], bool); 2] = [(true, &[1], false), (false, &[1], false)];
    each_is_refused(&rt, alloc, &machine, &not_wanted)?;
    Ok(())
}

// Decodes a chunk up to the end of its item.
fn decodes(alloc: Global, machine: &mut Machine, moment: u64) -> Result<bool, AllocError> {
    Ok(
        call(machine, chunk(alloc)?)
            && start(machine)
            && ends(machine, Ended::Ran(units(alloc)?), moment),
    )
}

// An output, a dequeue event and an output wait.
fn waits(alloc: Global, machine: &mut Machine) -> Result<bool, AllocError> {
    let none = List::empty(alloc);
    let configured = call(machine, pcm(alloc)?) && work(machine, Ended::Ran(none), 1);
    Ok(
        configured
            && turn(machine)
            && decodes(alloc, machine, 2)?
            && turn(machine)
            && decodes(alloc, machine, 3)?,
    )
}

#[test]
fn removed_tasks_are_passed_over(rt: HostRuntime) -> Result<(), Fail> {
    let alloc = rt.alloc();
    let opening = Opening {
        kind: Kind::AudioDecoder,
        saturation: 4,
    };
    let mut machine = Machine::open(alloc, opening).expect(&rt, "a machine");
    assert!(rt; waits(alloc, &mut machine)?);
    assert!(rt; call(&mut machine, Call::Reset));
    let events = shown(alloc, &mut machine).expect(&rt, "a dequeue event");
    assert_eq!(rt; events.as_slice(), [Event::Dequeue].as_slice());
    assert!(rt; shown(alloc, &mut machine).is_none());
    assert!(rt; call(&mut machine, pcm(alloc)?));
    assert!(rt; work(&mut machine, Ended::Ran(List::empty(alloc)), 4));
    assert!(rt; turn(&mut machine));
    assert!(rt; shown(alloc, &mut machine).is_none());
    Ok(())
}
