// One stream, from its config to its outputs, and handles that are not open.
use crate::answers::{AudioConfig, ChunkHead, EncoderNumbers, SamplesHead};
use crate::codec::AudioCodec;
use std::alloc::Global;
use std::process::Abort;
use std::test::Fail;

const HEAD: ChunkHead = ChunkHead {
    key: 1,
    has_duration: 0,
    timestamp: 7,
    duration: 0,
};

fn configured(rt: &impl Abort, alloc: Global) -> AudioCodec {
    let mut decoder = AudioCodec::open_decoder(alloc, 4);
    let config = AudioConfig {
        rate: 8000,
        channels: 1,
        has_description: 0,
    };
    let reply = decoder.configure_decoder(&config, b"pcm-s16", b"");
    assert_eq!(rt;
        (reply.status, reply.error, reply.place, reply.settled),
        (0, 0, 0, 0)
    );
    decoder
}

fn turn_is(rt: &impl Abort, decoder: &mut AudioCodec, word: u32, outputs: u64, settled: u64) {
    let turn = decoder.turn();
    assert_eq!(rt; (turn.status, turn.word, turn.error), (0, word, 0));
    assert_eq!(rt; (turn.outputs, turn.settled), (outputs, settled));
}

#[test]
fn a_stream_is_decoded(rt: HostRuntime) -> Result<(), Fail> {
    let mut decoder = configured(&rt, rt.alloc());
    assert_eq!(rt; decoder.decode(&HEAD, &[1, 0, 2, 0]).status, 0);
    let flush = decoder.flush();
    assert_eq!(rt; (flush.status, flush.place), (0, 2));
    assert_eq!(rt; decoder.work(1), 0);
    turn_is(&rt, &mut decoder, 1, 0, 0);
    turn_is(&rt, &mut decoder, 2, 0, 0);
    let mut work = decoder.start();
    work.perform();
    assert_eq!(rt; decoder.done(work, 2), 0);
    turn_is(&rt, &mut decoder, 6, 0, 0);
    turn_is(&rt, &mut decoder, 4, 1, 0);
    let mut room = [9; 5];
    let output = decoder.output(0, &mut room);
    assert_eq!(rt;
        (output.status, output.format, output.rate, output.channels),
        (0, 1, 8000, 1)
    );
    assert_eq!(rt; (output.frames, output.timestamp, output.size), (2, 7, 4));
    assert_eq!(rt; room, [1, 0, 2, 0, 9]);
    assert_eq!(rt; decoder.output(1, &mut room).status, 1);
    assert_eq!(rt; decoder.work(3), 0);
    turn_is(&rt, &mut decoder, 5, 0, 1);
    let end = decoder.settled(0);
    assert_eq!(rt; (end.status, end.error, end.promise), (0, 0, 2));
    assert_eq!(rt; decoder.turn().status, 5);
    Ok(())
}

#[test]
fn sound_is_encoded(rt: HostRuntime) -> Result<(), Fail> {
    let mut encoder = AudioCodec::open_encoder(rt.alloc(), 4);
    let numbers = EncoderNumbers {
        rate: 8000,
        channels: 1,
        block_size: 0,
        level: 5,
        depth: 16,
    };
    let head = SamplesHead {
        format: 1,
        rate: 8000,
        channels: 1,
        frames: 8,
        timestamp: 7,
    };
    let early = encoder.encode(&head, &[0; 16]);
    assert_eq!(rt; (early.status, early.error, early.place), (1, 2, 0));
    assert_eq!(rt; encoder.configure_encoder(&numbers, b"ulaw").status, 0);
    assert_eq!(rt; encoder.encode(&head, &[0; 17]).status, 0);
    assert_eq!(rt; encoder.encode(&head, &[0; 15]).status, 4);
    assert_eq!(rt; encoder.work(1), 0);
    turn_is(&rt, &mut encoder, 1, 0, 0);
    turn_is(&rt, &mut encoder, 2, 0, 0);
    assert_eq!(rt; encoder.work(2), 0);
    turn_is(&rt, &mut encoder, 6, 0, 0);
    turn_is(&rt, &mut encoder, 4, 1, 0);
    let mut room = [9; 9];
    let chunk = encoder.chunk(0, &mut room);
    assert_eq!(rt; (chunk.status, chunk.key, chunk.has_config), (0, 1, 1));
    assert_eq!(rt; (chunk.has_duration, chunk.duration), (1, 1000));
    assert_eq!(rt; (chunk.timestamp, chunk.size), (7, 8));
    assert_eq!(rt; room, [255, 255, 255, 255, 255, 255, 255, 255, 9]);
    let config = encoder.config_codec(0, &mut room);
    assert_eq!(rt; (config.status, config.rate, config.channels), (0, 8000, 1));
    assert_eq!(rt; (config.has_description, config.size), (0, 4));
    assert_eq!(rt; room, [117, 108, 97, 119, 255, 255, 255, 255, 9]);
    assert_eq!(rt; encoder.config_description(0, &mut room).size, 0);
    assert_eq!(rt; encoder.output(0, &mut room).status, 1);
    Ok(())
}

#[test]
fn a_codec_of_the_other_kind_is_told(rt: HostRuntime) -> Result<(), Fail> {
    let mut encoder = AudioCodec::open_encoder(rt.alloc(), 4);
    assert_eq!(rt; encoder.decode(&HEAD, &[0, 0]).status, 6);
    let mut decoder = configured(&rt, rt.alloc());
    let head = SamplesHead {
        format: 1,
        rate: 8000,
        channels: 1,
        frames: 1,
        timestamp: 0,
    };
    assert_eq!(rt; decoder.encode(&head, &[0, 0]).status, 6);
    Ok(())
}

#[test]
fn pending_promises_are_rejected(rt: HostRuntime) -> Result<(), Fail> {
    let mut decoder = configured(&rt, rt.alloc());
    assert_eq!(rt; decoder.flush().status, 0);
    let reset = decoder.reset();
    assert_eq!(rt; (reset.status, reset.settled), (0, 1));
    let end = decoder.settled(0);
    assert_eq!(rt; (end.error, end.promise), (1, 1));
    let refused = decoder.decode(&HEAD, &[0, 0]);
    assert_eq!(rt; (refused.status, refused.error, refused.place), (1, 2, 3));
    assert_eq!(rt; decoder.close().status, 0);
    let look = decoder.look();
    assert_eq!(rt;
        (look.status, look.phase, look.size, look.entries),
        (0, 2, 0, 5)
    );
    Ok(())
}

#[test]
fn handles_that_are_not_open_are_told(rt: HostRuntime) -> Result<(), Fail> {
    assert_eq!(rt; AudioCodec::open_decoder(rt.alloc(), 65).look().status, 4);
    let mut decoder = configured(&rt, rt.alloc());
    let work = decoder.start();
    assert_eq!(rt; decoder.end(), 0);
    assert_eq!(rt; decoder.end(), 6);
    assert_eq!(rt;
        (
            decoder.flush().status,
            decoder.turn().status,
            decoder.work(0)
        ),
        (6, 6, 6)
    );
    assert_eq!(rt; (decoder.settled(0).status, decoder.look().status), (6, 6));
    assert_eq!(rt; decoder.done(work, 0), 6);
    Ok(())
}
