use bytes::Bytes;
use codec_follow::Follower;
use codec_model::{Call, Entry, Event, Kind, Opening, Outcome, Shown, TurnWord};
use coder_api::Unit;
use std::alloc::{AllocError, Global};
use std::test::Fail;
use wc_base::{DomError, Ground, List, NoMemory, Text, Who};
use wc_chunk::Chunk;
use wc_config::{AudioDecoderConfig, Config, VideoDecoderConfig};

const OPENING: Opening = Opening {
    kind: Kind::AudioDecoder,
    saturation: 4,
};

const WHO: Who = Who { caller: 0, step: 0 };

fn called(call: Call) -> Entry {
    Entry::Call { who: WHO, call }
}

fn configure(alloc: Global, codec: &str) -> Result<Entry, AllocError> {
    let config = Config::AudioDecoder(AudioDecoderConfig {
        codec: Text::of(String::from_str(alloc, codec)?),
        rate: 8000,
        channels: 1,
        description: None,
    });
    Ok(called(Call::Configure(config)))
}

fn decode(alloc: Global) -> Result<Entry, AllocError> {
    Ok(called(Call::Decode(Chunk {
        key: true,
        timestamp: 0,
        duration: None,
        bytes: Bytes::from_vec(vec![in alloc; 1, 0, 2, 0]?)?,
    })))
}

fn flush() -> Entry {
    called(Call::Flush)
}

fn start(item: u64) -> Entry {
    Entry::Start { epoch: 0, item }
}

fn done(item: u64, outcome: Outcome) -> Entry {
    Entry::Done {
        epoch: 0,
        item,
        moment: item,
        outcome,
    }
}

fn ran(item: u64, units: u64) -> Entry {
    done(item, Outcome::Ran { units })
}

// The place of an output of this number.
fn blank(number: u64) -> Event {
    Event::Output {
        number,
        unit: Unit::Coded {
            chunk: Chunk {
                key: false,
                timestamp: 0,
                duration: None,
                bytes: Bytes::new(),
            },
            config: None,
        },
    }
}

// What the entries show, up to one that does not follow.
fn follow_all(
    alloc: Global,
    follower: &mut Follower,
    entries: &[Entry],
) -> Result<Vec<Shown>, NoMemory> {
    let mut all = Vec::new(alloc);
    for entry in entries {
        match follower.follow(entry)? {
            Some(shown) => {
                all.reserve(1)?;
                all.push_reserved(shown);
            }
            None => return Ok(all),
        }
    }
    Ok(all)
}

// A decode to the end of its item, which is told to have given so many units.
fn decoding(alloc: Global, units: u64) -> Result<Vec<Entry>, AllocError> {
    Ok(vec![in alloc;
        configure(alloc, "pcm-s16")?,
        decode(alloc)?,
        flush(),
        start(0),
        ran(0, 0),
        Entry::Turn,
        Entry::Turn,
        start(1),
        ran(1, units),
        Entry::Turn,
        Entry::Turn,
    ]?)
}

// How many of the entries follow from the opening on.
fn followed(alloc: Global, entries: &[Entry]) -> Result<usize, NoMemory> {
    let mut follower = Follower::open(alloc, OPENING)?;
    Ok(follow_all(alloc, &mut follower, entries)?.len())
}

fn configuring(alloc: Global, codec: &str, outcome: Outcome) -> Result<Vec<Entry>, AllocError> {
    Ok(vec![in alloc; configure(alloc, codec)?, start(0), done(0, outcome)]?)
}

// Whether this end of the first configure item follows.
fn ends(alloc: Global, codec: &str, outcome: Outcome) -> Result<bool, NoMemory> {
    let entries = configuring(alloc, codec, outcome)?;
    Ok(followed(alloc, entries.as_slice())? == 3)
}

#[test]
fn ordinary_run(rt: HostRuntime) -> Result<(), Fail> {
    let alloc = rt.alloc();
    let mut follower = Follower::open(alloc, OPENING).expect(&rt, "a follower");
    let entries = decoding(alloc, 3)?;
    let shown = follow_all(alloc, &mut follower, entries.as_slice()).expect(&rt, "memory");
    assert_eq!(rt; shown.len(), 11);
    let dequeue = List::of(vec![in alloc; Event::Dequeue]?);
    assert_eq!(rt;
        shown[9],
        Shown {
            turn: Some(TurnWord::Dequeue),
            events: dequeue
        }
    );
    let outputs = List::of(vec![in alloc; blank(0), blank(1), blank(2)]?);
    assert_eq!(rt;
        shown[10],
        Shown {
            turn: Some(TurnWord::Output),
            events: outputs
        }
    );
    let rest = vec![in alloc; start(2), ran(2, 1), Entry::Turn]?;
    let shown = follow_all(alloc, &mut follower, rest.as_slice()).expect(&rt, "memory");
    assert_eq!(rt; shown.len(), 3);
    let flushed = List::of(vec![in alloc; blank(3), Event::Resolve(2)]?);
    assert_eq!(rt;
        shown[2],
        Shown {
            turn: Some(TurnWord::Flushed),
            events: flushed
        }
    );
    Ok(())
}

#[test]
fn starts_and_turns(rt: HostRuntime) -> Result<(), Fail> {
    let alloc = rt.alloc();
    let nothing = vec![in alloc; start(0)]?;
    assert_eq!(rt;
        followed(alloc, nothing.as_slice()).expect(&rt, "memory"),
        0
    );
    let other = vec![in alloc; configure(alloc, "pcm-s16")?, start(1)]?;
    assert_eq!(rt; followed(alloc, other.as_slice()).expect(&rt, "memory"), 1);
    let end = vec![in alloc; configure(alloc, "pcm-s16")?, start(0), ran(1, 0)]?;
    assert_eq!(rt; followed(alloc, end.as_slice()).expect(&rt, "memory"), 2);
    let turn = vec![in alloc; configure(alloc, "pcm-s16")?, start(0), Entry::Turn]?;
    assert_eq!(rt; followed(alloc, turn.as_slice()).expect(&rt, "memory"), 2);
    Ok(())
}

#[test]
fn ends_of_configure_items(rt: HostRuntime) -> Result<(), Fail> {
    let alloc = rt.alloc();
    let slot = Outcome::NoSlot { entry: 0 };
    let none = Outcome::Ran { units: 0 };
    let one = Outcome::Ran { units: 1 };
    assert!(rt; ends(alloc, "pcm-s16", none).expect(&rt, "memory"));
    assert!(rt; !ends(alloc, "pcm-s16", one).expect(&rt, "memory"));
    assert!(rt; ends(alloc, "pcm-s16", slot).expect(&rt, "memory"));
    assert!(rt; !ends(alloc, "pcm-s17", slot).expect(&rt, "memory"));
    assert!(rt; ends(alloc, "pcm-s17", Outcome::Refused).expect(&rt, "memory"));
    assert!(rt; ends(alloc, "pcm-s17", Outcome::NoMemory).expect(&rt, "memory"));
    Ok(())
}

// A flush to the refusal of its item.
fn refusing(alloc: Global, configure: Entry) -> Result<Vec<Entry>, AllocError> {
    Ok(vec![in alloc;
        configure,
        flush(),
        start(0),
        ran(0, 0),
        Entry::Turn,
        Entry::Turn,
        start(1),
        done(1, Outcome::Refused),
    ]?)
}

#[test]
fn flush_is_not_refused(rt: HostRuntime) -> Result<(), Fail> {
    let alloc = rt.alloc();
    let entries = refusing(alloc, configure(alloc, "pcm-s16")?)?;
    assert_eq!(rt;
        followed(alloc, entries.as_slice()).expect(&rt, "memory"),
        7
    );
    Ok(())
}

#[test]
fn flush_of_raw_video_is_not_refused(rt: HostRuntime) -> Result<(), Fail> {
    let alloc = rt.alloc();
    let config = Config::VideoDecoder(VideoDecoderConfig {
        codec: Text::of(String::from_str(alloc, "x-raw-i420")?),
        width: Some(2),
        height: Some(2),
        aspect_width: None,
        aspect_height: None,
    });
    let entries = refusing(alloc, called(Call::Configure(config)))?;
    assert_eq!(rt;
        followed(alloc, entries.as_slice()).expect(&rt, "memory"),
        7
    );
    Ok(())
}

#[test]
fn reclaims(rt: HostRuntime) -> Result<(), Fail> {
    let alloc = rt.alloc();
    let mut follower = Follower::open(alloc, OPENING).expect(&rt, "a follower");
    let entries = decoding(alloc, 0)?;
    let early = Entry::Reclaim { moment: 10_000_000 };
    let late = Entry::Reclaim { moment: 10_000_001 };
    let shown = follow_all(alloc, &mut follower, entries.as_slice()).expect(&rt, "memory");
    assert_eq!(rt; shown.len(), 10);
    assert_eq!(rt; follower.follow(&early), Ok(None));
    let error = DomError::QuotaExceeded;
    let closed = List::of(vec![in alloc;
        Event::Reject { promise: 2, error },
        Event::ErrorCall(error),
    ]?);
    let shown = Shown {
        turn: None,
        events: closed,
    };
    assert_eq!(rt; follower.follow(&late), Ok(Some(shown)));
    Ok(())
}

#[test]
fn reclaims_in_the_background(rt: HostRuntime) -> Result<(), Fail> {
    let alloc = rt.alloc();
    let mut follower = Follower::open(alloc, OPENING).expect(&rt, "a follower");
    let entries = decoding(alloc, 0)?;
    let shown = follow_all(alloc, &mut follower, entries.as_slice()).expect(&rt, "memory");
    assert_eq!(rt; shown.len(), 10);
    let early = Entry::Reclaim { moment: 1 };
    for (to, may) in [
        (Ground::BackgroundEncoding, false),
        (Ground::Foreground, false),
        (Ground::Background, true),
    ] {
        let told = called(Call::Ground(to));
        assert!(rt; matches!(follower.follow(&told), Ok(Some(_))));
        assert_eq!(rt; matches!(follower.follow(&early), Ok(Some(_))), may);
    }
    Ok(())
}
