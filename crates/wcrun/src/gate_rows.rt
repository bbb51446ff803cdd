// Runs with threads, with gates and clocks of a test's own.
ghost use Rattle.work_moments.specs.Moments.{silent};

use crate::codecs::{all_codecs, coder_box, kind_of};
use crate::top;
use codec_desk::{Clock, Gate};
use std::alloc::{AllocError, Global};
use std::sync::atomic::{AtomicU64, Ordering};
use std::sync::{Arc, Wait};
use std::test::*;
use std::thread;
use std::thread::Threads;
use wc_base::{MemFiles, MemSink, NoMemory};
use wc_config::{CodecId, Role};

// Two callers that configure a decoder each, with no wait.
const TWO: &str =
    "{\"codecs\":[{\"name\":\"d\",\"kind\":\"audio-decoder\"},{\"name\":\"e\",\"kind\":\"audio-decoder\"}],\"callers\":[{\"name\":\"a\",\"steps\":[
{\"do\":\"configure\",\"on\":\"d\",\"config\":{\"codec\":\"pcm-s16\",\"sampleRate\":8000,\"numberOfChannels\":1}}]},{\"name\":\"b\",\"steps\":[
{\"do\":\"configure\",\"on\":\"e\",\"config\":{\"codec\":\"pcm-u8\",\"sampleRate\":8000,\"numberOfChannels\":1}}]}]}";

// A caller that configures four decoders, with no wait.
const FOUR: &str =
    "{\"codecs\":[{\"name\":\"d\",\"kind\":\"audio-decoder\"},{\"name\":\"e\",\"kind\":\"audio-decoder\"},
{\"name\":\"f\",\"kind\":\"audio-decoder\"},{\"name\":\"g\",\"kind\":\"audio-decoder\"}],\"callers\":[{\"name\":\"a\",\"steps\":[
{\"do\":\"configure\",\"on\":\"d\",\"config\":{\"codec\":\"pcm-s16\",\"sampleRate\":8000,\"numberOfChannels\":1}},
{\"do\":\"configure\",\"on\":\"e\",\"config\":{\"codec\":\"pcm-u8\",\"sampleRate\":8000,\"numberOfChannels\":1}},
{\"do\":\"configure\",\"on\":\"f\",\"config\":{\"codec\":\"pcm-s24\",\"sampleRate\":8000,\"numberOfChannels\":1}},
{\"do\":\"configure\",\"on\":\"g\",\"config\":{\"codec\":\"ulaw\",\"sampleRate\":8000,\"numberOfChannels\":1}}]}]}";

// Two decoders of one box: the second is configured once the first has nothing left to do.
const ONE_BOX: &str =
    "{\"codecs\":[{\"name\":\"f\",\"kind\":\"audio-decoder\"},{\"name\":\"g\",\"kind\":\"audio-decoder\"}],\"callers\":[{\"name\":\"a\",\"steps\":[
{\"do\":\"configure\",\"on\":\"f\",\"config\":{\"codec\":\"ulaw\",\"sampleRate\":8000,\"numberOfChannels\":1}},
{\"do\":\"flush\",\"on\":\"f\",\"as\":\"p\"},{\"do\":\"await\",\"promise\":\"p\"},
{\"do\":\"configure\",\"on\":\"g\",\"config\":{\"codec\":\"ulaw\",\"sampleRate\":8000,\"numberOfChannels\":1}},
{\"do\":\"flush\",\"on\":\"g\",\"as\":\"q\"},{\"do\":\"await\",\"promise\":\"q\"}]}]}";

// Holds each that comes until so many have come, but no longer than 10,000,000 turns.
#[derive(Clone, Drop)]
pub(crate) struct Meeting {
    come: Arc<AtomicU64, Global>,
    late: Arc<AtomicU64, Global>,
    wanted: u64,
}

impl Meeting {
    pub(crate) fn of(alloc: Global, wanted: u64) -> Result<Meeting, AllocError> {
        Ok(Meeting {
            come: Arc::new(alloc, AtomicU64::new(0))?,
            late: Arc::new(alloc, AtomicU64::new(0))?,
            wanted,
        })
    }

    fn again(&self) -> Result<Meeting, AllocError> {
        Ok(Meeting {
            come: Arc::try_clone(&self.come)?,
            late: Arc::try_clone(&self.late)?,
            wanted: self.wanted,
        })
    }

    // How many came, and how many of them waited in vain.
    fn counts(&self) -> (u64, u64) {
        (
            self.come.load(Ordering::SeqCst),
            self.late.load(Ordering::SeqCst),
        )
    }
}

impl Gate for Meeting {
    fn pass(&mut self, _codec: u32, _epoch: u64, _item: u64) {
        self.come.fetch_add(1, Ordering::SeqCst);
        for _ in 0..10_000_000 {
            if self.come.load(Ordering::SeqCst) >= self.wanted {
                return;
            }
            thread::yield_now();
        }
        self.late.fetch_add(1, Ordering::SeqCst);
    }
}

// A clock of which each moment, whichever thread it is given to, is more than ten seconds after the one before it.
#[derive(Clone, Drop)]
struct LeapingClock {
    last: Arc<AtomicU64, Global>,
}

impl Clock for LeapingClock {
    ghost told = { λ _. silent };

    fn now(&mut self) -> u64 {
        self.last.fetch_add(10_000_001, Ordering::SeqCst)
    }
}

// A run of a script with so many workers, with a box of the coder of each of these codecs, and with gates at this meeting.
pub(crate) fn run_on(
    rt: &(impl Threads + Wait + Sync + Alloc<A = Global>),
    script: &str,
    workers: &str,
    codecs: &[CodecId],
    meeting: &Meeting,
) -> Result<(u8, MemSink), Fail> {
    let alloc = rt.alloc();
    let name = String::from_str(alloc, "s.json")?;
    let file = Vec::from_slice(alloc, script.as_bytes())?;
    let mut files = MemFiles::open(alloc, vec![in alloc; (name, file)]?, Vec::new(alloc));
    let mut sink = MemSink::open(alloc, 131_072, Vec::new(alloc))?;
    let mut words = Vec::new(alloc);
    for word in ["run", "s.json", "--workers", workers] {
        words.push(String::from_str(alloc, word)?)?;
    }
    let mut coders = Vec::new(alloc);
    for codec in codecs {
        let kind = kind_of(Role::Decode, *codec);
        let coder = coder_box!(alloc, Role::Decode, kind, Err(NoMemory)?);
        coders.push(coder)?;
    }
    let last = Arc::new(alloc, AtomicU64::new(0))?;
    let clocks = vec![in alloc; LeapingClock { last }; 34]?;
    let gates = vec![in alloc; meeting.again()?; 34]?;
    let status = top(
        rt, alloc, &words, &mut files, &mut sink, coders, clocks, gates,
    );
    Ok((status, sink))
}

// How often this text stands in another.
pub(crate) fn count_of(text: &[u8], word: &[u8]) -> u64 {
    let mut all: u64 = 0;
    for place in 0..text.len() {
        if text[place..].starts_with(word) {
            all = all.saturating_add(1);
        }
    }
    all
}

#[test]
fn two_jobs_are_at_work_at_once(rt: HostRuntime) -> Result<(), Fail> {
    let meeting = Meeting::of(rt.alloc(), 2)?;
    let (status, _) = run_on(&rt, TWO, "2", all_codecs(), &meeting)?;
    assert_eq!(rt; status, 0);
    assert_eq!(rt; meeting.counts(), (2, 0));
    Ok(())
}

#[test]
fn four_workers_have_four_jobs_at_once(rt: HostRuntime) -> Result<(), Fail> {
    let meeting = Meeting::of(rt.alloc(), 4)?;
    let (status, _) = run_on(&rt, FOUR, "4", all_codecs(), &meeting)?;
    assert_eq!(rt; status, 0);
    assert_eq!(rt; meeting.counts(), (4, 0));
    Ok(())
}

#[test]
fn the_idle_codec_alone_is_reclaimed(rt: HostRuntime) -> Result<(), Fail> {
    let meeting = Meeting::of(rt.alloc(), 0)?;
    let (status, sink) = run_on(&rt, ONE_BOX, "2", &[CodecId::Ulaw], &meeting)?;
    assert_eq!(rt; status, 0);
    let text = sink.bytes();
    assert_eq!(rt; count_of(text, b" reclaim "), 1);
    assert_eq!(rt; count_of(text, b" resolved\n"), 2);
    assert_eq!(rt; count_of(text, b" acquire decode:ulaw 0\n"), 2);
    assert_eq!(rt; count_of(text, b" acquire decode:ulaw none 1 1\n"), 1);
    assert_eq!(rt; count_of(text, b" give decode:ulaw 0\n"), 1);
    Ok(())
}
