// Array buffers that steps hand on, and ports between callers, in replays and in runs with threads. The reports are written
// by hand from the rules of docs/FORMATS.md.
use crate::codecs::all_codecs;
use crate::gate_rows::{Meeting, count_of, run_on};
use crate::tests::{call, each_ends};
use std::alloc::Global;
use std::test::*;

// Sound takes the buffer over: its bytes are gone, for the next sound too, and a list that names it is refused.
const ADOPTED: &str = r#"{"codecs":[],"callers":[{"name":"a","steps":[
{"do":"buffer","as":"b","data":"01000200"},
{"do":"audio","as":"x","init":{"format":"s16","sampleRate":8000,"numberOfFrames":2,"numberOfChannels":1,
"timestamp":0,"data":{"buffer":"b"},"transfer":["b"]}},
{"do":"size","of":"b"},
{"do":"audio","as":"y","init":{"format":"s16","sampleRate":8000,"numberOfFrames":2,"numberOfChannels":1,
"timestamp":0,"data":{"buffer":"b"}}},
{"do":"chunk","as":"c","init":{"type":"key","timestamp":0,"data":"","transfer":["b"]}},
{"do":"close-data","of":"x"}]}],
"order":["a","a","a","a","a","a"]}"#;

const ADOPTED_REPORT: &str = "wcrun report 1
caller a
0 ok
1 ok
2 size 0
3 TypeError
4 DataCloneError
5 ok
pool
0 a.0 make 0 0
1 a.5 end 0 0 gone
slots
held 0
end
";

// Without a list the bytes are copied. A buffer that a list names twice is refused.
const NAMED_TWICE: &str = r#"{"codecs":[],"callers":[{"name":"a","steps":[
{"do":"buffer","as":"b","data":"01000200"},
{"do":"audio","as":"x","init":{"format":"s16","sampleRate":8000,"numberOfFrames":2,"numberOfChannels":1,
"timestamp":0,"data":{"buffer":"b"}}},
{"do":"audio","as":"y","init":{"format":"s16","sampleRate":8000,"numberOfFrames":2,"numberOfChannels":1,
"timestamp":0,"data":{"buffer":"b"},"transfer":["b","b"]}}]}],
"order":["a","a","a"]}"#;

const NAMED_TWICE_REPORT: &str = "wcrun report 1
caller a
0 ok
1 ok
2 DataCloneError
pool
0 a.0 make 0 0
1 a.1 make 1 1
slots
held 2
end
";

// A chunk keeps the bytes of the buffer that it ends.
const INTO_A_CHUNK: &str = r#"{"codecs":[],"callers":[{"name":"a","steps":[
{"do":"buffer","as":"b","data":"0100"},
{"do":"chunk","as":"c","init":{"type":"key","timestamp":0,"data":{"buffer":"b"},"transfer":["b"]}},
{"do":"copy","of":"c","size":2}]}],
"order":["a","a","a"]}"#;

const INTO_A_CHUNK_REPORT: &str = "wcrun report 1
caller a
0 ok
1 ok
2 copied 2 0100
pool
0 a.0 make 0 0
1 a.1 end 0 0 gone
slots
held 0
end
";

// A frame takes over the second buffer of its list; the others end in the order of the list, behind what is made.
const LISTED_OUT_OF_ORDER: &str = r#"{"codecs":[],"callers":[{"name":"a","steps":[
{"do":"buffer","as":"b","data":"00"},
{"do":"buffer","as":"c","data":"aabbccdd"},
{"do":"buffer","as":"d","data":""},
{"do":"frame","as":"f","init":{"format":"I420","codedWidth":1,"codedHeight":1,"timestamp":0,
"data":{"buffer":"c"},"transfer":["d","c","b"]}},
{"do":"copy","of":"f","size":3},
{"do":"buffer","as":"e","data":"0100"},
{"do":"buffer","as":"g","data":"0200"},
{"do":"audio","as":"x","init":{"format":"s16","sampleRate":8000,"numberOfFrames":1,"numberOfChannels":1,
"timestamp":0,"data":{"buffer":"g"},"transfer":["e"]}},
{"do":"size","of":"g"}]}],
"order":["a","a","a","a","a","a","a","a","a"]}"#;

const LISTED_OUT_OF_ORDER_REPORT: &str = "wcrun report 1
caller a
0 ok
1 ok
2 ok
3 ok
4 copied 3 0:1,1:1,2:1 aabbcc
5 ok
6 ok
7 ok
8 size 2
pool
0 a.0 make 0 0
1 a.1 make 1 1
2 a.2 make 2 2
3 a.3 end 2 2 gone
4 a.3 end 0 0 gone
5 a.5 make 3 3
6 a.6 make 4 4
7 a.7 make 5 5
8 a.7 end 3 3 gone
slots
held 3
end
";

// A port hands a medium on once, and a detached one is not posted.
const POSTED_ONCE: &str = r#"{"codecs":[],"callers":[{"name":"a","steps":[
{"do":"audio","as":"x","init":{"format":"s16","sampleRate":8000,"numberOfFrames":2,"numberOfChannels":1,
"timestamp":0,"data":"01000200"}},
{"do":"post","to":"q","data":"x"},
{"do":"post","to":"q","data":"x"}]},
{"name":"b","steps":[
{"do":"receive","from":"q","as":"y"},
{"do":"receive","from":"q","as":"z"},
{"do":"copy","of":"y","options":{"planeIndex":0},"size":4}]}],
"ports":[{"name":"q","of":"audio"}],
"order":["a","a","a","b","b","b"]}"#;

const POSTED_ONCE_REPORT: &str = "wcrun report 1
caller a
0 ok
1 ok
2 DataCloneError
caller b
0 from a.1
1 none
2 copied 4 01000200
pool
0 a.0 make 0 0
slots
held 1
end
";

// A receiver posts what it received; the oldest comes first, and what waits at the end is held.
const POSTED_ON: &str = r#"{"codecs":[],"callers":[{"name":"a","steps":[
{"do":"frame","as":"x","init":{"format":"I420","codedWidth":1,"codedHeight":1,"timestamp":0,"data":"010203"}},
{"do":"frame","as":"y","init":{"format":"I420","codedWidth":1,"codedHeight":1,"timestamp":0,"data":"040506"}},
{"do":"post","to":"q","data":"y"},
{"do":"post","to":"q","data":"x"}]},
{"name":"b","steps":[
{"do":"receive","from":"q","as":"y"},
{"do":"post","to":"r","data":"y"},
{"do":"receive","from":"r","as":"z"},
{"do":"size","of":"y"},
{"do":"copy","of":"z","size":3},
{"do":"close-data","of":"z"}]}],
"ports":[{"name":"q","of":"frame"},{"name":"r","of":"frame"}],
"order":["a","a","a","a","b","b","b","b","b","b"]}"#;

const POSTED_ON_REPORT: &str = "wcrun report 1
caller a
0 ok
1 ok
2 ok
3 ok
caller b
0 from a.2
1 ok
2 from b.1
3 InvalidStateError
4 copied 3 0:1,1:1,2:1 040506
5 ok
pool
0 a.0 make 0 0
1 a.1 make 1 1
2 b.5 end 1 1 gone
slots
held 1
end
";

// Sound that waits in the port while the first decoder's job waits for the second's.
const WAITING: &str =
    r#"{"codecs":[{"name":"d","kind":"audio-decoder"},{"name":"e","kind":"audio-decoder"}],
"callers":[{"name":"a","steps":[
{"do":"audio","as":"x","init":{"format":"s16","sampleRate":8000,"numberOfFrames":2,"numberOfChannels":1,
"timestamp":0,"data":"01000200"}},
{"do":"post","to":"q","data":"x"},
{"do":"configure","on":"e","config":{"codec":"pcm-s16","sampleRate":8000,"numberOfChannels":1}}]},
{"name":"c","steps":[
{"do":"configure","on":"d","config":{"codec":"pcm-s16","sampleRate":8000,"numberOfChannels":1}},
{"do":"flush","on":"d","as":"p"},
{"do":"await","promise":"p"},
{"do":"receive","from":"q","as":"y"}]}],
"ports":[{"name":"q","of":"audio"}]}"#;

// The steps of a sender, each pair for one medium, and those of the receiver; # stands for the pair's number.
const SENT: &str =
    r#"{"do":"audio","as":"x#","init":{"format":"u8","sampleRate":8000,"numberOfFrames":1,
"numberOfChannels":1,"timestamp":0,"data":"00"}},{"do":"post","to":"q","data":"x#"}"#;

const GOT: &str = r#"{"do":"receive","from":"q","as":"y#"},{"do":"close-data","of":"y#"}"#;

const SENDS: u64 = 50;

const RECEIVES: u64 = 200;

// Adds so many pairs of steps.
fn push_pairs(text: &mut String, alloc: Global, pair: &str, many: u64) -> Result<(), Fail> {
    for time in 0..many {
        text.push_str(if time == 0 { "" } else { "," })?;
        let number = format!(in alloc; "{time}")?;
        for part in pair.split_inclusive('#') {
            match part.strip_suffix('#') {
                Some(front) => {
                    text.push_str(front)?;
                    text.push_str(&number)?;
                }
                None => text.push_str(part)?,
            }
        }
    }
    Ok(())
}

// Two senders, and a receiver that ends what it gets.
fn two_senders(alloc: Global) -> Result<String, Fail> {
    let mut text = String::from_str(
        alloc,
        r#"{"codecs":[],"ports":[{"name":"q","of":"audio"}],"callers":["#,
    )?;
    for (name, pair, many) in [("a", SENT, SENDS), ("b", SENT, SENDS), ("c", GOT, RECEIVES)] {
        text.push_str(if name == "a" { "" } else { "," })?;
        text.push_str(&format!(in alloc; "{{\"name\":\"{name}\",\"steps\":[")?)?;
        push_pairs(&mut text, alloc, pair, many)?;
        text.push_str("]}")?;
    }
    text.push_str("]}")?;
    Ok(text)
}

// Where this text stands first behind a place of another.
fn place_of(text: &[u8], from: usize, word: &[u8]) -> Option<usize> {
    for place in from..text.len() {
        if text[place..].starts_with(word) {
            return Some(place);
        }
    }
    None
}

// How many of a sender's posts a report names, where they are its first ones and stand in their order; and whether they do.
fn first_posts(alloc: Global, report: &[u8], sender: &str) -> Result<(u64, bool), Fail> {
    let (mut named, mut from) = (0, 0);
    for time in 0..SENDS {
        let step = time.wrapping_mul(2).wrapping_add(1);
        let word = format!(in alloc; " from {sender}.{step}\n")?;
        match place_of(report, from, word.as_bytes()) {
            Some(place) => (named, from) = (time.wrapping_add(1), place),
            None => break,
        }
    }
    let word = format!(in alloc; " from {sender}.")?;
    Ok((named, count_of(report, word.as_bytes()) == named))
}

#[test]
fn buffers_are_handed_on(rt: HostRuntime) -> Result<(), Fail> {
    let rows = [
        (ADOPTED, 0, ADOPTED_REPORT),
        (NAMED_TWICE, 0, NAMED_TWICE_REPORT),
        (INTO_A_CHUNK, 0, INTO_A_CHUNK_REPORT),
        (LISTED_OUT_OF_ORDER, 0, LISTED_OUT_OF_ORDER_REPORT),
    ];
    each_ends(&rt, &rows)
}

#[test]
fn ports_hand_media_on(rt: HostRuntime) -> Result<(), Fail> {
    let rows = [
        (POSTED_ONCE, 0, POSTED_ONCE_REPORT),
        (POSTED_ON, 0, POSTED_ON_REPORT),
    ];
    each_ends(&rt, &rows)
}

#[test]
fn a_receiver_gets_the_first_posts_of_each_sender(rt: HostRuntime) -> Result<(), Fail> {
    let alloc = rt.alloc();
    let script = two_senders(alloc)?;
    let file = Vec::from_slice(alloc, script.as_bytes())?;
    let words = ["run", "s.json", "--workers", "2"];
    let (status, sink) = call(&rt, file, &words, Vec::new(alloc), Vec::new(alloc))?;
    assert_eq!(rt; status, 0);
    let (a, a_alone) = first_posts(alloc, sink.bytes(), "a")?;
    let (b, b_alone) = first_posts(alloc, sink.bytes(), "b")?;
    assert!(rt; a_alone && b_alone);
    let left = SENDS.wrapping_mul(2).wrapping_sub(a).wrapping_sub(b);
    let held = format!(in alloc; "\nheld {left}\nend\n")?;
    assert!(rt; sink.bytes().ends_with(held.as_bytes()), "{held}");
    Ok(())
}

#[test]
fn a_medium_that_waits_is_received(rt: HostRuntime) -> Result<(), Fail> {
    let meeting = Meeting::of(rt.alloc(), 2)?;
    let (status, sink) = run_on(&rt, WAITING, "2", all_codecs(), &meeting)?;
    assert_eq!(rt; status, 0);
    assert_eq!(rt; count_of(sink.bytes(), b"\n3 from a.1\n"), 1);
    Ok(())
}
