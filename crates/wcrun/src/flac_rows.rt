// Whole replays of FLAC decoders. The reports are written by hand from the rules of docs/FORMATS.md and RFC 9639.
use crate::tests::each_ends;
use std::test::Fail;

// Two frames of the stream of RFC 9639, appendix D.1: its own, verbatim with wasted bits, and one in mid/side. The rate and
// the channels of the config are not looked at.
const TWO_FRAMES: &str =
    r#"{"codecs":[{"name":"d","kind":"audio-decoder"}],"callers":[{"name":"a","steps":[
{"do":"configure","on":"d","config":{"codec":"flac","sampleRate":8000,"numberOfChannels":1,
"description":"664c6143800000221000100000000f00000f0ac442f0000000013e84b41807dc690307586a3dad1a2e0f"}},
{"do":"chunk","as":"c","init":{"type":"key","timestamp":0,"data":"fff869180000bf0358fd03128baa9a"}},
{"do":"decode","on":"d","chunk":"c"},
{"do":"chunk","as":"e","init":{"type":"key","timestamp":0,"data":"fff860a80001f4000001000001805824"}},
{"do":"decode","on":"d","chunk":"e"},
{"do":"flush","on":"d","as":"p"}]}],
"order":["a","a","a",{"start":"d"},{"done":"d","at":1},{"turn":"d"},{"turn":"d"},
{"start":"d"},{"done":"d","at":2},{"turn":"d"},{"turn":"d"},
"a","a",{"start":"d"},{"done":"d","at":3},{"turn":"d"},{"turn":"d"},
"a",{"start":"d"},{"done":"d","at":4},{"turn":"d"}]}"#;

const TWO_FRAMES_REPORT: &str = "wcrun report 1
caller a
0 d.0 ok
1 ok
2 d.1 ok
3 ok
4 d.10 ok
5 d.15 ok
codec d audio-decoder 4
0 a.0 configure = ok
1 a.2 decode = ok
2 start 0.0
3 done 0.0 1 ran 0
4 turn unblock
5 turn process
6 start 0.1
7 done 0.1 2 ran 1
8 turn dequeue
  dequeue
9 turn output
  output audio s16 44100 2 1 0 22 f463b028
10 a.4 decode = ok
11 start 0.2
12 done 0.2 3 ran 1
13 turn dequeue
  dequeue
14 turn output
  output audio s16 44100 2 2 0 45 0300000003000000
15 a.5 flush = ok
16 start 0.3
17 done 0.3 4 ran 0
18 turn flushed
  resolve 15
pool
slots
0 d.2 acquire decode:flac 0
held 0
end
";

// The first frame with another sum.
const OTHER_SUM: &str =
    r#"{"codecs":[{"name":"d","kind":"audio-decoder"}],"callers":[{"name":"a","steps":[
{"do":"configure","on":"d","config":{"codec":"flac","sampleRate":44100,"numberOfChannels":2,
"description":"664c6143800000221000100000000f00000f0ac442f0000000013e84b41807dc690307586a3dad1a2e0f"}},
{"do":"chunk","as":"c","init":{"type":"key","timestamp":0,"data":"fff869180000bf0358fd03128baa9b"}},
{"do":"decode","on":"d","chunk":"c"},
{"do":"flush","on":"d","as":"p"}]}],
"order":["a","a","a",{"start":"d"},{"done":"d","at":1},{"turn":"d"},{"turn":"d"},
{"start":"d"},{"done":"d","at":2},{"turn":"d"},{"turn":"d"},"a"]}"#;

// The first frame with a byte behind it.
const BYTE_BEHIND: &str =
    r#"{"codecs":[{"name":"d","kind":"audio-decoder"}],"callers":[{"name":"a","steps":[
{"do":"configure","on":"d","config":{"codec":"flac","sampleRate":44100,"numberOfChannels":2,
"description":"664c6143800000221000100000000f00000f0ac442f0000000013e84b41807dc690307586a3dad1a2e0f"}},
{"do":"chunk","as":"c","init":{"type":"key","timestamp":0,"data":"fff869180000bf0358fd03128baa9a00"}},
{"do":"decode","on":"d","chunk":"c"},
{"do":"flush","on":"d","as":"p"}]}],
"order":["a","a","a",{"start":"d"},{"done":"d","at":1},{"turn":"d"},{"turn":"d"},
{"start":"d"},{"done":"d","at":2},{"turn":"d"},{"turn":"d"},"a"]}"#;

const REFUSED_REPORT: &str = "wcrun report 1
caller a
0 d.0 ok
1 ok
2 d.1 ok
3 d.10 ok
codec d audio-decoder 4
0 a.0 configure = ok
1 a.2 decode = ok
2 start 0.0
3 done 0.0 1 ran 0
4 turn unblock
5 turn process
6 start 0.1
7 done 0.1 2 refused
8 turn dequeue
  dequeue
9 turn close EncodingError
  error EncodingError
10 a.3 flush = ok
  reject 10 InvalidStateError
pool
slots
0 d.2 acquire decode:flac 0
1 d.9 give decode:flac 0
held 0
end
";

// The second codec finds the one box out; the first is reclaimed 10 seconds after its last end, and no microsecond sooner.
const ONE_BOX: &str =
    r#"{"codecs":[{"name":"f","kind":"audio-decoder"},{"name":"g","kind":"audio-decoder"}],
"callers":[{"name":"a","steps":[
{"do":"configure","on":"f","config":{"codec":"flac","sampleRate":44100,"numberOfChannels":2,
"description":"664c6143800000221000100000000f00000f0ac442f0000000013e84b41807dc690307586a3dad1a2e0f"}},
{"do":"configure","on":"g","config":{"codec":"flac","sampleRate":44100,"numberOfChannels":2,
"description":"664c6143800000221000100000000f00000f0ac442f0000000013e84b41807dc690307586a3dad1a2e0f"}}]}],
"order":["a",{"start":"f"},{"done":"f","at":1000},{"turn":"f"},{"turn":"f"},
"a",{"start":"g"},{"done":"g","at":2000},{"turn":"g"},
{"reclaim":"f","at":10000999},{"reclaim":"f","at":10001000}]}"#;

const ONE_BOX_REPORT: &str = "wcrun report 1
caller a
0 f.0 ok
1 g.0 ok
codec f audio-decoder 4
0 a.0 configure = ok
1 start 0.0
2 done 0.0 1000 ran 0
3 turn unblock
4 turn process
5 reclaim 10001000
  error QuotaExceededError
codec g audio-decoder 4
0 a.1 configure = ok
1 start 0.0
2 done 0.0 2000 no-slot 1
3 turn close QuotaExceededError
  error QuotaExceededError
pool
slots
0 f.1 acquire decode:flac 0
1 g.1 acquire decode:flac none 1 1
2 f.5 give decode:flac 0
held 0
end
";

#[test]
fn frames_are_decoded_or_refused(rt: HostRuntime) -> Result<(), Fail> {
    let rows = [
        (TWO_FRAMES, 0, TWO_FRAMES_REPORT),
        (OTHER_SUM, 0, REFUSED_REPORT),
        (BYTE_BEHIND, 0, REFUSED_REPORT),
        (ONE_BOX, 0, ONE_BOX_REPORT),
    ];
    each_ends(&rt, &rows)
}
