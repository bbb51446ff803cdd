// Whole replays in which codecs are told where they are at work. The reports are written by hand from the rules of
// docs/FORMATS.md.
use crate::tests::each_ends;
use std::test::Fail;

// An active decoder in the background is reclaimed.
const BACKGROUND: &str =
    r#"{"codecs":[{"name":"f","kind":"audio-decoder"}],"callers":[{"name":"a","steps":[
{"do":"configure","on":"f","config":{"codec":"ulaw","sampleRate":8000,"numberOfChannels":1}},
{"do":"ground","on":"f","to":"background"}]}],
"order":["a",{"start":"f"},{"done":"f","at":1000},{"turn":"f"},{"turn":"f"},"a",{"reclaim":"f","at":2000}]}"#;

const BACKGROUND_REPORT: &str = "wcrun report 1
caller a
0 f.0 ok
1 f.5 ok
codec f audio-decoder 4
0 a.0 configure = ok
1 start 0.0
2 done 0.0 1000 ran 0
3 turn unblock
4 turn process
5 a.1 ground background = ok
6 reclaim 2000
  error QuotaExceededError
pool
slots
0 f.1 acquire decode:ulaw 0
1 f.6 give decode:ulaw 0
held 0
end
";

// Where its page has an encoder at work, it is spared for ten seconds.
const ENCODING: &str =
    r#"{"codecs":[{"name":"f","kind":"audio-decoder"}],"callers":[{"name":"a","steps":[
{"do":"configure","on":"f","config":{"codec":"ulaw","sampleRate":8000,"numberOfChannels":1}},
{"do":"ground","on":"f","to":"background-encoding"}]}],
"order":["a",{"start":"f"},{"done":"f","at":1000},{"turn":"f"},{"turn":"f"},"a",{"reclaim":"f","at":2000},
{"reclaim":"f","at":10000999},{"reclaim":"f","at":10001000}]}"#;

const ENCODING_REPORT: &str = "wcrun report 1
caller a
0 f.0 ok
1 f.5 ok
codec f audio-decoder 4
0 a.0 configure = ok
1 start 0.0
2 done 0.0 1000 ran 0
3 turn unblock
4 turn process
5 a.1 ground background-encoding = ok
6 reclaim 10001000
  error QuotaExceededError
pool
slots
0 f.1 acquire decode:ulaw 0
1 f.6 give decode:ulaw 0
held 0
end
";

// So is an encoder, wherever it is at work.
const ENCODER: &str =
    r#"{"codecs":[{"name":"e","kind":"audio-encoder"}],"callers":[{"name":"a","steps":[
{"do":"configure","on":"e","config":{"codec":"ulaw","sampleRate":8000,"numberOfChannels":1}},
{"do":"ground","on":"e","to":"background"}]}],
"order":["a","a",{"start":"e"},{"done":"e","at":1000},{"reclaim":"e","at":2000},{"reclaim":"e","at":10001000}]}"#;

const ENCODER_REPORT: &str = "wcrun report 1
caller a
0 e.0 ok
1 e.1 ok
codec e audio-encoder 4
0 a.0 configure = ok
1 a.1 ground background = ok
2 start 0.0
3 done 0.0 1000 ran 0
4 reclaim 10001000
  error QuotaExceededError
pool
slots
0 e.2 acquire encode:ulaw 0
1 e.4 give encode:ulaw 0
held 0
end
";

// A ground is told in every state, and stays over a reset. A codec is not reclaimed before an item of its epoch ended.
const EVERY_STATE: &str =
    r#"{"codecs":[{"name":"d","kind":"audio-decoder"}],"callers":[{"name":"a","steps":[
{"do":"ground","on":"d","to":"background"},
{"do":"configure","on":"d","config":{"codec":"ulaw","sampleRate":8000,"numberOfChannels":1}},
{"do":"reset","on":"d"},
{"do":"configure","on":"d","config":{"codec":"ulaw","sampleRate":8000,"numberOfChannels":1}},
{"do":"ground","on":"d","to":"foreground"},
{"do":"configure","on":"d","config":{"codec":"ulaw","sampleRate":8000,"numberOfChannels":1}}]}],
"order":["a","a",{"start":"d"},{"done":"d","at":1},{"turn":"d"},{"turn":"d"},"a",{"reclaim":"d","at":2},"a",
{"reclaim":"d","at":3},{"start":"d"},{"done":"d","at":4},{"reclaim":"d","at":4},"a","a"]}"#;

const EVERY_STATE_REPORT: &str = "wcrun report 1
caller a
0 d.0 ok
1 d.1 ok
2 d.6 ok
3 d.7 ok
4 d.11 ok
5 d.12 InvalidStateError
codec d audio-decoder 4
0 a.0 ground background = ok
1 a.1 configure = ok
2 start 0.0
3 done 0.0 1 ran 0
4 turn unblock
5 turn process
6 a.2 reset = ok
7 a.3 configure = ok
8 start 1.0
9 done 1.0 4 ran 0
10 reclaim 4
  error QuotaExceededError
11 a.4 ground foreground = ok
12 a.5 configure = InvalidStateError
pool
slots
0 d.2 acquire decode:ulaw 0
1 d.6 give decode:ulaw 0
2 d.8 acquire decode:ulaw 0
3 d.10 give decode:ulaw 0
held 0
end
";

// A word of no ground is found before a name of no codec.
const NO_GROUND: &str =
    r#"{"codecs":[{"name":"d","kind":"audio-decoder"}],"callers":[{"name":"a","steps":[
{"do":"ground","on":"e","to":"Background"}]}],"order":["a"]}"#;

const NO_CODEC: &str =
    r#"{"codecs":[{"name":"d","kind":"audio-decoder"}],"callers":[{"name":"a","steps":[
{"do":"ground","on":"e","to":"background"}]}],"order":["a"]}"#;

#[test]
fn codecs_are_reclaimed_by_their_grounds(rt: HostRuntime) -> Result<(), Fail> {
    let rows = [
        (BACKGROUND, 0, BACKGROUND_REPORT),
        (ENCODING, 0, ENCODING_REPORT),
        (ENCODER, 0, ENCODER_REPORT),
        (EVERY_STATE, 0, EVERY_STATE_REPORT),
        (NO_GROUND, 3, "script: shape at step 0 0\n"),
        (NO_CODEC, 3, "script: unknown name at step 0 0\n"),
    ];
    each_ends(&rt, &rows)
}
