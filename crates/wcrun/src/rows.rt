// Whole replays through the control queue. The reports are written by hand from the rules of docs/FORMATS.md and the
// definitions of codec_model.
use crate::tests::each_ends;
use std::test::Fail;

const NOTHING: &str = r#"{"codecs":[],"callers":[],"order":[]}"#;

const NOTHING_REPORT: &str = "wcrun report 1
pool
slots
held 0
end
";

// A closed codec still finds an invalid config first.
const ORDER_OF_REFUSALS: &str =
    r#"{"codecs":[{"name":"d","kind":"audio-decoder"}],"callers":[{"name":"a","steps":[
{"do":"configure","on":"d","config":{"codec":"  ","sampleRate":8000,"numberOfChannels":1}},
{"do":"close","on":"d"},
{"do":"configure","on":"d","config":{"codec":"  ","sampleRate":8000,"numberOfChannels":1}},
{"do":"configure","on":"d","config":{"codec":"pcm-s16","sampleRate":8000,"numberOfChannels":1}}]}],
"order":["a","a","a","a"]}"#;

const ORDER_OF_REFUSALS_REPORT: &str = "wcrun report 1
caller a
0 d.0 TypeError
1 d.1 ok
2 d.2 TypeError
3 d.3 InvalidStateError
codec d audio-decoder 4
0 a.0 configure = TypeError
1 a.1 close = ok
2 a.2 configure = TypeError
3 a.3 configure = InvalidStateError
pool
slots
held 0
end
";

// The least rate above a u32 and the greatest one within it.
const RANGE_OF_A_RATE: &str =
    r#"{"codecs":[{"name":"d","kind":"audio-decoder"}],"callers":[{"name":"a","steps":[
{"do":"configure","on":"d","config":{"codec":"pcm-u8","sampleRate":4294967296,"numberOfChannels":1}},
{"do":"configure","on":"d","config":{"codec":"pcm-u8","sampleRate":4294967295,"numberOfChannels":1}}]}],
"order":["a","a"]}"#;

const RANGE_OF_A_RATE_REPORT: &str = "wcrun report 1
caller a
0 d.0 TypeError
1 d.1 ok
codec d audio-decoder 4
0 a.0 configure = TypeError
1 a.1 configure = ok
pool
slots
held 0
end
";

// A fraction is of the wrong kind, and so a fault of the script.
const RATE_WITH_A_FRACTION: &str =
    r#"{"codecs":[{"name":"d","kind":"audio-decoder"}],"callers":[{"name":"a","steps":[
{"do":"configure","on":"d","config":{"codec":"pcm-u8","sampleRate":1.5,"numberOfChannels":1}}]}],
"order":["a"]}"#;

// A delta chunk is refused before the first key chunk, and again after a flush.
const KEY_RULE: &str =
    r#"{"codecs":[{"name":"d","kind":"audio-decoder"}],"callers":[{"name":"a","steps":[
{"do":"configure","on":"d","config":{"codec":"pcm-s16","sampleRate":8000,"numberOfChannels":1}},
{"do":"chunk","as":"delta","init":{"type":"delta","timestamp":0,"data":"0100"}},
{"do":"decode","on":"d","chunk":"delta"},
{"do":"state","on":"d"},
{"do":"chunk","as":"key","init":{"type":"key","timestamp":0,"data":"0200"}},
{"do":"decode","on":"d","chunk":"key"},
{"do":"flush","on":"d","as":"p"},
{"do":"decode","on":"d","chunk":"delta"},
{"do":"state","on":"d"}]}],
"order":["a","a","a","a","a","a","a","a","a"]}"#;

const KEY_RULE_REPORT: &str = "wcrun report 1
caller a
0 d.0 ok
1 ok
2 d.1 DataError
3 d:2 configured 0
4 ok
5 d.2 ok
6 d.3 ok
7 d.4 DataError
8 d:5 configured 1
codec d audio-decoder 4
0 a.0 configure = ok
1 a.2 decode = DataError
2 a.5 decode = ok
3 a.6 flush = ok
4 a.7 decode = DataError
pool
slots
held 0
end
";

// Nothing of the codec goes to work; each look sees how its promise ended.
const TWO_FLUSHES_THEN_CLOSE: &str =
    r#"{"codecs":[{"name":"d","kind":"audio-decoder"}],"callers":[{"name":"a","steps":[
{"do":"configure","on":"d","config":{"codec":"pcm-s16","sampleRate":8000,"numberOfChannels":1}},
{"do":"flush","on":"d","as":"p"},
{"do":"flush","on":"d","as":"q"},
{"do":"close","on":"d"},
{"do":"close","on":"d"},
{"do":"flush","on":"d","as":"r"},
{"do":"poll","promise":"q"},
{"do":"poll","promise":"r"}]}],
"order":["a","a","a","a","a","a","a","a"]}"#;

const TWO_FLUSHES_THEN_CLOSE_REPORT: &str = "wcrun report 1
caller a
0 d.0 ok
1 d.1 ok
2 d.2 ok
3 d.3 ok
4 d.4 InvalidStateError
5 d.5 ok
6 d:6 rejected AbortError
7 d:6 rejected InvalidStateError
codec d audio-decoder 4
0 a.0 configure = ok
1 a.1 flush = ok
2 a.2 flush = ok
3 a.3 close = ok
  reject 1 AbortError
  reject 2 AbortError
4 a.4 close = InvalidStateError
5 a.5 flush = ok
  reject 5 InvalidStateError
pool
slots
held 0
end
";

const UNKNOWN_CODEC: &str =
    r#"{"codecs":[{"name":"d","kind":"audio-decoder"}],"callers":[{"name":"a","steps":[
{"do":"configure","on":"d","config":{"codec":"opus","sampleRate":48000,"numberOfChannels":2}},
{"do":"flush","on":"d","as":"p"}]}],
"order":["a","a",{"start":"d"},{"done":"d","at":5},{"turn":"d"}]}"#;

const FLAC_WITHOUT_DESCRIPTION: &str =
    r#"{"codecs":[{"name":"d","kind":"audio-decoder"}],"callers":[{"name":"a","steps":[
{"do":"configure","on":"d","config":{"codec":"flac","sampleRate":48000,"numberOfChannels":2}},
{"do":"flush","on":"d","as":"p"}]}],
"order":["a","a",{"start":"d"},{"done":"d","at":5},{"turn":"d"}]}"#;

// A config that is not supported asks for no box.
const UNSUPPORTED_REPORT: &str = "wcrun report 1
caller a
0 d.0 ok
1 d.1 ok
codec d audio-decoder 4
0 a.0 configure = ok
1 a.1 flush = ok
2 start 0.0
3 done 0.0 5 refused
4 turn close NotSupportedError
  reject 1 NotSupportedError
  error NotSupportedError
pool
slots
held 0
end
";

// Two items fill the codec: the third chunk waits for the one turn of desaturate, and one event stands for two falls.
const SATURATED_BY_TWO: &str =
    r#"{"codecs":[{"name":"d","kind":"audio-decoder","saturation":2}],"callers":[{"name":"a","steps":[
{"do":"configure","on":"d","config":{"codec":"pcm-s16","sampleRate":8000,"numberOfChannels":1}},
{"do":"chunk","as":"c","init":{"type":"key","timestamp":0,"data":"0100"}},
{"do":"chunk","as":"e","init":{"type":"key","timestamp":125,"data":"0200"}},
{"do":"chunk","as":"f","init":{"type":"key","timestamp":250,"data":"0300"}},
{"do":"decode","on":"d","chunk":"c"},
{"do":"decode","on":"d","chunk":"e"},
{"do":"decode","on":"d","chunk":"f"},
{"do":"state","on":"d"},
{"do":"state","on":"d"}]}],
"order":["a","a","a","a","a","a","a",{"start":"d"},{"done":"d","at":1},{"turn":"d"},{"turn":"d"},"a",
{"start":"d"},{"done":"d","at":2},{"start":"d"},{"done":"d","at":3},
{"turn":"d"},{"turn":"d"},{"turn":"d"},{"turn":"d"},{"turn":"d"},
{"start":"d"},{"done":"d","at":4},{"turn":"d"},"a"]}"#;

const SATURATED_BY_TWO_REPORT: &str = "wcrun report 1
caller a
0 d.0 ok
1 ok
2 ok
3 ok
4 d.1 ok
5 d.2 ok
6 d.3 ok
7 d:8 configured 1
8 d:20 configured 0
codec d audio-decoder 2
0 a.0 configure = ok
1 a.4 decode = ok
2 a.5 decode = ok
3 a.6 decode = ok
4 start 0.0
5 done 0.0 1 ran 0
6 turn unblock
7 turn process
8 start 0.1
9 done 0.1 2 ran 1
10 start 0.2
11 done 0.2 3 ran 1
12 turn dequeue
  dequeue
13 turn desaturate
14 turn output
  output audio s16 8000 1 1 0 125 0100
15 turn output
  output audio s16 8000 1 1 125 125 0200
16 turn dequeue
  dequeue
17 start 0.3
18 done 0.3 4 ran 1
19 turn output
  output audio s16 8000 1 1 250 125 0300
pool
slots
0 d.4 acquire decode:pcm-s16 0
held 0
end
";

// One item fills the codec: the second chunk waits for the turn of desaturate that the first one's end queued.
const SATURATED_BY_ONE: &str =
    r#"{"codecs":[{"name":"d","kind":"audio-decoder","saturation":1}],"callers":[{"name":"a","steps":[
{"do":"configure","on":"d","config":{"codec":"pcm-s16","sampleRate":8000,"numberOfChannels":1}},
{"do":"chunk","as":"c","init":{"type":"key","timestamp":0,"data":"0100"}},
{"do":"chunk","as":"e","init":{"type":"key","timestamp":125,"data":"0200"}},
{"do":"decode","on":"d","chunk":"c"},
{"do":"decode","on":"d","chunk":"e"},
{"do":"state","on":"d"},
{"do":"state","on":"d"},
{"do":"state","on":"d"}]}],
"order":["a","a","a","a","a",{"start":"d"},{"done":"d","at":1},{"turn":"d"},{"turn":"d"},"a",
{"start":"d"},{"done":"d","at":2},{"turn":"d"},"a",{"turn":"d"},"a",{"turn":"d"},{"turn":"d"},
{"start":"d"},{"done":"d","at":3},{"turn":"d"},{"turn":"d"}]}"#;

const SATURATED_BY_ONE_REPORT: &str = "wcrun report 1
caller a
0 d.0 ok
1 ok
2 ok
3 d.1 ok
4 d.2 ok
5 d:7 configured 1
6 d:10 configured 1
7 d:11 configured 0
codec d audio-decoder 1
0 a.0 configure = ok
1 a.3 decode = ok
2 a.4 decode = ok
3 start 0.0
4 done 0.0 1 ran 0
5 turn unblock
6 turn process
7 start 0.1
8 done 0.1 2 ran 1
9 turn dequeue
  dequeue
10 turn desaturate
11 turn output
  output audio s16 8000 1 1 0 125 0100
12 turn dequeue
  dequeue
13 start 0.2
14 done 0.2 3 ran 1
15 turn desaturate
16 turn output
  output audio s16 8000 1 1 125 125 0200
pool
slots
0 d.3 acquire decode:pcm-s16 0
held 0
end
";

// The item that was at work shows nothing, and its end gives the box back; only then does the new configuration start.
const RESET_WITH_A_JOB_OUT: &str =
    r#"{"codecs":[{"name":"d","kind":"audio-decoder"}],"callers":[{"name":"a","steps":[
{"do":"configure","on":"d","config":{"codec":"pcm-s16","sampleRate":8000,"numberOfChannels":1}},
{"do":"chunk","as":"c","init":{"type":"key","timestamp":0,"data":"0100"}},
{"do":"decode","on":"d","chunk":"c"},
{"do":"reset","on":"d"},
{"do":"configure","on":"d","config":{"codec":"pcm-s16","sampleRate":8000,"numberOfChannels":1}},
{"do":"chunk","as":"e","init":{"type":"key","timestamp":125,"data":"0200"}},
{"do":"decode","on":"d","chunk":"e"}]}],
"order":["a","a","a",{"start":"d"},{"done":"d","at":1},{"turn":"d"},{"turn":"d"},{"start":"d"},
"a","a","a","a",{"start":"d"},{"done":"d","at":2},{"turn":"d"},
{"start":"d"},{"done":"d","at":3},{"turn":"d"},{"turn":"d"},
{"start":"d"},{"done":"d","at":4},{"turn":"d"},{"turn":"d"}]}"#;

const RESET_WITH_A_JOB_OUT_REPORT: &str = "wcrun report 1
caller a
0 d.0 ok
1 ok
2 d.1 ok
3 d.7 ok
4 d.8 ok
5 ok
6 d.9 ok
codec d audio-decoder 4
0 a.0 configure = ok
1 a.2 decode = ok
2 start 0.0
3 done 0.0 1 ran 0
4 turn unblock
5 turn process
6 start 0.1
7 a.3 reset = ok
8 a.4 configure = ok
9 a.6 decode = ok
10 done 0.1 2 ran 1
11 turn dequeue
  dequeue
12 start 1.0
13 done 1.0 3 ran 0
14 turn unblock
15 turn process
16 start 1.1
17 done 1.1 4 ran 1
18 turn dequeue
  dequeue
19 turn output
  output audio s16 8000 1 1 125 125 0200
pool
slots
0 d.2 acquire decode:pcm-s16 0
1 d.10 give decode:pcm-s16 0
2 d.12 acquire decode:pcm-s16 0
held 0
end
";

// A chunk that is no whole number of frames closes the codec, which gives its box back.
const CHUNK_WITH_HALF_A_FRAME: &str =
    r#"{"codecs":[{"name":"d","kind":"audio-decoder"}],"callers":[{"name":"a","steps":[
{"do":"configure","on":"d","config":{"codec":"pcm-s16","sampleRate":8000,"numberOfChannels":1}},
{"do":"chunk","as":"c","init":{"type":"key","timestamp":0,"data":"010203"}},
{"do":"decode","on":"d","chunk":"c"},
{"do":"state","on":"d"}]}],
"order":["a","a","a",{"start":"d"},{"done":"d","at":1},{"turn":"d"},{"turn":"d"},
{"start":"d"},{"done":"d","at":2},{"turn":"d"},{"turn":"d"},"a"]}"#;

const CHUNK_WITH_HALF_A_FRAME_REPORT: &str = "wcrun report 1
caller a
0 d.0 ok
1 ok
2 d.1 ok
3 d:10 closed 0
codec d audio-decoder 4
0 a.0 configure = ok
1 a.2 decode = ok
2 start 0.0
3 done 0.0 1 ran 0
4 turn unblock
5 turn process
6 start 0.1
7 done 0.1 2 refused
8 turn dequeue
  dequeue
9 turn close EncodingError
  error EncodingError
pool
slots
0 d.2 acquire decode:pcm-s16 0
1 d.9 give decode:pcm-s16 0
held 0
end
";

// An empty chunk gives no output, and a flush after it resolves.
const EMPTY_CHUNK: &str =
    r#"{"codecs":[{"name":"d","kind":"audio-decoder"}],"callers":[{"name":"a","steps":[
{"do":"configure","on":"d","config":{"codec":"pcm-s16","sampleRate":8000,"numberOfChannels":1}},
{"do":"chunk","as":"c","init":{"type":"key","timestamp":0,"data":""}},
{"do":"decode","on":"d","chunk":"c"},
{"do":"flush","on":"d","as":"p"},
{"do":"await","promise":"p"}]}],
"order":["a","a","a","a",{"start":"d"},{"done":"d","at":1},{"turn":"d"},{"turn":"d"},
{"start":"d"},{"done":"d","at":2},{"turn":"d"},{"start":"d"},{"done":"d","at":3},{"turn":"d"},"a"]}"#;

const EMPTY_CHUNK_REPORT: &str = "wcrun report 1
caller a
0 d.0 ok
1 ok
2 d.1 ok
3 d.2 ok
4 d:13 resolved
codec d audio-decoder 4
0 a.0 configure = ok
1 a.2 decode = ok
2 a.3 flush = ok
3 start 0.0
4 done 0.0 1 ran 0
5 turn unblock
6 turn process
7 start 0.1
8 done 0.1 2 ran 0
9 turn dequeue
  dequeue
10 start 0.2
11 done 0.2 3 ran 0
12 turn flushed
  resolve 2
pool
slots
0 d.3 acquire decode:pcm-s16 0
held 0
end
";

// The second codec finds the one box out; the first is reclaimed 10 seconds after its last end, and no microsecond sooner.
const ONE_BOX_FOR_TWO_CODECS: &str =
    r#"{"codecs":[{"name":"f","kind":"audio-decoder"},{"name":"g","kind":"audio-decoder"}],
"callers":[{"name":"a","steps":[
{"do":"configure","on":"f","config":{"codec":"ulaw","sampleRate":8000,"numberOfChannels":1}},
{"do":"configure","on":"g","config":{"codec":"ulaw","sampleRate":8000,"numberOfChannels":1}}]}],
"order":["a",{"start":"f"},{"done":"f","at":1000},{"turn":"f"},{"turn":"f"},
"a",{"start":"g"},{"done":"g","at":2000},{"turn":"g"},
{"reclaim":"f","at":10000999},{"reclaim":"f","at":10001000}]}"#;

const ONE_BOX_FOR_TWO_CODECS_REPORT: &str = "wcrun report 1
caller a
0 f.0 ok
1 g.0 ok
codec f audio-decoder 4
0 a.0 configure = ok
1 start 0.0
2 done 0.0 1000 ran 0
3 turn unblock
4 turn process
5 reclaim 10001000
  error QuotaExceededError
codec g audio-decoder 4
0 a.1 configure = ok
1 start 0.0
2 done 0.0 2000 no-slot 1
3 turn close QuotaExceededError
  error QuotaExceededError
pool
slots
0 f.1 acquire decode:ulaw 0
1 g.1 acquire decode:ulaw none 1 1
2 f.5 give decode:ulaw 0
held 0
end
";

// The start of the second configuration gives the box of the first one back before it asks for its own.
const CHANGE_OF_CODER: &str =
    r#"{"codecs":[{"name":"d","kind":"audio-decoder"}],"callers":[{"name":"a","steps":[
{"do":"configure","on":"d","config":{"codec":"pcm-s16","sampleRate":8000,"numberOfChannels":1}},
{"do":"configure","on":"d","config":{"codec":"ulaw","sampleRate":8000,"numberOfChannels":1}}]}],
"order":["a","a",{"start":"d"},{"done":"d","at":1},{"turn":"d"},{"turn":"d"},{"start":"d"}]}"#;

const CHANGE_OF_CODER_REPORT: &str = "wcrun report 1
caller a
0 d.0 ok
1 d.1 ok
codec d audio-decoder 4
0 a.0 configure = ok
1 a.1 configure = ok
2 start 0.0
3 done 0.0 1 ran 0
4 turn unblock
5 turn process
6 start 0.1
pool
slots
0 d.2 acquire decode:pcm-s16 0
1 d.6 give decode:pcm-s16 0
2 d.6 acquire decode:ulaw 0
held 0
end
";

// A supported config of a coder of which there is no box.
const CODER_WITHOUT_A_BOX: &str =
    r#"{"codecs":[{"name":"d","kind":"audio-decoder"}],"callers":[{"name":"a","steps":[
{"do":"configure","on":"d","config":{"codec":"alaw","sampleRate":8000,"numberOfChannels":1}}]}],
"order":["a",{"start":"d"},{"done":"d","at":5},{"turn":"d"}]}"#;

const CODER_WITHOUT_A_BOX_REPORT: &str = "wcrun report 1
caller a
0 d.0 ok
codec d audio-decoder 4
0 a.0 configure = ok
1 start 0.0
2 done 0.0 5 no-slot 0
3 turn close QuotaExceededError
  error QuotaExceededError
pool
slots
0 d.1 acquire decode:alaw none 0 0
held 0
end
";

#[test]
fn calls_are_answered_as_the_codec_stands(rt: HostRuntime) -> Result<(), Fail> {
    let rows = [
        (NOTHING, 0, NOTHING_REPORT),
        (ORDER_OF_REFUSALS, 0, ORDER_OF_REFUSALS_REPORT),
        (RANGE_OF_A_RATE, 0, RANGE_OF_A_RATE_REPORT),
        (RATE_WITH_A_FRACTION, 3, "script: shape at step 0 0\n"),
        (KEY_RULE, 0, KEY_RULE_REPORT),
        (TWO_FLUSHES_THEN_CLOSE, 0, TWO_FLUSHES_THEN_CLOSE_REPORT),
    ];
    each_ends(&rt, &rows)
}

#[test]
fn items_tasks_and_boxes_go_as_the_order_says(rt: HostRuntime) -> Result<(), Fail> {
    let rows = [
        (UNKNOWN_CODEC, 0, UNSUPPORTED_REPORT),
        (FLAC_WITHOUT_DESCRIPTION, 0, UNSUPPORTED_REPORT),
        (SATURATED_BY_TWO, 0, SATURATED_BY_TWO_REPORT),
        (SATURATED_BY_ONE, 0, SATURATED_BY_ONE_REPORT),
        (RESET_WITH_A_JOB_OUT, 0, RESET_WITH_A_JOB_OUT_REPORT),
        (CHUNK_WITH_HALF_A_FRAME, 0, CHUNK_WITH_HALF_A_FRAME_REPORT),
        (EMPTY_CHUNK, 0, EMPTY_CHUNK_REPORT),
        (ONE_BOX_FOR_TWO_CODECS, 0, ONE_BOX_FOR_TWO_CODECS_REPORT),
        (CHANGE_OF_CODER, 0, CHANGE_OF_CODER_REPORT),
        (CODER_WITHOUT_A_BOX, 0, CODER_WITHOUT_A_BOX_REPORT),
    ];
    each_ends(&rt, &rows)
}
