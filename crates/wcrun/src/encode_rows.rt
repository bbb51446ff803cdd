// Whole replays in which callers encode. The reports are written by hand from the rules of docs/FORMATS.md.
use crate::tests::each_ends;
use std::test::Fail;

// Two encodes of one sound: the codec clones it for each, and each clone ends with its item. The first output carries the
// config, and the second, of the same config, does not.
const TWO_ENCODES: &str =
    r#"{"codecs":[{"name":"e","kind":"audio-encoder"}],"callers":[{"name":"a","steps":[
{"do":"audio","as":"x","init":{"format":"s16","sampleRate":8000,"numberOfFrames":1,"numberOfChannels":1,
"timestamp":0,"data":"0100"}},
{"do":"configure","on":"e","config":{"codec":"pcm-s16","sampleRate":8000,"numberOfChannels":1}},
{"do":"encode","on":"e","data":"x"},
{"do":"encode","on":"e","data":"x"}]}],
"order":["a","a","a","a",{"start":"e"},{"done":"e","at":1},{"turn":"e"},{"turn":"e"},
{"start":"e"},{"done":"e","at":2},{"start":"e"},{"done":"e","at":3},{"turn":"e"},{"turn":"e"},{"turn":"e"}]}"#;

const TWO_ENCODES_REPORT: &str = "wcrun report 1
caller a
0 ok
1 e.0 ok
2 e.1 ok
3 e.2 ok
codec e audio-encoder 4
0 a.1 configure = ok
1 a.2 encode = ok
2 a.3 encode = ok
3 start 0.0
4 done 0.0 1 ran 0
5 turn unblock
6 turn process
7 start 0.1
8 done 0.1 2 ran 1
9 start 0.2
10 done 0.2 3 ran 1
11 turn dequeue
  dequeue
12 turn output
  output chunk key 0 125 0100
  config pcm-s16 8000 1 -
13 turn output
  output chunk key 0 125 0100
pool
0 a.0 make 0 0
1 e.1 clone 0 1
2 e.2 clone 0 2
3 e.8 end 0 1 kept
4 e.10 end 0 2 kept
slots
0 e.3 acquire encode:pcm-s16 0
held 1
end
";

// The clone of a queued encode lives on when its sound is closed, and ends with the reset that removes it.
const GIVEN_BACK_ONCE: &str =
    r#"{"codecs":[{"name":"e","kind":"audio-encoder"}],"callers":[{"name":"a","steps":[
{"do":"audio","as":"x","init":{"format":"s16","sampleRate":8000,"numberOfFrames":1,"numberOfChannels":1,
"timestamp":0,"data":"0100"}},
{"do":"configure","on":"e","config":{"codec":"pcm-s16","sampleRate":8000,"numberOfChannels":1}},
{"do":"encode","on":"e","data":"x"},
{"do":"close-data","of":"x"},
{"do":"reset","on":"e"},
{"do":"transfer","of":"x","as":"y"}]}],
"order":["a","a","a","a","a","a"]}"#;

const GIVEN_BACK_ONCE_REPORT: &str = "wcrun report 1
caller a
0 ok
1 e.0 ok
2 e.1 ok
3 ok
4 e.2 ok
5 DataCloneError
codec e audio-encoder 4
0 a.1 configure = ok
1 a.2 encode = ok
2 a.4 reset = ok
pool
0 a.0 make 0 0
1 e.1 clone 0 1
2 a.3 end 0 0 kept
3 e.2 end 0 1 gone
slots
held 0
end
";

// A reset lets go the clone of what waits; that of the item which is at work ends with the item.
const RESET_AT_WORK: &str =
    r#"{"codecs":[{"name":"e","kind":"audio-encoder"}],"callers":[{"name":"a","steps":[
{"do":"audio","as":"x","init":{"format":"s16","sampleRate":8000,"numberOfFrames":1,"numberOfChannels":1,
"timestamp":0,"data":"0100"}},
{"do":"configure","on":"e","config":{"codec":"pcm-s16","sampleRate":8000,"numberOfChannels":1}},
{"do":"encode","on":"e","data":"x"},
{"do":"encode","on":"e","data":"x"},
{"do":"reset","on":"e"}]}],
"order":["a","a","a","a",{"start":"e"},{"done":"e","at":1},{"turn":"e"},{"turn":"e"},{"start":"e"},"a",
{"done":"e","at":2}]}"#;

const RESET_AT_WORK_REPORT: &str = "wcrun report 1
caller a
0 ok
1 e.0 ok
2 e.1 ok
3 e.2 ok
4 e.8 ok
codec e audio-encoder 4
0 a.1 configure = ok
1 a.2 encode = ok
2 a.3 encode = ok
3 start 0.0
4 done 0.0 1 ran 0
5 turn unblock
6 turn process
7 start 0.1
8 a.4 reset = ok
9 done 0.1 2 ran 1
pool
0 a.0 make 0 0
1 e.1 clone 0 1
2 e.2 clone 0 2
3 e.8 end 0 2 kept
4 e.9 end 0 1 kept
slots
0 e.3 acquire encode:pcm-s16 0
1 e.9 give encode:pcm-s16 0
held 1
end
";

// Each way in which an encode is refused or finds nothing; and a chunk that is taken from the encoder is copied, and decoded
// by a decoder.
const REFUSED_AND_TAKEN: &str =
    r#"{"codecs":[{"name":"e","kind":"audio-encoder"},{"name":"d","kind":"audio-decoder"}],
"callers":[{"name":"a","steps":[
{"do":"audio","as":"x","init":{"format":"u8","sampleRate":8000,"numberOfFrames":1,"numberOfChannels":1,
"timestamp":0,"data":"80"}},
{"do":"encode","on":"e","data":"x"},
{"do":"configure","on":"e","config":{"codec":"pcm-u8","sampleRate":8000,"numberOfChannels":1}},
{"do":"clone","of":"x","as":"y"},
{"do":"close-data","of":"y"},
{"do":"encode","on":"e","data":"y"},
{"do":"encode","on":"e","data":"x"},
{"do":"audio","as":"z","init":{"format":"u8","sampleRate":8000,"numberOfFrames":1,"numberOfChannels":1,
"timestamp":0,"data":""}},
{"do":"encode","on":"e","data":"z"},
{"do":"take","on":"e","as":"c"},
{"do":"copy","of":"c","size":1},
{"do":"take","on":"e","as":"k"},
{"do":"copy","of":"k","size":2},
{"do":"configure","on":"d","config":{"codec":"pcm-u8","sampleRate":8000,"numberOfChannels":1}},
{"do":"decode","on":"d","chunk":"k"},
{"do":"take","on":"d","as":"w"},
{"do":"size","of":"w","options":{"planeIndex":0}},
{"do":"decode","on":"d","chunk":"c"}]}],
"order":["a","a","a","a","a","a","a","a","a","a","a",{"start":"e"},{"done":"e","at":1},{"turn":"e"},{"turn":"e"},
{"start":"e"},{"done":"e","at":2},{"turn":"e"},{"turn":"e"},"a","a","a","a",
{"start":"d"},{"done":"d","at":3},{"turn":"d"},{"turn":"d"},{"start":"d"},{"done":"d","at":4},{"turn":"d"},{"turn":"d"},
"a","a","a"]}"#;

const REFUSED_AND_TAKEN_REPORT: &str = "wcrun report 1
caller a
0 ok
1 e.0 InvalidStateError
2 e.1 ok
3 ok
4 ok
5 e.2 TypeError
6 e.3 ok
7 TypeError
8 absent
9 e:4 none
10 absent
11 e.12 unit 0
12 copied 1 8000
13 d.0 ok
14 d.1 ok
15 d.10 unit 0
16 size 1
17 absent
codec e audio-encoder 4
0 a.1 encode = InvalidStateError
1 a.2 configure = ok
2 a.5 encode = TypeError
3 a.6 encode = ok
4 start 0.0
5 done 0.0 1 ran 0
6 turn unblock
7 turn process
8 start 0.1
9 done 0.1 2 ran 1
10 turn dequeue
  dequeue
11 turn output
  output chunk key 0 125 80
  config pcm-u8 8000 1 -
12 a.11 take = 0
codec d audio-decoder 4
0 a.13 configure = ok
1 a.14 decode = ok
2 start 0.0
3 done 0.0 3 ran 0
4 turn unblock
5 turn process
6 start 0.1
7 done 0.1 4 ran 1
8 turn dequeue
  dequeue
9 turn output
  output audio u8 8000 1 1 0 125 80
10 a.15 take = 0
pool
0 a.0 make 0 0
1 a.3 clone 0 1
2 a.4 end 0 1 kept
3 e.3 clone 0 2
4 e.9 end 0 2 kept
5 a.15 make 1 3
slots
0 e.4 acquire encode:pcm-u8 0
1 d.2 acquire decode:pcm-u8 0
held 2
end
";

// An encoder that is configured, and given nothing.
const FLAC_ENCODER: &str =
    r#"{"codecs":[{"name":"e","kind":"audio-encoder"}],"callers":[{"name":"a","steps":[
{"do":"reset","on":"e"},
{"do":"configure","on":"e","config":{"codec":"flac","sampleRate":8000,"numberOfChannels":1}}]}],
"order":["a","a"]}"#;

const FLAC_ENCODER_REPORT: &str = "wcrun report 1
caller a
0 e.0 ok
1 e.1 ok
codec e audio-encoder 4
0 a.0 reset = ok
1 a.1 configure = ok
pool
slots
held 0
end
";

#[test]
fn encodes_go_as_the_order_says(rt: HostRuntime) -> Result<(), Fail> {
    let rows = [
        (TWO_ENCODES, 0, TWO_ENCODES_REPORT),
        (GIVEN_BACK_ONCE, 0, GIVEN_BACK_ONCE_REPORT),
        (RESET_AT_WORK, 0, RESET_AT_WORK_REPORT),
        (REFUSED_AND_TAKEN, 0, REFUSED_AND_TAKEN_REPORT),
        (FLAC_ENCODER, 0, FLAC_ENCODER_REPORT),
    ];
    each_ends(&rt, &rows)
}
