// Whole replays with steps on media. The reports are written by hand from the rules of docs/FORMATS.md.
use crate::tests::each_ends;
use std::test::Fail;

// Two callers, each with a medium and a clone of it. a hands x on to z, and ends y, which leaves z; b ends x, which leaves
// y. Names of one caller are none of the other's.
const TWO_CALLERS: &str = r#"{"codecs":[],"callers":[{"name":"a","steps":[
{"do":"audio","as":"x","init":{"format":"s16","sampleRate":48000,"numberOfFrames":2,"numberOfChannels":2,
"timestamp":0,"data":"0100020003000400"}},
{"do":"clone","of":"x","as":"y"},
{"do":"copy","of":"x","options":{"planeIndex":0},"size":8},
{"do":"transfer","of":"x","as":"z"},
{"do":"copy","of":"x","options":{"planeIndex":0},"size":8},
{"do":"clone","of":"x","as":"w"},
{"do":"size","of":"w","options":{}},
{"do":"transfer","of":"x","as":"u"},
{"do":"close-data","of":"y"},
{"do":"size","of":"z","options":{"planeIndex":1,"format":"s32-planar"}},
{"do":"close-data","of":"x"}]},
{"name":"b","steps":[
{"do":"frame","as":"x","init":{"format":"I420","codedWidth":3,"codedHeight":3,"timestamp":0,
"data":"000102030405060708090a0b0c0d0e0f10"}},
{"do":"clone","of":"x","as":"y"},
{"do":"size","of":"y"},
{"do":"close-data","of":"x"},
{"do":"copy","of":"y","size":18},
{"do":"chunk","as":"z","init":{"type":"key","timestamp":0,"data":"0102"}},
{"do":"copy","of":"z","size":3},
{"do":"copy","of":"z","size":1}]}],
"order":["a","b","a","b","a","b","a","a","b","a","a","b","a","a","b","a","b","a","b"]}"#;

const TWO_CALLERS_REPORT: &str = "wcrun report 1
caller a
0 ok
1 ok
2 copied 8 0100020003000400
3 ok
4 InvalidStateError
5 InvalidStateError
6 absent
7 DataCloneError
8 ok
9 size 8
10 ok
caller b
0 ok
1 ok
2 size 17
3 ok
4 copied 17 0:3,9:2,13:2 000102030405060708090a0b0c0d0e0f1000
5 ok
6 copied 2 010200
7 TypeError
pool
0 a.0 make 0 0
1 b.0 make 1 1
2 a.1 clone 0 2
3 b.1 clone 1 3
4 b.3 end 1 1 kept
5 a.8 end 0 2 kept
slots
held 2
end
";

// Copies and sizes of interleaved data with two channels and two frames, in the order of refusals: options that break a
// rule of WebIDL, a plane that is not there, a format that is not supported, a first frame and a count beyond the data, and
// a destination that is too short. Last the data is closed.
const AUDIO: &str = r#"{"codecs":[],"callers":[{"name":"a","steps":[
{"do":"audio","as":"x","init":{"format":"s16","sampleRate":48000,"numberOfFrames":2,"numberOfChannels":2,
"timestamp":0,"data":"0100020003000400"}},
{"do":"copy","of":"x","options":{"frameOffset":2},"size":0},
{"do":"copy","of":"x","size":8},
{"do":"size","of":"x"},
{"do":"copy","of":"x","options":{"planeIndex":1,"format":"f32"},"size":8},
{"do":"copy","of":"x","options":{"planeIndex":2,"format":"f32-planar"},"size":8},
{"do":"copy","of":"x","options":{"planeIndex":0,"frameOffset":2,"format":"f32"},"size":0},
{"do":"copy","of":"x","options":{"planeIndex":1,"frameOffset":2,"format":"f32-planar"},"size":0},
{"do":"size","of":"x","options":{"planeIndex":0,"format":"f32"}},
{"do":"copy","of":"x","options":{"planeIndex":0,"frameOffset":2,"frameCount":0},"size":8},
{"do":"copy","of":"x","options":{"planeIndex":0,"frameOffset":1,"frameCount":2},"size":8},
{"do":"size","of":"x","options":{"planeIndex":0,"frameCount":3}},
{"do":"copy","of":"x","options":{"planeIndex":1},"size":8},
{"do":"copy","of":"x","options":{"planeIndex":0},"size":7},
{"do":"copy","of":"x","options":{"planeIndex":0},"size":8},
{"do":"copy","of":"x","options":{"planeIndex":1,"format":"s16-planar"},"size":4},
{"do":"copy","of":"x","options":{"planeIndex":0,"format":"u8"},"size":4},
{"do":"copy","of":"x","options":{"planeIndex":0,"frameOffset":1,"frameCount":1},"size":6},
{"do":"clone","of":"x","as":"y"},
{"do":"close-data","of":"x"},
{"do":"close-data","of":"y"},
{"do":"copy","of":"x","options":{"planeIndex":1,"format":"f32"},"size":0},
{"do":"copy","of":"x","options":{},"size":0},
{"do":"size","of":"y","options":{"planeIndex":0}},
{"do":"audio","as":"z","init":{"format":"s16","sampleRate":48000,"numberOfFrames":2,"numberOfChannels":2,
"timestamp":0,"data":"01000200030004"}},
{"do":"copy","of":"z","options":{},"size":8}]}],
"order":["a","a","a","a","a","a","a","a","a","a","a","a","a","a","a","a","a","a","a","a","a","a","a","a","a","a"]}"#;

const AUDIO_REPORT: &str = "wcrun report 1
caller a
0 ok
1 TypeError
2 TypeError
3 TypeError
4 RangeError
5 RangeError
6 NotSupportedError
7 NotSupportedError
8 NotSupportedError
9 RangeError
10 RangeError
11 RangeError
12 RangeError
13 RangeError
14 copied 8 0100020003000400
15 copied 4 02000400
16 copied 4 80808080
17 copied 4 030004000000
18 ok
19 ok
20 ok
21 InvalidStateError
22 TypeError
23 InvalidStateError
24 TypeError
25 absent
pool
0 a.0 make 0 0
1 a.18 clone 0 1
2 a.19 end 0 0 kept
3 a.20 end 0 1 gone
slots
held 0
end
";

// A picture of 3 by 3 pixels, its refusals, its copies, and its close.
const FRAME: &str = r#"{"codecs":[],"callers":[{"name":"a","steps":[
{"do":"frame","as":"x","init":{"format":"I420","codedWidth":3,"codedHeight":3,"timestamp":0,
"data":"000102030405060708090a0b0c0d0e0f10"}},
{"do":"size","of":"x"},
{"do":"clone","of":"x","as":"y"},
{"do":"size","of":"y"},
{"do":"copy","of":"x","options":{"rect":{"width":0,"height":1}},"size":17},
{"do":"copy","of":"x","options":{"rect":{"x":2,"width":2,"height":1}},"size":17},
{"do":"copy","of":"x","options":{"rect":{"x":1,"y":0,"width":2,"height":2}},"size":17},
{"do":"copy","of":"x","options":{"layout":[{"offset":0,"stride":3},{"offset":9,"stride":2}]},"size":17},
{"do":"copy","of":"x","options":{"layout":[{"offset":0,"stride":2},{"offset":9,"stride":2},{"offset":13,"stride":2}]},"size":17},
{"do":"copy","of":"x","options":{"layout":[{"offset":0,"stride":3},{"offset":8,"stride":2},{"offset":13,"stride":2}]},"size":17},
{"do":"copy","of":"x","size":16},
{"do":"copy","of":"x","options":{"rect":{"x":-1,"width":1,"height":1}},"size":17},
{"do":"copy","of":"x","size":17},
{"do":"copy","of":"x","options":{"rect":{"x":2,"y":2,"width":1,"height":1}},"size":3},
{"do":"copy","of":"x","options":{"rect":{"x":2,"y":2,"width":1,"height":1}},"size":2},
{"do":"size","of":"x","options":{"layout":[{"offset":4,"stride":4},{"offset":0,"stride":2},{"offset":16,"stride":3}]}},
{"do":"transfer","of":"x","as":"z"},
{"do":"copy","of":"x","options":{"rect":{"width":0,"height":0}},"size":0},
{"do":"size","of":"x"},
{"do":"close-data","of":"z"},
{"do":"close-data","of":"y"},
{"do":"frame","as":"w","init":{"format":"I420","codedWidth":0,"codedHeight":3,"timestamp":0,
"data":"000102030405060708090a0b0c0d0e0f10"}},
{"do":"frame","as":"v","init":{"codedWidth":3,"codedHeight":3,"timestamp":0,"data":""}},
{"do":"transfer","of":"w","as":"u"}]}],
"order":["a","a","a","a","a","a","a","a","a","a","a","a","a","a","a","a","a","a","a","a","a","a","a","a"]}"#;

const FRAME_REPORT: &str = "wcrun report 1
caller a
0 ok
1 size 17
2 ok
3 size 17
4 TypeError
5 TypeError
6 TypeError
7 TypeError
8 TypeError
9 TypeError
10 TypeError
11 TypeError
12 copied 17 0:3,9:2,13:2 000102030405060708090a0b0c0d0e0f10
13 copied 3 0:1,1:1,2:1 080c10
14 TypeError
15 size 22
16 ok
17 InvalidStateError
18 InvalidStateError
19 ok
20 ok
21 TypeError
22 TypeError
23 absent
pool
0 a.0 make 0 0
1 a.2 clone 0 1
2 a.19 end 0 0 kept
3 a.20 end 0 1 gone
slots
held 0
end
";

// Steps on media beside those of a decoder, whose coder and outputs have no entry in the pool.
const BESIDE_A_DECODER: &str =
    r#"{"codecs":[{"name":"d","kind":"audio-decoder"}],"callers":[{"name":"a","steps":[
{"do":"configure","on":"d","config":{"codec":"pcm-s16","sampleRate":8000,"numberOfChannels":1}},
{"do":"chunk","as":"c","init":{"type":"key","timestamp":0,"data":"0100"}},
{"do":"decode","on":"d","chunk":"c"},
{"do":"copy","of":"c","size":2}]},
{"name":"b","steps":[
{"do":"audio","as":"c","init":{"format":"u8-planar","sampleRate":8000,"numberOfFrames":1,"numberOfChannels":1,
"timestamp":-1,"data":"81ff"}},
{"do":"copy","of":"c","options":{"planeIndex":0,"format":"s16"},"size":2}]}],
"order":["a","b","a","a",{"start":"d"},{"done":"d","at":1},{"turn":"d"},{"turn":"d"},"b",
{"start":"d"},{"done":"d","at":2},"a",{"turn":"d"},{"turn":"d"}]}"#;

const BESIDE_A_DECODER_REPORT: &str = "wcrun report 1
caller a
0 d.0 ok
1 ok
2 d.1 ok
3 copied 2 0100
caller b
0 ok
1 copied 2 0001
codec d audio-decoder 4
0 a.0 configure = ok
1 a.2 decode = ok
2 start 0.0
3 done 0.0 1 ran 0
4 turn unblock
5 turn process
6 start 0.1
7 done 0.1 2 ran 1
8 turn dequeue
  dequeue
9 turn output
  output audio s16 8000 1 1 0 125 0100
pool
0 b.0 make 0 0
slots
0 d.2 acquire decode:pcm-s16 0
held 1
end
";

#[test]
fn media_of_callers_go_as_the_order_says(rt: HostRuntime) -> Result<(), Fail> {
    let rows = [
        (TWO_CALLERS, 0, TWO_CALLERS_REPORT),
        (AUDIO, 0, AUDIO_REPORT),
        (FRAME, 0, FRAME_REPORT),
        (BESIDE_A_DECODER, 0, BESIDE_A_DECODER_REPORT),
    ];
    each_ends(&rt, &rows)
}
