// Whole replays of video decoders. The reports are written by hand from the rules of docs/FORMATS.md.
use crate::tests::each_ends;
use std::test::Fail;

// A picture of 3 by 1 pixels, and what is added to it: the last byte passes 255.
const KEY_AND_DELTA: &str =
    r#"{"codecs":[{"name":"v","kind":"video-decoder"}],"callers":[{"name":"a","steps":[
{"do":"configure","on":"v","config":{"codec":"x-raw-i420","codedWidth":3,"codedHeight":1}},
{"do":"chunk","as":"k","init":{"type":"key","timestamp":0,"duration":40000,"data":"00010203040506ff"}},
{"do":"decode","on":"v","chunk":"k"},
{"do":"chunk","as":"e","init":{"type":"delta","timestamp":40000,"data":"0101010101010102"}},
{"do":"decode","on":"v","chunk":"e"},
{"do":"flush","on":"v","as":"p"},
{"do":"await","promise":"p"}]}],
"order":["a","a","a","a","a","a",{"start":"v"},{"done":"v","at":1},{"turn":"v"},{"turn":"v"},
{"start":"v"},{"done":"v","at":2},{"turn":"v"},{"turn":"v"},
{"start":"v"},{"done":"v","at":3},{"turn":"v"},{"start":"v"},{"done":"v","at":4},{"turn":"v"},"a"]}"#;

const KEY_AND_DELTA_REPORT: &str = "wcrun report 1
caller a
0 v.0 ok
1 ok
2 v.1 ok
3 ok
4 v.2 ok
5 v.3 ok
6 v:18 resolved
codec v video-decoder 4
0 a.0 configure = ok
1 a.2 decode = ok
2 a.4 decode = ok
3 a.5 flush = ok
4 start 0.0
5 done 0.0 1 ran 0
6 turn unblock
7 turn process
8 start 0.1
9 done 0.1 2 ran 1
10 turn dequeue
  dequeue
11 turn output
  output video I420 3 1 0 40000 010203040506ff
12 start 0.2
13 done 0.2 3 ran 1
14 turn output
  output video I420 3 1 40000 - 02030405060701
15 start 0.3
16 done 0.3 4 ran 0
17 turn flushed
  resolve 3
pool
slots
0 v.4 acquire decode:x-raw-i420 0
held 0
end
";

// A chunk that is called a key chunk and begins with 1 is refused where a key chunk is wanted, and nothing is queued;
// where none is wanted it is taken, and its bytes are added to the last picture.
const KEY_THAT_ADDS: &str =
    r#"{"codecs":[{"name":"v","kind":"video-decoder"}],"callers":[{"name":"a","steps":[
{"do":"configure","on":"v","config":{"codec":"x-raw-i420","codedWidth":3,"codedHeight":1}},
{"do":"chunk","as":"c","init":{"type":"key","timestamp":0,"data":"0101010101010102"}},
{"do":"decode","on":"v","chunk":"c"},
{"do":"state","on":"v"},
{"do":"chunk","as":"k","init":{"type":"key","timestamp":0,"data":"00010203040506ff"}},
{"do":"decode","on":"v","chunk":"k"},
{"do":"decode","on":"v","chunk":"c"},
{"do":"state","on":"v"}]}],
"order":["a","a","a","a","a","a","a","a",{"start":"v"},{"done":"v","at":1},{"turn":"v"},{"turn":"v"},
{"start":"v"},{"done":"v","at":2},{"turn":"v"},{"turn":"v"},{"start":"v"},{"done":"v","at":3},{"turn":"v"}]}"#;

const KEY_THAT_ADDS_REPORT: &str = "wcrun report 1
caller a
0 v.0 ok
1 ok
2 v.1 DataError
3 v:2 configured 0
4 ok
5 v.2 ok
6 v.3 ok
7 v:4 configured 2
codec v video-decoder 4
0 a.0 configure = ok
1 a.2 decode = DataError
2 a.5 decode = ok
3 a.6 decode = ok
4 start 0.0
5 done 0.0 1 ran 0
6 turn unblock
7 turn process
8 start 0.1
9 done 0.1 2 ran 1
10 turn dequeue
  dequeue
11 turn output
  output video I420 3 1 0 - 010203040506ff
12 start 0.2
13 done 0.2 3 ran 1
14 turn output
  output video I420 3 1 0 - 02030405060701
pool
slots
0 v.4 acquire decode:x-raw-i420 0
held 0
end
";

// A chunk that is called a delta chunk is refused where a key chunk is wanted, though its bytes are a whole picture: after a
// configure, after a flush, and after a reset and a configure.
const DELTA_RULE: &str =
    r#"{"codecs":[{"name":"v","kind":"video-decoder"}],"callers":[{"name":"a","steps":[
{"do":"configure","on":"v","config":{"codec":"x-raw-nv12","codedWidth":1,"codedHeight":1}},
{"do":"chunk","as":"e","init":{"type":"delta","timestamp":0,"data":"00010203"}},
{"do":"decode","on":"v","chunk":"e"},
{"do":"chunk","as":"k","init":{"type":"key","timestamp":0,"data":"00010203"}},
{"do":"decode","on":"v","chunk":"k"},
{"do":"decode","on":"v","chunk":"e"},
{"do":"flush","on":"v","as":"p"},
{"do":"decode","on":"v","chunk":"e"},
{"do":"reset","on":"v"},
{"do":"decode","on":"v","chunk":"k"},
{"do":"configure","on":"v","config":{"codec":"x-raw-nv12","codedWidth":1,"codedHeight":1}},
{"do":"decode","on":"v","chunk":"e"},
{"do":"state","on":"v"}]}],
"order":["a","a","a","a","a","a","a","a","a","a","a","a","a"]}"#;

const DELTA_RULE_REPORT: &str = "wcrun report 1
caller a
0 v.0 ok
1 ok
2 v.1 DataError
3 ok
4 v.2 ok
5 v.3 ok
6 v.4 ok
7 v.5 DataError
8 v.6 ok
9 v.7 InvalidStateError
10 v.8 ok
11 v.9 DataError
12 v:10 configured 0
codec v video-decoder 4
0 a.0 configure = ok
1 a.2 decode = DataError
2 a.4 decode = ok
3 a.5 decode = ok
4 a.6 flush = ok
5 a.7 decode = DataError
6 a.8 reset = ok
  reject 4 AbortError
7 a.9 decode = InvalidStateError
8 a.10 configure = ok
9 a.11 decode = DataError
pool
slots
held 0
end
";

// A flush that has worked: neither a delta chunk is taken after it nor a key chunk that begins with 1, but a picture is, and
// then what is added to it.
const AFTER_A_FLUSH: &str =
    r#"{"codecs":[{"name":"v","kind":"video-decoder"}],"callers":[{"name":"a","steps":[
{"do":"configure","on":"v","config":{"codec":"x-raw-i444","codedWidth":1,"codedHeight":1}},
{"do":"chunk","as":"k","init":{"type":"key","timestamp":0,"data":"00010203"}},
{"do":"chunk","as":"e","init":{"type":"delta","timestamp":0,"data":"01010101"}},
{"do":"chunk","as":"f","init":{"type":"key","timestamp":0,"data":"01010101"}},
{"do":"decode","on":"v","chunk":"k"},
{"do":"flush","on":"v","as":"p"},
{"do":"decode","on":"v","chunk":"e"},
{"do":"decode","on":"v","chunk":"f"},
{"do":"decode","on":"v","chunk":"k"},
{"do":"decode","on":"v","chunk":"f"}]}],
"order":["a","a","a","a","a","a",{"start":"v"},{"done":"v","at":1},{"turn":"v"},{"turn":"v"},
{"start":"v"},{"done":"v","at":2},{"turn":"v"},{"turn":"v"},{"start":"v"},{"done":"v","at":3},{"turn":"v"},
"a","a","a","a",{"start":"v"},{"done":"v","at":4},{"turn":"v"},{"turn":"v"},
{"start":"v"},{"done":"v","at":5},{"turn":"v"}]}"#;

const AFTER_A_FLUSH_REPORT: &str = "wcrun report 1
caller a
0 v.0 ok
1 ok
2 ok
3 ok
4 v.1 ok
5 v.2 ok
6 v.14 DataError
7 v.15 DataError
8 v.16 ok
9 v.17 ok
codec v video-decoder 4
0 a.0 configure = ok
1 a.4 decode = ok
2 a.5 flush = ok
3 start 0.0
4 done 0.0 1 ran 0
5 turn unblock
6 turn process
7 start 0.1
8 done 0.1 2 ran 1
9 turn dequeue
  dequeue
10 turn output
  output video I444 1 1 0 - 010203
11 start 0.2
12 done 0.2 3 ran 0
13 turn flushed
  resolve 2
14 a.6 decode = DataError
15 a.7 decode = DataError
16 a.8 decode = ok
17 a.9 decode = ok
18 start 0.3
19 done 0.3 4 ran 1
20 turn dequeue
  dequeue
21 turn output
  output video I444 1 1 0 - 010203
22 start 0.4
23 done 0.4 5 ran 1
24 turn output
  output video I444 1 1 0 - 020304
pool
slots
0 v.3 acquire decode:x-raw-i444 0
held 0
end
";

// An empty key chunk is not refused at the call: it says nothing of a picture before it.
const EMPTY_KEY: &str =
    r#"{"codecs":[{"name":"v","kind":"video-decoder"}],"callers":[{"name":"a","steps":[
{"do":"configure","on":"v","config":{"codec":"x-raw-i420","codedWidth":3,"codedHeight":1}},
{"do":"chunk","as":"c","init":{"type":"key","timestamp":0,"data":""}},
{"do":"decode","on":"v","chunk":"c"},
{"do":"flush","on":"v","as":"p"}]}],
"order":["a","a","a",{"start":"v"},{"done":"v","at":1},{"turn":"v"},{"turn":"v"},
{"start":"v"},{"done":"v","at":2},{"turn":"v"},{"turn":"v"},"a"]}"#;

// One byte too few: the planes of 3 by 1 pixels have 7.
const SHORT_KEY: &str =
    r#"{"codecs":[{"name":"v","kind":"video-decoder"}],"callers":[{"name":"a","steps":[
{"do":"configure","on":"v","config":{"codec":"x-raw-i420","codedWidth":3,"codedHeight":1}},
{"do":"chunk","as":"c","init":{"type":"key","timestamp":0,"data":"00010203040506"}},
{"do":"decode","on":"v","chunk":"c"},
{"do":"flush","on":"v","as":"p"}]}],
"order":["a","a","a",{"start":"v"},{"done":"v","at":1},{"turn":"v"},{"turn":"v"},
{"start":"v"},{"done":"v","at":2},{"turn":"v"},{"turn":"v"},"a"]}"#;

// One byte too many.
const LONG_KEY: &str =
    r#"{"codecs":[{"name":"v","kind":"video-decoder"}],"callers":[{"name":"a","steps":[
{"do":"configure","on":"v","config":{"codec":"x-raw-i420","codedWidth":3,"codedHeight":1}},
{"do":"chunk","as":"c","init":{"type":"key","timestamp":0,"data":"00010203040506ff00"}},
{"do":"decode","on":"v","chunk":"c"},
{"do":"flush","on":"v","as":"p"}]}],
"order":["a","a","a",{"start":"v"},{"done":"v","at":1},{"turn":"v"},{"turn":"v"},
{"start":"v"},{"done":"v","at":2},{"turn":"v"},{"turn":"v"},"a"]}"#;

// Neither 0 nor 1 in front.
const OTHER_FIRST_BYTE: &str =
    r#"{"codecs":[{"name":"v","kind":"video-decoder"}],"callers":[{"name":"a","steps":[
{"do":"configure","on":"v","config":{"codec":"x-raw-i420","codedWidth":3,"codedHeight":1}},
{"do":"chunk","as":"c","init":{"type":"key","timestamp":0,"data":"02010203040506ff"}},
{"do":"decode","on":"v","chunk":"c"},
{"do":"flush","on":"v","as":"p"}]}],
"order":["a","a","a",{"start":"v"},{"done":"v","at":1},{"turn":"v"},{"turn":"v"},
{"start":"v"},{"done":"v","at":2},{"turn":"v"},{"turn":"v"},"a"]}"#;

const REFUSED_REPORT: &str = "wcrun report 1
caller a
0 v.0 ok
1 ok
2 v.1 ok
3 v.10 ok
codec v video-decoder 4
0 a.0 configure = ok
1 a.2 decode = ok
2 start 0.0
3 done 0.0 1 ran 0
4 turn unblock
5 turn process
6 start 0.1
7 done 0.1 2 refused
8 turn dequeue
  dequeue
9 turn close EncodingError
  error EncodingError
10 a.3 flush = ok
  reject 10 InvalidStateError
pool
slots
0 v.2 acquire decode:x-raw-i420 0
1 v.9 give decode:x-raw-i420 0
held 0
end
";

// Pictures of 2 by 2 pixels: a chunk that is called a key chunk and begins with 1 is refused; a key chunk and what is added to
// it are decoded. A first key chunk after the flush that is too short is taken, and closes the codec; the first picture is
// taken after that.
const SQUARE: &str =
    r#"{"codecs":[{"name":"v","kind":"video-decoder"}],"callers":[{"name":"a","steps":[
{"do":"configure","on":"v","config":{"codec":"x-raw-i420","codedWidth":2,"codedHeight":2}},
{"do":"chunk","as":"c","init":{"type":"key","timestamp":0,"data":"01010101010101"}},
{"do":"decode","on":"v","chunk":"c"},
{"do":"chunk","as":"k","init":{"type":"key","timestamp":0,"data":"00010203040506"}},
{"do":"decode","on":"v","chunk":"k"},
{"do":"chunk","as":"e","init":{"type":"delta","timestamp":40000,"data":"01010101010101"}},
{"do":"decode","on":"v","chunk":"e"},
{"do":"flush","on":"v","as":"p"},
{"do":"chunk","as":"s","init":{"type":"key","timestamp":0,"data":"0001"}},
{"do":"decode","on":"v","chunk":"s"},
{"do":"take","on":"v","as":"f"}]}],
"order":["a","a","a","a","a","a","a","a","a","a",{"start":"v"},{"done":"v","at":1},{"turn":"v"},{"turn":"v"},
{"start":"v"},{"done":"v","at":2},{"turn":"v"},{"turn":"v"},
{"start":"v"},{"done":"v","at":3},{"turn":"v"},{"start":"v"},{"done":"v","at":4},{"turn":"v"},
{"start":"v"},{"done":"v","at":5},{"turn":"v"},"a"]}"#;

const SQUARE_REPORT: &str = "wcrun report 1
caller a
0 v.0 ok
1 ok
2 v.1 DataError
3 ok
4 v.2 ok
5 ok
6 v.3 ok
7 v.4 ok
8 ok
9 v.5 ok
10 v.23 unit 0
codec v video-decoder 4
0 a.0 configure = ok
1 a.2 decode = DataError
2 a.4 decode = ok
3 a.6 decode = ok
4 a.7 flush = ok
5 a.9 decode = ok
6 start 0.0
7 done 0.0 1 ran 0
8 turn unblock
9 turn process
10 start 0.1
11 done 0.1 2 ran 1
12 turn dequeue
  dequeue
13 turn output
  output video I420 2 2 0 - 010203040506
14 start 0.2
15 done 0.2 3 ran 1
16 turn output
  output video I420 2 2 40000 - 020304050607
17 start 0.3
18 done 0.3 4 ran 0
19 turn flushed
  resolve 4
20 start 0.4
21 done 0.4 5 refused
22 turn close EncodingError
  error EncodingError
23 a.10 take = 0
pool
0 a.10 make 0 0
slots
0 v.6 acquire decode:x-raw-i420 0
1 v.22 give decode:x-raw-i420 0
held 1
end
";

// A picture of each format, of odd sizes: halves are rounded up, so that 3 by 3 pixels have 9, 4 and 4 bytes in I420 and 9, 6
// and 6 in I422, 3 by 1 have 3 times 3 in I444, and 1 by 3 have 3 and 4 in NV12.
const EACH_FORMAT: &str =
    r#"{"codecs":[{"name":"d","kind":"video-decoder"},{"name":"e","kind":"video-decoder"},
{"name":"f","kind":"video-decoder"},{"name":"g","kind":"video-decoder"}],"callers":[{"name":"a","steps":[
{"do":"configure","on":"d","config":{"codec":"x-raw-i420","codedWidth":3,"codedHeight":3}},
{"do":"chunk","as":"d","init":{"type":"key","timestamp":-1,"data":"000102030405060708090a0b0c0d0e0f1011"}},
{"do":"decode","on":"d","chunk":"d"},
{"do":"configure","on":"e","config":{"codec":"x-raw-i422","codedWidth":3,"codedHeight":3}},
{"do":"chunk","as":"e","init":{"type":"key","timestamp":0,"data":"000102030405060708090a0b0c0d0e0f101112131415"}},
{"do":"decode","on":"e","chunk":"e"},
{"do":"configure","on":"f","config":{"codec":"x-raw-i444","codedWidth":3,"codedHeight":1}},
{"do":"chunk","as":"f","init":{"type":"key","timestamp":0,"duration":0,"data":"00010203040506070809"}},
{"do":"decode","on":"f","chunk":"f"},
{"do":"configure","on":"g","config":{"codec":"x-raw-nv12","codedWidth":1,"codedHeight":3}},
{"do":"chunk","as":"g","init":{"type":"key","timestamp":0,"data":"0001020304050607"}},
{"do":"decode","on":"g","chunk":"g"}]}],
"order":["a","a","a",{"start":"d"},{"done":"d","at":1},{"turn":"d"},{"turn":"d"},
{"start":"d"},{"done":"d","at":2},{"turn":"d"},{"turn":"d"},
"a","a","a",{"start":"e"},{"done":"e","at":1},{"turn":"e"},{"turn":"e"},
{"start":"e"},{"done":"e","at":2},{"turn":"e"},{"turn":"e"},
"a","a","a",{"start":"f"},{"done":"f","at":1},{"turn":"f"},{"turn":"f"},
{"start":"f"},{"done":"f","at":2},{"turn":"f"},{"turn":"f"},
"a","a","a",{"start":"g"},{"done":"g","at":1},{"turn":"g"},{"turn":"g"},
{"start":"g"},{"done":"g","at":2},{"turn":"g"},{"turn":"g"}]}"#;

const EACH_FORMAT_REPORT: &str = "wcrun report 1
caller a
0 d.0 ok
1 ok
2 d.1 ok
3 e.0 ok
4 ok
5 e.1 ok
6 f.0 ok
7 ok
8 f.1 ok
9 g.0 ok
10 ok
11 g.1 ok
codec d video-decoder 4
0 a.0 configure = ok
1 a.2 decode = ok
2 start 0.0
3 done 0.0 1 ran 0
4 turn unblock
5 turn process
6 start 0.1
7 done 0.1 2 ran 1
8 turn dequeue
  dequeue
9 turn output
  output video I420 3 3 -1 - 0102030405060708090a0b0c0d0e0f1011
codec e video-decoder 4
0 a.3 configure = ok
1 a.5 decode = ok
2 start 0.0
3 done 0.0 1 ran 0
4 turn unblock
5 turn process
6 start 0.1
7 done 0.1 2 ran 1
8 turn dequeue
  dequeue
9 turn output
  output video I422 3 3 0 - 0102030405060708090a0b0c0d0e0f101112131415
codec f video-decoder 4
0 a.6 configure = ok
1 a.8 decode = ok
2 start 0.0
3 done 0.0 1 ran 0
4 turn unblock
5 turn process
6 start 0.1
7 done 0.1 2 ran 1
8 turn dequeue
  dequeue
9 turn output
  output video I444 3 1 0 0 010203040506070809
codec g video-decoder 4
0 a.9 configure = ok
1 a.11 decode = ok
2 start 0.0
3 done 0.0 1 ran 0
4 turn unblock
5 turn process
6 start 0.1
7 done 0.1 2 ran 1
8 turn dequeue
  dequeue
9 turn output
  output video NV12 1 3 0 - 01020304050607
pool
slots
0 d.2 acquire decode:x-raw-i420 0
1 e.2 acquire decode:x-raw-i422 0
2 f.2 acquire decode:x-raw-i444 0
3 g.2 acquire decode:x-raw-nv12 0
held 0
end
";

// A codec string of audio is none of a video decoder.
const SOUND: &str =
    r#"{"codecs":[{"name":"v","kind":"video-decoder"}],"callers":[{"name":"a","steps":[
{"do":"configure","on":"v","config":{"codec":"pcm-s16","codedWidth":2,"codedHeight":2}},
{"do":"flush","on":"v","as":"p"}]}],
"order":["a","a",{"start":"v"},{"done":"v","at":5},{"turn":"v"}]}"#;

// A config without sizes is valid, and no raw video.
const WITHOUT_SIZES: &str =
    r#"{"codecs":[{"name":"v","kind":"video-decoder"}],"callers":[{"name":"a","steps":[
{"do":"configure","on":"v","config":{"codec":"x-raw-i420"}},
{"do":"flush","on":"v","as":"p"}]}],
"order":["a","a",{"start":"v"},{"done":"v","at":5},{"turn":"v"}]}"#;

const TOO_WIDE: &str =
    r#"{"codecs":[{"name":"v","kind":"video-decoder"}],"callers":[{"name":"a","steps":[
{"do":"configure","on":"v","config":{"codec":"x-raw-i420","codedWidth":16385,"codedHeight":1}},
{"do":"flush","on":"v","as":"p"}]}],
"order":["a","a",{"start":"v"},{"done":"v","at":5},{"turn":"v"}]}"#;

const UNSUPPORTED_REPORT: &str = "wcrun report 1
caller a
0 v.0 ok
1 v.1 ok
codec v video-decoder 4
0 a.0 configure = ok
1 a.1 flush = ok
2 start 0.0
3 done 0.0 5 refused
4 turn close NotSupportedError
  reject 1 NotSupportedError
  error NotSupportedError
pool
slots
held 0
end
";

// One size without the other, a size of 0, one side of an aspect without the other, a blank string, a width above 32 bits and
// no string at all; and then the greatest width.
const INVALID_CONFIGS: &str =
    r#"{"codecs":[{"name":"v","kind":"video-decoder"}],"callers":[{"name":"a","steps":[
{"do":"configure","on":"v","config":{"codec":"x-raw-i420","codedWidth":2}},
{"do":"configure","on":"v","config":{"codec":"x-raw-i420","codedWidth":2,"codedHeight":0}},
{"do":"configure","on":"v","config":{"codec":"x-raw-i420","codedWidth":2,"codedHeight":2,"displayAspectWidth":1}},
{"do":"configure","on":"v","config":{"codec":" ","codedWidth":2,"codedHeight":2}},
{"do":"configure","on":"v","config":{"codec":"x-raw-i420","codedWidth":4294967296,"codedHeight":2}},
{"do":"configure","on":"v","config":{"codedWidth":2,"codedHeight":2}},
{"do":"configure","on":"v","config":{"codec":"x-raw-i420","codedWidth":16384,"codedHeight":1,
"displayAspectWidth":1,"displayAspectHeight":1}}]}],
"order":["a","a","a","a","a","a","a",{"start":"v"},{"done":"v","at":1},{"turn":"v"},{"turn":"v"}]}"#;

const INVALID_CONFIGS_REPORT: &str = "wcrun report 1
caller a
0 v.0 TypeError
1 v.1 TypeError
2 v.2 TypeError
3 v.3 TypeError
4 v.4 TypeError
5 v.5 TypeError
6 v.6 ok
codec v video-decoder 4
0 a.0 configure = TypeError
1 a.1 configure = TypeError
2 a.2 configure = TypeError
3 a.3 configure = TypeError
4 a.4 configure = TypeError
5 a.5 configure = TypeError
6 a.6 configure = ok
7 start 0.0
8 done 0.0 1 ran 0
9 turn unblock
10 turn process
pool
slots
0 v.7 acquire decode:x-raw-i420 0
held 0
end
";

#[test]
fn key_chunks_are_wanted_and_looked_at(rt: HostRuntime) -> Result<(), Fail> {
    let rows = [
        (KEY_AND_DELTA, 0, KEY_AND_DELTA_REPORT),
        (KEY_THAT_ADDS, 0, KEY_THAT_ADDS_REPORT),
        (DELTA_RULE, 0, DELTA_RULE_REPORT),
        (AFTER_A_FLUSH, 0, AFTER_A_FLUSH_REPORT),
        (EMPTY_KEY, 0, REFUSED_REPORT),
        (SHORT_KEY, 0, REFUSED_REPORT),
        (LONG_KEY, 0, REFUSED_REPORT),
        (OTHER_FIRST_BYTE, 0, REFUSED_REPORT),
        (SQUARE, 0, SQUARE_REPORT),
    ];
    each_ends(&rt, &rows)
}

#[test]
fn each_format_is_decoded_where_its_config_is_supported(rt: HostRuntime) -> Result<(), Fail> {
    let rows = [
        (EACH_FORMAT, 0, EACH_FORMAT_REPORT),
        (SOUND, 0, UNSUPPORTED_REPORT),
        (WITHOUT_SIZES, 0, UNSUPPORTED_REPORT),
        (TOO_WIDE, 0, UNSUPPORTED_REPORT),
        (INVALID_CONFIGS, 0, INVALID_CONFIGS_REPORT),
    ];
    each_ends(&rt, &rows)
}
