// Whole replays of video encoders. The reports are written by hand from the rules of docs/FORMATS.md.
use crate::tests::each_ends;
use std::test::Fail;

// Two frames: the first chunk is a key chunk, and the second what is added to the first.
const KEY_AND_DELTA: &str =
    r#"{"codecs":[{"name":"e","kind":"video-encoder"}],"callers":[{"name":"a","steps":[
{"do":"frame","as":"f","init":{"format":"I420","codedWidth":2,"codedHeight":2,"timestamp":0,"data":"010203040506"}},
{"do":"frame","as":"g","init":{"format":"I420","codedWidth":2,"codedHeight":2,"timestamp":40000,"data":"020304050607"}},
{"do":"configure","on":"e","config":{"codec":"x-raw-i420","width":2,"height":2}},
{"do":"encode","on":"e","data":"f"},
{"do":"encode","on":"e","data":"g"}]}],
"order":["a","a","a","a","a",{"start":"e"},{"done":"e","at":1},{"turn":"e"},{"turn":"e"},
{"start":"e"},{"done":"e","at":2},{"start":"e"},{"done":"e","at":3},{"turn":"e"},{"turn":"e"},{"turn":"e"}]}"#;

const KEY_AND_DELTA_REPORT: &str = "wcrun report 1
caller a
0 ok
1 ok
2 e.0 ok
3 e.1 ok
4 e.2 ok
codec e video-encoder 4
0 a.2 configure = ok
1 a.3 encode = ok
2 a.4 encode = ok
3 start 0.0
4 done 0.0 1 ran 0
5 turn unblock
6 turn process
7 start 0.1
8 done 0.1 2 ran 1
9 start 0.2
10 done 0.2 3 ran 1
11 turn dequeue
  dequeue
12 turn output
  output chunk key 0 - 00010203040506
13 turn output
  output chunk delta 40000 - 01010101010101
pool
0 a.0 make 0 0
1 a.1 make 1 1
2 e.1 clone 0 2
3 e.2 clone 1 3
4 e.8 end 0 2 kept
5 e.10 end 1 3 kept
slots
0 e.3 acquire encode:x-raw-i420 0
held 2
end
";

// The same with a key chunk for each frame.
const KEYS_ALONE: &str =
    r#"{"codecs":[{"name":"e","kind":"video-encoder"}],"callers":[{"name":"a","steps":[
{"do":"frame","as":"f","init":{"format":"I420","codedWidth":2,"codedHeight":2,"timestamp":0,"data":"010203040506"}},
{"do":"frame","as":"g","init":{"format":"I420","codedWidth":2,"codedHeight":2,"timestamp":40000,"data":"020304050607"}},
{"do":"configure","on":"e","config":{"codec":"x-raw-i420","width":2,"height":2,"keyInterval":1}},
{"do":"encode","on":"e","data":"f"},
{"do":"encode","on":"e","data":"g"}]}],
"order":["a","a","a","a","a",{"start":"e"},{"done":"e","at":1},{"turn":"e"},{"turn":"e"},
{"start":"e"},{"done":"e","at":2},{"start":"e"},{"done":"e","at":3},{"turn":"e"},{"turn":"e"},{"turn":"e"}]}"#;

const KEYS_ALONE_REPORT: &str = "wcrun report 1
caller a
0 ok
1 ok
2 e.0 ok
3 e.1 ok
4 e.2 ok
codec e video-encoder 4
0 a.2 configure = ok
1 a.3 encode = ok
2 a.4 encode = ok
3 start 0.0
4 done 0.0 1 ran 0
5 turn unblock
6 turn process
7 start 0.1
8 done 0.1 2 ran 1
9 start 0.2
10 done 0.2 3 ran 1
11 turn dequeue
  dequeue
12 turn output
  output chunk key 0 - 00010203040506
13 turn output
  output chunk key 40000 - 00020304050607
pool
0 a.0 make 0 0
1 a.1 make 1 1
2 e.1 clone 0 2
3 e.2 clone 1 3
4 e.8 end 0 2 kept
5 e.10 end 1 3 kept
slots
0 e.3 acquire encode:x-raw-i420 0
held 2
end
";

// A frame of another size than the config's closes the codec, and its clone ends with its item.
const OTHER_SIZE: &str =
    r#"{"codecs":[{"name":"e","kind":"video-encoder"}],"callers":[{"name":"a","steps":[
{"do":"frame","as":"f","init":{"format":"I420","codedWidth":2,"codedHeight":2,"timestamp":0,"data":"010203040506"}},
{"do":"frame","as":"g","init":{"format":"I420","codedWidth":4,"codedHeight":2,"timestamp":40000,
"data":"0102030405060708090a0b0c"}},
{"do":"configure","on":"e","config":{"codec":"x-raw-i420","width":2,"height":2}},
{"do":"encode","on":"e","data":"f"},
{"do":"encode","on":"e","data":"g"}]}],
"order":["a","a","a","a","a",{"start":"e"},{"done":"e","at":1},{"turn":"e"},{"turn":"e"},
{"start":"e"},{"done":"e","at":2},{"turn":"e"},{"turn":"e"},{"start":"e"},{"done":"e","at":3},{"turn":"e"}]}"#;

const OTHER_SIZE_REPORT: &str = "wcrun report 1
caller a
0 ok
1 ok
2 e.0 ok
3 e.1 ok
4 e.2 ok
codec e video-encoder 4
0 a.2 configure = ok
1 a.3 encode = ok
2 a.4 encode = ok
3 start 0.0
4 done 0.0 1 ran 0
5 turn unblock
6 turn process
7 start 0.1
8 done 0.1 2 ran 1
9 turn dequeue
  dequeue
10 turn output
  output chunk key 0 - 00010203040506
11 start 0.2
12 done 0.2 3 refused
13 turn close EncodingError
  error EncodingError
pool
0 a.0 make 0 0
1 a.1 make 1 1
2 e.1 clone 0 2
3 e.2 clone 1 3
4 e.8 end 0 2 kept
5 e.12 end 1 3 kept
slots
0 e.3 acquire encode:x-raw-i420 0
1 e.13 give encode:x-raw-i420 0
held 2
end
";

// A key chunk for every second frame, counted from the last flush on: of five frames with a flush behind the third, the first,
// the third, and the fourth. What is taken away passes 0.
const EVERY_SECOND: &str =
    r#"{"codecs":[{"name":"e","kind":"video-encoder"}],"callers":[{"name":"a","steps":[
{"do":"frame","as":"f","init":{"format":"I444","codedWidth":1,"codedHeight":1,"timestamp":0,"data":"102030"}},
{"do":"frame","as":"g","init":{"format":"I444","codedWidth":1,"codedHeight":1,"timestamp":1,"data":"111f30"}},
{"do":"frame","as":"h","init":{"format":"I444","codedWidth":1,"codedHeight":1,"timestamp":2,"duration":3,"data":"000001"}},
{"do":"frame","as":"i","init":{"format":"I444","codedWidth":1,"codedHeight":1,"timestamp":3,"data":"ff00fe"}},
{"do":"frame","as":"j","init":{"format":"I444","codedWidth":1,"codedHeight":1,"timestamp":4,"data":"00ffff"}},
{"do":"configure","on":"e","config":{"codec":"x-raw-i444","width":1,"height":1,"keyInterval":2}},
{"do":"encode","on":"e","data":"f"},
{"do":"encode","on":"e","data":"g"},
{"do":"encode","on":"e","data":"h"},
{"do":"flush","on":"e","as":"p"},
{"do":"encode","on":"e","data":"i"},
{"do":"encode","on":"e","data":"j"}]}],
"order":["a","a","a","a","a","a","a","a","a","a",{"start":"e"},{"done":"e","at":1},{"turn":"e"},{"turn":"e"},
{"start":"e"},{"done":"e","at":2},{"turn":"e"},{"turn":"e"},{"start":"e"},{"done":"e","at":3},{"turn":"e"},
{"start":"e"},{"done":"e","at":4},{"turn":"e"},{"start":"e"},{"done":"e","at":5},{"turn":"e"},"a","a",
{"start":"e"},{"done":"e","at":6},{"turn":"e"},{"turn":"e"},{"start":"e"},{"done":"e","at":7},{"turn":"e"}]}"#;

const EVERY_SECOND_REPORT: &str = "wcrun report 1
caller a
0 ok
1 ok
2 ok
3 ok
4 ok
5 e.0 ok
6 e.1 ok
7 e.2 ok
8 e.3 ok
9 e.4 ok
10 e.22 ok
11 e.23 ok
codec e video-encoder 4
0 a.5 configure = ok
1 a.6 encode = ok
2 a.7 encode = ok
3 a.8 encode = ok
4 a.9 flush = ok
5 start 0.0
6 done 0.0 1 ran 0
7 turn unblock
8 turn process
9 start 0.1
10 done 0.1 2 ran 1
11 turn dequeue
  dequeue
12 turn output
  output chunk key 0 - 00102030
13 start 0.2
14 done 0.2 3 ran 1
15 turn output
  output chunk delta 1 - 0101ff00
16 start 0.3
17 done 0.3 4 ran 1
18 turn output
  output chunk key 2 3 00000001
19 start 0.4
20 done 0.4 5 ran 0
21 turn flushed
  resolve 4
22 a.10 encode = ok
23 a.11 encode = ok
24 start 0.5
25 done 0.5 6 ran 1
26 turn dequeue
  dequeue
27 turn output
  output chunk key 3 - 00ff00fe
28 start 0.6
29 done 0.6 7 ran 1
30 turn output
  output chunk delta 4 - 0101ff01
pool
0 a.0 make 0 0
1 a.1 make 1 1
2 a.2 make 2 2
3 a.3 make 3 3
4 a.4 make 4 4
5 e.1 clone 0 5
6 e.2 clone 1 6
7 e.3 clone 2 7
8 e.10 end 0 5 kept
9 e.14 end 1 6 kept
10 e.17 end 2 7 kept
11 e.22 clone 3 8
12 e.23 clone 4 9
13 e.25 end 3 8 kept
14 e.29 end 4 9 kept
slots
0 e.5 acquire encode:x-raw-i444 0
held 5
end
";

// A transcode frame by frame: each chunk is taken from the encoder and decoded, and the picture that is taken is the frame.
const TRANSCODE: &str =
    r#"{"codecs":[{"name":"e","kind":"video-encoder"},{"name":"d","kind":"video-decoder"}],
"callers":[{"name":"a","steps":[
{"do":"frame","as":"f","init":{"format":"I420","codedWidth":2,"codedHeight":2,"timestamp":0,"data":"010203040506"}},
{"do":"frame","as":"g","init":{"format":"I420","codedWidth":2,"codedHeight":2,"timestamp":40000,"data":"020304050607"}},
{"do":"configure","on":"e","config":{"codec":"x-raw-i420","width":2,"height":2}},
{"do":"configure","on":"d","config":{"codec":"x-raw-i420","codedWidth":2,"codedHeight":2}},
{"do":"encode","on":"e","data":"f"},
{"do":"encode","on":"e","data":"g"},
{"do":"take","on":"e","as":"c"},
{"do":"decode","on":"d","chunk":"c"},
{"do":"take","on":"d","as":"w"},
{"do":"copy","of":"w","size":6},
{"do":"take","on":"e","as":"k"},
{"do":"decode","on":"d","chunk":"k"},
{"do":"take","on":"d","as":"x"},
{"do":"copy","of":"x","size":6}]}],
"order":["a","a","a","a","a","a",{"start":"e"},{"done":"e","at":1},{"turn":"e"},{"turn":"e"},
{"start":"e"},{"done":"e","at":2},{"turn":"e"},{"turn":"e"},{"start":"e"},{"done":"e","at":3},{"turn":"e"},"a","a",
{"start":"d"},{"done":"d","at":4},{"turn":"d"},{"turn":"d"},{"start":"d"},{"done":"d","at":5},{"turn":"d"},{"turn":"d"},
"a","a","a","a",{"start":"d"},{"done":"d","at":6},{"turn":"d"},{"turn":"d"},"a","a"]}"#;

const TRANSCODE_REPORT: &str = "wcrun report 1
caller a
0 ok
1 ok
2 e.0 ok
3 d.0 ok
4 e.1 ok
5 e.2 ok
6 e.14 unit 0
7 d.1 ok
8 d.10 unit 0
9 copied 6 0:2,4:1,5:1 010203040506
10 e.15 unit 1
11 d.11 ok
12 d.16 unit 1
13 copied 6 0:2,4:1,5:1 020304050607
codec e video-encoder 4
0 a.2 configure = ok
1 a.4 encode = ok
2 a.5 encode = ok
3 start 0.0
4 done 0.0 1 ran 0
5 turn unblock
6 turn process
7 start 0.1
8 done 0.1 2 ran 1
9 turn dequeue
  dequeue
10 turn output
  output chunk key 0 - 00010203040506
11 start 0.2
12 done 0.2 3 ran 1
13 turn output
  output chunk delta 40000 - 01010101010101
14 a.6 take = 0
15 a.10 take = 1
codec d video-decoder 4
0 a.3 configure = ok
1 a.7 decode = ok
2 start 0.0
3 done 0.0 4 ran 0
4 turn unblock
5 turn process
6 start 0.1
7 done 0.1 5 ran 1
8 turn dequeue
  dequeue
9 turn output
  output video I420 2 2 0 - 010203040506
10 a.8 take = 0
11 a.11 decode = ok
12 start 0.2
13 done 0.2 6 ran 1
14 turn dequeue
  dequeue
15 turn output
  output video I420 2 2 40000 - 020304050607
16 a.12 take = 1
pool
0 a.0 make 0 0
1 a.1 make 1 1
2 e.1 clone 0 2
3 e.2 clone 1 3
4 e.8 end 0 2 kept
5 e.12 end 1 3 kept
6 a.8 make 2 4
7 a.12 make 3 5
slots
0 e.3 acquire encode:x-raw-i420 0
1 d.2 acquire decode:x-raw-i420 0
held 4
end
";

// Each way in which an encode of a frame is refused or finds nothing, and configs that are invalid or not supported.
const REFUSED: &str =
    r#"{"codecs":[{"name":"e","kind":"video-encoder"}],"callers":[{"name":"a","steps":[
{"do":"frame","as":"f","init":{"format":"NV12","codedWidth":1,"codedHeight":1,"timestamp":0,"data":"010203"}},
{"do":"encode","on":"e","data":"f"},
{"do":"configure","on":"e","config":{"codec":"x-raw-nv12","width":0,"height":1}},
{"do":"configure","on":"e","config":{"codec":" ","width":1,"height":1}},
{"do":"configure","on":"e","config":{"codec":"x-raw-nv12","height":1}},
{"do":"configure","on":"e","config":{"codec":"x-raw-nv12","width":1,"height":1}},
{"do":"frame","as":"g","init":{"format":"NV12","codedWidth":1,"codedHeight":1,"timestamp":0,"data":"01"}},
{"do":"encode","on":"e","data":"g"},
{"do":"close-data","of":"f"},
{"do":"encode","on":"e","data":"f"},
{"do":"configure","on":"e","config":{"codec":"x-raw-nv12","width":16385,"height":1}}]}],
"order":["a","a","a","a","a","a","a","a","a","a",{"start":"e"},{"done":"e","at":1},{"turn":"e"},{"turn":"e"},"a",
{"start":"e"},{"done":"e","at":2},{"turn":"e"}]}"#;

const REFUSED_REPORT: &str = "wcrun report 1
caller a
0 ok
1 e.0 InvalidStateError
2 e.1 TypeError
3 e.2 TypeError
4 e.3 TypeError
5 e.4 ok
6 TypeError
7 absent
8 ok
9 e.5 TypeError
10 e.10 ok
codec e video-encoder 4
0 a.1 encode = InvalidStateError
1 a.2 configure = TypeError
2 a.3 configure = TypeError
3 a.4 configure = TypeError
4 a.5 configure = ok
5 a.9 encode = TypeError
6 start 0.0
7 done 0.0 1 ran 0
8 turn unblock
9 turn process
10 a.10 configure = ok
11 start 0.1
12 done 0.1 2 refused
13 turn close NotSupportedError
  error NotSupportedError
pool
0 a.0 make 0 0
1 a.8 end 0 0 gone
slots
0 e.6 acquire encode:x-raw-nv12 0
1 e.13 give encode:x-raw-nv12 0
held 0
end
";

#[test]
fn frames_are_encoded_as_the_order_says(rt: HostRuntime) -> Result<(), Fail> {
    let rows = [
        (KEY_AND_DELTA, 0, KEY_AND_DELTA_REPORT),
        (KEYS_ALONE, 0, KEYS_ALONE_REPORT),
        (OTHER_SIZE, 0, OTHER_SIZE_REPORT),
        (EVERY_SECOND, 0, EVERY_SECOND_REPORT),
        (TRANSCODE, 0, TRANSCODE_REPORT),
        (REFUSED, 0, REFUSED_REPORT),
    ];
    each_ends(&rt, &rows)
}
