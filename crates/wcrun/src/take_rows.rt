// Whole replays in which callers take outputs. The reports are written by hand from the rules of docs/FORMATS.md.
use crate::tests::each_ends;
use std::test::Fail;

// Two callers take the outputs of one decoder in their order: none is left before the first and after the second; the
// second take leaves the codec before it is reset, and its samples stay with the caller.
const SOUND: &str =
    r#"{"codecs":[{"name":"d","kind":"audio-decoder"}],"callers":[{"name":"a","steps":[
{"do":"configure","on":"d","config":{"codec":"pcm-s16","sampleRate":8000,"numberOfChannels":1}},
{"do":"chunk","as":"c","init":{"type":"key","timestamp":0,"data":"01000200"}},
{"do":"decode","on":"d","chunk":"c"},
{"do":"chunk","as":"e","init":{"type":"key","timestamp":250,"data":"0300"}},
{"do":"decode","on":"d","chunk":"e"},
{"do":"take","on":"d","as":"t"},
{"do":"copy","of":"t","options":{"planeIndex":0},"size":4},
{"do":"close-data","of":"t"},
{"do":"take","on":"d","as":"u"},
{"do":"size","of":"u","options":{"planeIndex":0}}]},
{"name":"b","steps":[
{"do":"take","on":"d","as":"x"},
{"do":"take","on":"d","as":"y"},
{"do":"reset","on":"d"},
{"do":"size","of":"y","options":{"planeIndex":0}}]}],
"order":["b","a","a","a","a","a",{"start":"d"},{"done":"d","at":1},{"turn":"d"},{"turn":"d"},
{"start":"d"},{"done":"d","at":2},{"turn":"d"},{"turn":"d"},{"start":"d"},{"done":"d","at":3},{"turn":"d"},
"a","b","b","a","a","a","b","a"]}"#;

const SOUND_REPORT: &str = "wcrun report 1
caller a
0 d.0 ok
1 ok
2 d.1 ok
3 ok
4 d.2 ok
5 d.14 unit 0
6 copied 4 01000200
7 ok
8 d:17 none
9 absent
caller b
0 d:0 none
1 d.15 unit 1
2 d.16 ok
3 size 2
codec d audio-decoder 4
0 a.0 configure = ok
1 a.2 decode = ok
2 a.4 decode = ok
3 start 0.0
4 done 0.0 1 ran 0
5 turn unblock
6 turn process
7 start 0.1
8 done 0.1 2 ran 1
9 turn dequeue
  dequeue
10 turn output
  output audio s16 8000 1 2 0 250 01000200
11 start 0.2
12 done 0.2 3 ran 1
13 turn output
  output audio s16 8000 1 1 250 125 0300
14 a.5 take = 0
15 b.1 take = 1
16 b.2 reset = ok
pool
0 a.5 make 0 0
1 b.1 make 1 1
2 a.7 end 0 0 gone
slots
0 d.3 acquire decode:pcm-s16 0
1 d.16 give decode:pcm-s16 0
held 1
end
";

// A picture that was shown before its codec was closed is taken after it.
const PICTURE: &str =
    r#"{"codecs":[{"name":"v","kind":"video-decoder"}],"callers":[{"name":"a","steps":[
{"do":"configure","on":"v","config":{"codec":"x-raw-i420","codedWidth":3,"codedHeight":1}},
{"do":"chunk","as":"k","init":{"type":"key","timestamp":0,"duration":40000,"data":"00010203040506ff"}},
{"do":"decode","on":"v","chunk":"k"},
{"do":"close","on":"v"},
{"do":"take","on":"v","as":"f"},
{"do":"copy","of":"f","size":7},
{"do":"take","on":"v","as":"g"},
{"do":"clone","of":"f","as":"h"},
{"do":"close-data","of":"f"}]}],
"order":["a","a","a",{"start":"v"},{"done":"v","at":1},{"turn":"v"},{"turn":"v"},{"start":"v"},{"done":"v","at":2},
{"turn":"v"},{"turn":"v"},"a","a","a","a","a","a"]}"#;

const PICTURE_REPORT: &str = "wcrun report 1
caller a
0 v.0 ok
1 ok
2 v.1 ok
3 v.10 ok
4 v.11 unit 0
5 copied 7 0:3,3:2,5:2 010203040506ff
6 v:12 none
7 ok
8 ok
codec v video-decoder 4
0 a.0 configure = ok
1 a.2 decode = ok
2 start 0.0
3 done 0.0 1 ran 0
4 turn unblock
5 turn process
6 start 0.1
7 done 0.1 2 ran 1
8 turn dequeue
  dequeue
9 turn output
  output video I420 3 1 0 40000 010203040506ff
10 a.3 close = ok
11 a.4 take = 0
pool
0 a.4 make 0 0
1 a.7 clone 0 1
2 a.8 end 0 0 kept
slots
0 v.2 acquire decode:x-raw-i420 0
1 v.10 give decode:x-raw-i420 0
held 1
end
";

#[test]
fn outputs_are_taken_in_the_order_in_which_they_are_shown(rt: HostRuntime) -> Result<(), Fail> {
    let rows = [(SOUND, 0, SOUND_REPORT), (PICTURE, 0, PICTURE_REPORT)];
    each_ends(&rt, &rows)
}
