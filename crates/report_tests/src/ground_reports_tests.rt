// Reports of runs in which a codec is told where it is at work, read back and written again; and texts with a fault at a line
// that was counted by hand.
use crate::encode_reports_tests::{each_is_judged, script_of};
use std::test::Fail;

const BACKGROUND: &str =
    r#"{"codecs":[{"name":"f","kind":"audio-decoder"}],"callers":[{"name":"a","steps":[
{"do":"configure","on":"f","config":{"codec":"ulaw","sampleRate":8000,"numberOfChannels":1}},
{"do":"ground","on":"f","to":"background"}]}],
"order":["a",{"start":"f"},{"done":"f","at":1000},{"turn":"f"},{"turn":"f"},"a",{"reclaim":"f","at":2000}]}"#;

const BACKGROUND_REPORT: &str = "wcrun report 1
caller a
0 f.0 ok
1 f.5 ok
codec f audio-decoder 4
0 a.0 configure = ok
1 start 0.0
2 done 0.0 1000 ran 0
3 turn unblock
4 turn process
5 a.1 ground background = ok
6 reclaim 2000
  error QuotaExceededError
pool
slots
0 f.1 acquire decode:ulaw 0
1 f.6 give decode:ulaw 0
held 0
end
";

const ENCODING: &str =
    r#"{"codecs":[{"name":"f","kind":"audio-decoder"}],"callers":[{"name":"a","steps":[
{"do":"configure","on":"f","config":{"codec":"ulaw","sampleRate":8000,"numberOfChannels":1}},
{"do":"ground","on":"f","to":"background-encoding"}]}],
"order":["a","a",{"start":"f"},{"done":"f","at":1000},{"reclaim":"f","at":10001000}]}"#;

const ENCODING_REPORT: &str = "wcrun report 1
caller a
0 f.0 ok
1 f.1 ok
codec f audio-decoder 4
0 a.0 configure = ok
1 a.1 ground background-encoding = ok
2 start 0.0
3 done 0.0 1000 ran 0
4 reclaim 10001000
  error QuotaExceededError
pool
slots
0 f.2 acquire decode:ulaw 0
1 f.4 give decode:ulaw 0
held 0
end
";

#[test]
fn grounds_are_those_of_their_steps(rt: HostRuntime) -> Result<(), Fail> {
    let told = "5 a.1 ground background = ok";
    let rows = [
        // the report as it is
        ("end\n", "end\n", None),
        // another ground than the step's, and none
        (told, "5 a.1 ground foreground = ok", Some(11)),
        (told, "5 a.1 ground away = ok", Some(11)),
        // a ground is never refused
        (told, "5 a.1 ground background = TypeError", Some(11)),
        // a step that tells no ground, and another call than the step's
        (told, "5 a.0 ground background = ok", Some(11)),
        (told, "5 a.1 reset = ok", Some(11)),
        // a decoder in the background may be reclaimed at any moment
        ("6 reclaim 2000", "6 reclaim 0", None),
    ];
    let alloc = rt.alloc();
    let script = script_of(alloc, BACKGROUND)?;
    each_is_judged(&rt, alloc, &script, BACKGROUND_REPORT, &rows)
}

#[test]
fn a_decoder_is_spared_beside_an_encoder(rt: HostRuntime) -> Result<(), Fail> {
    let rows = [
        ("end\n", "end\n", None),
        ("4 reclaim 10001000", "4 reclaim 10000999", Some(10)),
    ];
    let alloc = rt.alloc();
    let script = script_of(alloc, ENCODING)?;
    each_is_judged(&rt, alloc, &script, ENCODING_REPORT, &rows)
}
