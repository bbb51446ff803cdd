// Whole replays in which FLAC is encoded. The reports come from the rules of docs/FORMATS.md and RFC 9639, apart from the
// program: by hand, and the places and frames of the longer ones by a second reading of these rules. The two long frames
// are compared by their beginning, their length and their CRC-16 alone.
use crate::tests::call_on;
use std::alloc::Global;
use std::process::Abort;
use std::sync::Wait;
use std::test::Fail;
use std::thread::Threads;

// A piece of a text, so many times. Each `#` in it stands for the next of these numbers, which grow by their steps from one
// time to the next; `<` and `>` stand for `FIRST_VALUES` and `OTHER_VALUES`, and `*` in a report for any byte.
type Piece = (&'static str, u64, &'static [(u64, u64)]);

// The values of the bytes 0 to 95 of mu-law, and those of the bytes 96 to 159.
const FIRST_VALUES: &str =
    "84828486848a848e84928496849a849e84a284a684aa84ae84b284b684ba84be84c184c384c584c784c984cb84cd84cf84d184d384d584d784d984db84dd84df04e104e204e304e404e504e604e704e804e904ea04eb04ec04ed04ee04ef04f0c4f044f1c4f144f2c4f244f3c4f344f4c4f444f5c4f544f6c4f644f7c4f744f8a4f8e4f824f964f9a4f9e4f924fa64faa4fae4fa24fb64fba4fbe4fb24fc64fc94fcb4fcd4fcf4fc14fd34fd54fd74fd94fdb4fdd4fdf4fd14fe34fe54fe74fe";

const OTHER_VALUES: &str =
    "8cfe9cfeacfebcfeccfedcfeecfefcfe0cff1cff2cff3cff4cff5cff6cff7cff88ff90ff98ffa0ffa8ffb0ffb8ffc0ffc8ffd0ffd8ffe0ffe8fff0fff8ff00007c7d7c797c757c717c6d7c697c657c617c5d7c597c557c517c4d7c497c457c417c3e7c3c7c3a7c387c367c347c327c307c2e7c2c7c2a7c287c267c247c227c20";

// Of 4097 equal samples the encode gives a block of 4096, and the flush the last one as a block of its own.
const ENCODING: [Piece; 5] = [
    (
        r#"{"codecs":[{"name":"e","kind":"audio-encoder"}],"callers":[{"name":"a","steps":[
{"do":"audio","as":"x","init":{"format":"s16","sampleRate":8000,"numberOfFrames":4097,"numberOfChannels":1,
"timestamp":0,"data":""#,
        1,
        &[],
    ),
    ("e803", 4097, &[]),
    (
        r#""}},
{"do":"configure","on":"e","config":{"codec":"flac","sampleRate":8000,"numberOfChannels":1}},
{"do":"encode","on":"e","data":"x"},
{"do":"flush","on":"e","as":"p"},
{"do":"await","promise":"p"}]}],
"order":["a","a","a","a","#,
        1,
        &[],
    ),
    (
        r#"{"start":"e"},{"done":"e","at":0},{"turn":"e"},{"turn":"e"},{"turn":"e"},"#,
        60,
        &[],
    ),
    (r#""a"]}"#, 1, &[]),
];

const ENCODING_REPORT: [Piece; 3] = [
    (
        "wcrun report 1
caller a
0 ok
1 e.0 ok
2 e.1 ok
3 e.2 ok
4 e:14 resolved
codec e audio-encoder 4
0 a.1 configure = ok
1 a.2 encode = ok
2 a.3 flush = ok
3 start 0.0
4 done 0.0 0 ran 0
5 turn unblock
6 turn process
7 turn dequeue
  dequeue
8 start 0.1
9 done 0.1 0 ran 1
10 turn output
  output chunk key 0 512000 fff8c40800040003e8f024
  config flac 8000 1 664c6143800000221000100000000000000001f400f000000000",
        1,
        &[],
    ),
    ("0", 32, &[]),
    (
        "
11 start 0.2
12 done 0.2 0 ran 1
13 turn flushed
  output chunk key 512000 125 fff864080100f60003e81c57
  resolve 2
pool
0 a.0 make 0 0
1 e.1 clone 0 1
2 e.9 end 0 1 kept
slots
0 e.3 acquire encode:flac 0
held 1
end
",
        1,
        &[],
    ),
];

// Blocks of 16 frames over two sounds: each block's timestamp is counted from the sound that holds its first frame, what is left
// comes with the flush, and numbers begin anew after it. The config comes once.
const BLOCKS: [Piece; 10] = [
    (
        r#"{"codecs":[{"name":"e","kind":"audio-encoder"}],"callers":[{"name":"a","steps":[
{"do":"configure","on":"e","config":{"codec":"flac","sampleRate":8000,"numberOfChannels":2,
"flac":{"blockSize":16,"compressLevel":2}}},
{"do":"audio","as":"x","init":{"format":"s16","sampleRate":8000,"numberOfFrames":10,"numberOfChannels":2,
"timestamp":0,"data":""#,
        1,
        &[],
    ),
    ("03000000", 10, &[]),
    (
        r#""}},
{"do":"audio","as":"y","init":{"format":"s16","sampleRate":8000,"numberOfFrames":25,"numberOfChannels":2,
"timestamp":5000,"data":""#,
        1,
        &[],
    ),
    ("03000000", 25, &[]),
    (
        r#""}},
{"do":"encode","on":"e","data":"x"},
{"do":"encode","on":"e","data":"y"},
{"do":"flush","on":"e","as":"p"},
{"do":"await","promise":"p"},
{"do":"encode","on":"e","data":"y"},
{"do":"flush","on":"e","as":"q"},
{"do":"await","promise":"q"}]}],
"order":["#,
        1,
        &[],
    ),
    (r#""a","#, 6, &[]),
    (
        r#"{"start":"e"},{"done":"e","at":0},{"turn":"e"},{"turn":"e"},{"turn":"e"},"#,
        60,
        &[],
    ),
    (r#""a","a","a","#, 1, &[]),
    (
        r#"{"start":"e"},{"done":"e","at":0},{"turn":"e"},{"turn":"e"},{"turn":"e"},"#,
        60,
        &[],
    ),
    (r#""a"]}"#, 1, &[]),
];

const BLOCKS_REPORT: [Piece; 3] = [
    (
        "wcrun report 1
caller a
0 e.0 ok
1 ok
2 ok
3 e.1 ok
4 e.2 ok
5 e.3 ok
6 e:17 resolved
7 e.17 ok
8 e.18 ok
9 e:26 resolved
codec e audio-encoder 4
0 a.0 configure = ok
1 a.3 encode = ok
2 a.4 encode = ok
3 a.5 flush = ok
4 start 0.0
5 done 0.0 0 ran 0
6 turn unblock
7 turn process
8 turn dequeue
  dequeue
9 start 0.1
10 done 0.1 0 ran 0
11 start 0.2
12 done 0.2 0 ran 2
13 turn output
  output chunk key 0 2000 fff86418000f6c0000030000008ba6
  config flac 8000 2 664c6143800000220010001000000000000001f402f",
        1,
        &[],
    ),
    ("0", 32, &[]),
    (
        "000000000
  output chunk key 5750 2000 fff86418010f790000030000009996
14 start 0.3
15 done 0.3 0 ran 1
16 turn flushed
  output chunk key 7750 375 fff86418020265000003100038df0b
  resolve 3
17 a.7 encode = ok
18 a.8 flush = ok
19 start 0.4
20 done 0.4 0 ran 1
21 turn dequeue
  dequeue
22 turn output
  output chunk key 5000 2000 fff86418000f6c0000030000008ba6
23 start 0.5
24 done 0.5 0 ran 1
25 turn flushed
  output chunk key 7000 1125 fff8641801086c0000030000007dd7
  resolve 18
pool
0 a.1 make 0 0
1 a.2 make 1 1
2 e.1 clone 0 2
3 e.2 clone 1 3
4 e.10 end 0 2 kept
5 e.12 end 1 3 kept
6 e.17 clone 1 4
7 e.20 end 1 4 kept
slots
0 e.4 acquire encode:flac 0
held 2
end
",
        1,
        &[],
    ),
];

// A sound with another count of channels than the config's is refused.
const OTHER_CHANNELS: [Piece; 1] = [(
    r#"{"codecs":[{"name":"e","kind":"audio-encoder"}],"callers":[{"name":"a","steps":[
{"do":"audio","as":"x","init":{"format":"s16","sampleRate":8000,"numberOfFrames":1,"numberOfChannels":1,
"timestamp":0,"data":"0100"}},
{"do":"configure","on":"e","config":{"codec":"flac","sampleRate":8000,"numberOfChannels":2}},
{"do":"encode","on":"e","data":"x"},
{"do":"flush","on":"e","as":"p"}]}],
"order":["a","a","a",{"start":"e"},{"done":"e","at":1},{"turn":"e"},{"turn":"e"},
{"start":"e"},{"done":"e","at":2},{"turn":"e"},{"turn":"e"},"a"]}"#,
    1,
    &[],
)];

const OTHER_CHANNELS_REPORT: [Piece; 1] = [(
    "wcrun report 1
caller a
0 ok
1 e.0 ok
2 e.1 ok
3 e.10 ok
codec e audio-encoder 4
0 a.1 configure = ok
1 a.2 encode = ok
2 start 0.0
3 done 0.0 1 ran 0
4 turn unblock
5 turn process
6 start 0.1
7 done 0.1 2 refused
8 turn dequeue
  dequeue
9 turn close EncodingError
  error EncodingError
10 a.3 flush = ok
  reject 10 InvalidStateError
pool
0 a.0 make 0 0
1 e.1 clone 0 1
2 e.7 end 0 1 kept
slots
0 e.2 acquire encode:flac 0
1 e.9 give encode:flac 0
held 1
end
",
    1,
    &[],
)];

// An encoder of FLAC has at most eight channels.
const NINE_CHANNELS: [Piece; 1] = [(
    r#"{"codecs":[{"name":"e","kind":"audio-encoder"}],"callers":[{"name":"a","steps":[
{"do":"configure","on":"e","config":{"codec":"flac","sampleRate":8000,"numberOfChannels":9}},
{"do":"flush","on":"e","as":"p"}]}],
"order":["a","a",{"start":"e"},{"done":"e","at":5},{"turn":"e"}]}"#,
    1,
    &[],
)];

const NINE_CHANNELS_REPORT: [Piece; 1] = [(
    "wcrun report 1
caller a
0 e.0 ok
1 e.1 ok
codec e audio-encoder 4
0 a.0 configure = ok
1 a.1 flush = ok
2 start 0.0
3 done 0.0 5 refused
4 turn close NotSupportedError
  reject 1 NotSupportedError
  error NotSupportedError
pool
slots
held 0
end
",
    1,
    &[],
)];

// A chunk file of mu-law is decoded, encoded to FLAC, and decoded again: 50 sounds of 160 frames become two blocks, and these
// the same 8000 samples. In the end all is closed.
const TRANSCODE: [Piece; 23] = [
    (
        r#"{"codecs":[{"name":"u","kind":"audio-decoder"},{"name":"e","kind":"audio-encoder"},{"name":"f","kind":"audio-decoder"}],
"callers":[{"name":"a","steps":[
{"do":"configure","on":"u","config":{"codec":"ulaw","sampleRate":8000,"numberOfChannels":1}},
{"do":"configure","on":"e","config":{"codec":"flac","sampleRate":8000,"numberOfChannels":1}},
{"do":"configure","on":"f","config":{"codec":"flac","sampleRate":8000,"numberOfChannels":1,
"description":"664c6143800000221000100000000000000001f400f000000000"#,
        1,
        &[],
    ),
    ("0", 32, &[]),
    (
        r#""}},
"#,
        1,
        &[],
    ),
    (
        r#"{"do":"chunk","as":"c#","file":"f","index":#},
"#,
        50,
        &[(0, 1), (0, 1)],
    ),
    (
        r#"{"do":"decode","on":"u","chunk":"c#"},
"#,
        50,
        &[(0, 1)],
    ),
    (
        r#"{"do":"flush","on":"u","as":"p"},
{"do":"await","promise":"p"},
"#,
        1,
        &[],
    ),
    (
        r#"{"do":"take","on":"u","as":"x#"},
"#,
        50,
        &[(0, 1)],
    ),
    (
        r#"{"do":"encode","on":"e","data":"x#"},
"#,
        50,
        &[(0, 1)],
    ),
    (
        r#"{"do":"flush","on":"e","as":"q"},
{"do":"await","promise":"q"},
"#,
        1,
        &[],
    ),
    (
        r#"{"do":"take","on":"e","as":"k#"},
"#,
        2,
        &[(0, 1)],
    ),
    (
        r#"{"do":"decode","on":"f","chunk":"k#"},
"#,
        2,
        &[(0, 1)],
    ),
    (
        r#"{"do":"flush","on":"f","as":"r"},
{"do":"await","promise":"r"},
"#,
        1,
        &[],
    ),
    (
        r#"{"do":"take","on":"f","as":"y#"},
"#,
        2,
        &[(0, 1)],
    ),
    (
        r#"{"do":"close-data","of":"x#"},
"#,
        50,
        &[(0, 1)],
    ),
    (
        r#"{"do":"close-data","of":"y0"},
{"do":"close-data","of":"y1"}]}],
"order":["#,
        1,
        &[],
    ),
    (r#""a","#, 104, &[]),
    (
        r#"{"start":"u"},{"done":"u","at":0},{"turn":"u"},{"turn":"u"},{"turn":"u"},"#,
        60,
        &[],
    ),
    (r#""a","#, 102, &[]),
    (
        r#"{"start":"e"},{"done":"e","at":0},{"turn":"e"},{"turn":"e"},{"turn":"e"},"#,
        60,
        &[],
    ),
    (r#""a","#, 6, &[]),
    (
        r#"{"start":"f"},{"done":"f","at":0},{"turn":"f"},{"turn":"f"},{"turn":"f"},"#,
        60,
        &[],
    ),
    (r#""a","#, 54, &[]),
    (r#""a"]}"#, 1, &[]),
];

const TRANSCODE_REPORT: [Piece; 45] = [
    (
        "wcrun report 1
caller a
0 u.0 ok
1 e.0 ok
2 f.0 ok
",
        1,
        &[],
    ),
    (
        "# ok
",
        50,
        &[(3, 1)],
    ),
    (
        "# u.# ok
",
        51,
        &[(53, 1), (1, 1)],
    ),
    (
        "104 u:303 resolved
",
        1,
        &[],
    ),
    (
        "# u.# unit #
",
        50,
        &[(105, 1), (303, 1), (0, 1)],
    ),
    (
        "# e.# ok
",
        51,
        &[(155, 1), (1, 1)],
    ),
    (
        "206 e:254 resolved
207 e.254 unit 0
208 e.255 unit 1
209 f.1 ok
210 f.2 ok
211 f.3 ok
212 f:18 resolved
213 f.18 unit 0
214 f.19 unit 1
",
        1,
        &[],
    ),
    (
        "# ok
",
        52,
        &[(215, 1)],
    ),
    (
        "codec u audio-decoder 4
0 a.0 configure = ok
",
        1,
        &[],
    ),
    (
        "# a.# decode = ok
",
        50,
        &[(1, 1), (53, 1)],
    ),
    (
        "51 a.103 flush = ok
52 start 0.0
53 done 0.0 0 ran 0
54 turn unblock
55 turn process
56 turn dequeue
  dequeue
",
        1,
        &[],
    ),
    (
        "# start 0.#
# done 0.# 0 ran 1
# turn desaturate
# turn output
  output audio s16 8000 1 160 # 20000 <>
# turn dequeue
  dequeue
",
        46,
        &[
            (57, 5),
            (1, 1),
            (58, 5),
            (1, 1),
            (59, 5),
            (60, 5),
            (0, 20000),
            (61, 5),
        ],
    ),
    (
        "287 start 0.47
288 done 0.47 0 ran 1
289 turn desaturate
290 turn output
  output audio s16 8000 1 160 920000 20000 <>
",
        1,
        &[],
    ),
    (
        "# start 0.#
# done 0.# 0 ran 1
# turn output
  output audio s16 8000 1 160 # 20000 <>
",
        3,
        &[
            (291, 3),
            (48, 1),
            (292, 3),
            (48, 1),
            (293, 3),
            (940000, 20000),
        ],
    ),
    (
        "300 start 0.51
301 done 0.51 0 ran 0
302 turn flushed
  resolve 51
",
        1,
        &[],
    ),
    (
        "# a.# take = #
",
        50,
        &[(303, 1), (105, 1), (0, 1)],
    ),
    (
        "codec e audio-encoder 4
0 a.1 configure = ok
",
        1,
        &[],
    ),
    (
        "# a.# encode = ok
",
        50,
        &[(1, 1), (155, 1)],
    ),
    (
        "51 a.205 flush = ok
52 start 0.0
53 done 0.0 0 ran 0
54 turn unblock
55 turn process
56 turn dequeue
  dequeue
",
        1,
        &[],
    ),
    (
        "# start 0.#
# done 0.# 0 ran 0
# turn desaturate
# turn dequeue
  dequeue
",
        25,
        &[(57, 4), (1, 1), (58, 4), (1, 1), (59, 4), (60, 4)],
    ),
    (
        "157 start 0.26
158 done 0.26 0 ran 1
159 turn desaturate
160 turn output
  output chunk key 0 512000 fff8c408000412828402",
        1,
        &[],
    ),
    ("*", 12536, &[]),
    (
        "8d4a
  config flac 8000 1 664c6143800000221000100000000000000001f400f000000000",
        1,
        &[],
    ),
    ("0", 32, &[]),
    (
        "
161 turn dequeue
  dequeue
",
        1,
        &[],
    ),
    (
        "# start 0.#
# done 0.# 0 ran 0
# turn desaturate
# turn dequeue
  dequeue
",
        20,
        &[(162, 4), (27, 1), (163, 4), (27, 1), (164, 4), (165, 4)],
    ),
    (
        "242 start 0.47
243 done 0.47 0 ran 0
244 turn desaturate
",
        1,
        &[],
    ),
    (
        "# start 0.#
# done 0.# 0 ran 0
",
        3,
        &[(245, 2), (48, 1), (246, 2), (48, 1)],
    ),
    (
        "251 start 0.51
252 done 0.51 0 ran 1
253 turn flushed
  output chunk key 512000 488000 fff87408010f3f8012fe8c02",
        1,
        &[],
    ),
    ("*", 11966, &[]),
    (
        "7fbc
  resolve 51
254 a.207 take = 0
255 a.208 take = 1
codec f audio-decoder 4
0 a.2 configure = ok
1 a.209 decode = ok
2 a.210 decode = ok
3 a.211 flush = ok
4 start 0.0
5 done 0.0 0 ran 0
6 turn unblock
7 turn process
8 turn dequeue
  dequeue
9 start 0.1
10 done 0.1 0 ran 1
11 turn output
  output audio s16 8000 1 4096 0 512000 ",
        1,
        &[],
    ),
    ("<>", 25, &[]),
    (
        "<
12 start 0.2
13 done 0.2 0 ran 1
14 turn output
  output audio s16 8000 1 3904 512000 488000 >",
        1,
        &[],
    ),
    ("<>", 24, &[]),
    (
        "
15 start 0.3
16 done 0.3 0 ran 0
17 turn flushed
  resolve 3
18 a.213 take = 0
19 a.214 take = 1
pool
",
        1,
        &[],
    ),
    (
        "# a.# make # #
",
        50,
        &[(0, 1), (105, 1), (0, 1), (0, 1)],
    ),
    (
        "# e.# clone # #
",
        50,
        &[(50, 1), (1, 1), (0, 1), (50, 1)],
    ),
    (
        "# e.# end # # kept
",
        25,
        &[(100, 1), (58, 4), (0, 1), (50, 1)],
    ),
    (
        "125 e.158 end 25 75 kept
",
        1,
        &[],
    ),
    (
        "# e.# end # # kept
",
        20,
        &[(126, 1), (163, 4), (26, 1), (76, 1)],
    ),
    (
        "146 e.243 end 46 96 kept
",
        1,
        &[],
    ),
    (
        "# e.# end # # kept
",
        3,
        &[(147, 1), (246, 2), (47, 1), (97, 1)],
    ),
    (
        "150 a.213 make 50 100
151 a.214 make 51 101
",
        1,
        &[],
    ),
    (
        "# a.# end # # gone
",
        50,
        &[(152, 1), (215, 1), (0, 1), (0, 1)],
    ),
    (
        "202 a.265 end 50 100 gone
203 a.266 end 51 101 gone
slots
0 u.52 acquire decode:ulaw 0
1 e.52 acquire encode:flac 0
2 f.4 acquire decode:flac 0
held 0
end
",
        1,
        &[],
    ),
];

// Appends a piece once more, with its numbers of this time.
fn push_piece(
    alloc: Global,
    text: &mut String,
    piece: &str,
    numbers: &[(u64, u64)],
    time: u64,
) -> Result<(), Fail> {
    let mut numbers = numbers.iter();
    for sign in piece.chars() {
        match sign {
            '#' => {
                let (first, step) = numbers.next().copied().unwrap_or((0, 0));
                let number = first.saturating_add(step.saturating_mul(time));
                text.push_str(&format!(in alloc; "{number}")?)?;
            }
            '<' => text.push_str(FIRST_VALUES)?,
            '>' => text.push_str(OTHER_VALUES)?,
            other => text.push(other)?,
        }
    }
    Ok(())
}

fn text_of(alloc: Global, pieces: &[Piece]) -> Result<String, Fail> {
    let mut text = String::new(alloc);
    for (piece, times, numbers) in pieces {
        for time in 0..*times {
            push_piece(alloc, &mut text, piece, numbers, time)?;
        }
    }
    Ok(text)
}

// A chunk file of 50 key chunks, each of the bytes 0 to 159, and 20000 microseconds after the one before.
fn chunk_file(alloc: Global) -> Result<Vec<u8>, Fail> {
    let mut file = Vec::from_slice(alloc, b"WCC1")?;
    for n in 0..50_u64 {
        file.push(0)?;
        file.extend_from_slice(&(20000 * n).to_be_bytes())?;
        file.extend_from_slice(&[0; 9])?;
        file.extend_from_slice(&160_u32.to_be_bytes())?;
        for byte in 0..160_u8 {
            file.push(byte)?;
        }
    }
    Ok(file)
}

// Whether the bytes are those of the text, where it has no `*`.
fn agrees(bytes: &[u8], text: &[u8]) -> bool {
    bytes.len() == text.len() && bytes.iter().zip(text).all(|(b, t)| b == t || *t == b'*')
}

// Replays a script, and compares what is written.
fn is_told(
    rt: &(impl Threads + Wait + Sync + Abort + Alloc<A = Global>),
    script: &[Piece],
    report: &[Piece],
) -> Result<(), Fail> {
    let alloc = rt.alloc();
    let script = text_of(alloc, script)?;
    let report = text_of(alloc, report)?;
    let name = String::from_str(alloc, "s.json")?;
    let media = (String::from_str(alloc, "f")?, chunk_file(alloc)?);
    let files = vec![in alloc; (name, script.into_bytes()), media]?;
    let words = ["replay", "s.json"];
    let (answer, sink) = call_on(rt, files, &words, Vec::new(alloc), Vec::new(alloc))?;
    assert!(rt; agrees(sink.bytes(), report.as_bytes()), "at {report}");
    assert_eq!(rt; answer, 0, "at {report}");
    Ok(())
}

#[test]
fn flac_is_encoded_or_refused(rt: HostRuntime) -> Result<(), Fail> {
    is_told(&rt, &ENCODING, &ENCODING_REPORT)?;
    is_told(&rt, &BLOCKS, &BLOCKS_REPORT)?;
    is_told(&rt, &OTHER_CHANNELS, &OTHER_CHANNELS_REPORT)?;
    is_told(&rt, &NINE_CHANNELS, &NINE_CHANNELS_REPORT)
}

#[test]
fn a_transcode_keeps_each_sample(rt: HostRuntime) -> Result<(), Fail> {
    is_told(&rt, &TRANSCODE, &TRANSCODE_REPORT)
}
