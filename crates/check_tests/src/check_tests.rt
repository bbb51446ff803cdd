// Verdicts on the ordinary run's report, as it is and with a line of it changed; and on one where memory was wanted.
use coder_api::CoderBox;
use report_check::{Verdict, check};
use sample_coder::{Coding, SampleCoder};
use sample_conversion::SampleSize;
use script_types::Script;
use std::alloc::Global;
use std::process::Abort;
use std::test::Fail;
use wc_config::Role;
use wc_replay::missing_chunk;
use wc_script::read_script;

const SCRIPT: &str =
    "{\"codecs\":[{\"name\":\"d\",\"kind\":\"audio-decoder\"}],\"callers\":[{\"name\":\"a\",\"steps\":[
{\"do\":\"configure\",\"on\":\"d\",\"config\":{\"codec\":\"pcm-s16\",\"sampleRate\":8000,\"numberOfChannels\":1}},
{\"do\":\"chunk\",\"as\":\"c\",\"init\":{\"type\":\"key\",\"timestamp\":0,\"data\":\"01000200\"}},
{\"do\":\"decode\",\"on\":\"d\",\"chunk\":\"c\"},{\"do\":\"flush\",\"on\":\"d\",\"as\":\"p\"},{\"do\":\"await\",\"promise\":\"p\"}]}],
\"order\":[\"a\",\"a\",\"a\",\"a\",{\"start\":\"d\"},{\"done\":\"d\",\"at\":1},{\"turn\":\"d\"},{\"turn\":\"d\"},
{\"start\":\"d\"},{\"done\":\"d\",\"at\":2},{\"turn\":\"d\"},{\"turn\":\"d\"},{\"start\":\"d\"},{\"done\":\"d\",\"at\":3},{\"turn\":\"d\"},\"a\"]}";

const REPORT: &str =
    "wcrun report 1\ncaller a\n0 d.0 ok\n1 ok\n2 d.1 ok\n3 d.2 ok\n4 d:14 resolved\ncodec d audio-decoder 4\n0 a.0 configure = ok\n1 a.2 decode = ok\n2 a.3 flush = ok\n3 start 0.0\n4 done 0.0 1 ran 0\n5 turn unblock\n6 turn process\n7 start 0.1\n8 done 0.1 2 ran 1\n9 turn dequeue\n  dequeue\n10 turn output\n  output audio s16 8000 1 2 0 250 01000200\n11 start 0.2\n12 done 0.2 3 ran 0\n13 turn flushed\n  resolve 2\npool\nslots\n0 d.3 acquire decode:pcm-s16 0\nheld 0\nend\n";

// The same where the decode wants memory: the codec closes, and gives its box back.
const STARVED: &str =
    "wcrun report 1\ncaller a\n0 d.0 ok\n1 ok\n2 d.1 ok\n3 d.2 ok\n4 d:11 rejected OutOfMemory\ncodec d audio-decoder 4\n0 a.0 configure = ok\n1 a.2 decode = ok\n2 a.3 flush = ok\n3 start 0.0\n4 done 0.0 1 ran 0\n5 turn unblock\n6 turn process\n7 start 0.1\n8 done 0.1 2 no-memory\n9 turn dequeue\n  dequeue\n10 turn close OutOfMemory\n  reject 2 OutOfMemory\n  error OutOfMemory\npool\nslots\n0 d.3 acquire decode:pcm-s16 0\n1 d.10 give decode:pcm-s16 0\nheld 0\nend\n";

fn verdict_with(
    alloc: Global,
    script: &Script,
    coders: Vec<CoderBox>,
    report: &str,
) -> Result<Verdict, Fail> {
    let data = script.data();
    if data.order.is_none() || data.chunk_files.len() != 0 {
        return Err(Fail::from("script"));
    }
    if missing_chunk(script, &[]).is_some() {
        return Err(Fail::from("script"));
    }
    Ok(check(alloc, script, &[], coders, report.as_bytes())?)
}

fn verdict_of(alloc: Global, report: &str) -> Result<Verdict, Fail> {
    let Ok(script) = read_script(alloc, SCRIPT.as_bytes()) else {
        return Err(Fail::from("script"));
    };
    let coder = Box::new(
        alloc,
        SampleCoder::new(Role::Decode, Coding::Pcm(SampleSize::Two)),
    )?;
    let coders = vec![in alloc; CoderBox::of(coder)]?;
    verdict_with(alloc, &script, coders, report)
}

// The report with one text in the place of another: 0 where it is right, or the line at fault.
fn line_at_fault(alloc: Global, old: &str, new: &str) -> Result<u64, Fail> {
    let report = REPORT.replace(alloc, old, new)?;
    match verdict_of(alloc, report.as_str())? {
        Verdict::Right => Ok(0),
        Verdict::Wrong { line } => Ok(line),
    }
}

#[test]
fn reports_of_the_order_are_right(rt: HostRuntime) -> Result<(), Fail> {
    let alloc = rt.alloc();
    assert_eq!(rt; verdict_of(alloc, REPORT)?, Verdict::Right);
    assert_eq!(rt; verdict_of(alloc, STARVED)?, Verdict::Right);
    Ok(())
}

#[test]
fn lines_at_fault(rt: HostRuntime) -> Result<(), Fail> {
    let alloc = rt.alloc();
    // An output that the definition does not give; a line taken out; a box that is not there; media that no one holds.
    assert_eq!(rt;
        line_at_fault(alloc, "250 01000200\n", "250 01000201\n")?,
        21
    );
    assert_eq!(rt; line_at_fault(alloc, "  dequeue\n", "")?, 19);
    assert_eq!(rt; line_at_fault(alloc, "pcm-s16 0\n", "pcm-s16 1\n")?, 28);
    assert_eq!(rt; line_at_fault(alloc, "held 0\n", "held 1\n")?, 30);
    // Audio data that no step made, with a number that is not the next, and with the next one.
    assert_eq!(rt;
        line_at_fault(alloc, "pool\n", "pool\n0 a.1 make 1 0\n")?,
        27
    );
    assert_eq!(rt;
        line_at_fault(alloc, "pool\n", "pool\n0 a.1 make 0 0\n")?,
        31
    );
    Ok(())
}
