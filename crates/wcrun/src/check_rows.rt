// Verdicts on reports: that of the ordinary script as it is and with a change, and files that are not there.
use crate::tests::{ORDINARY, ORDINARY_REPORT, UNORDERED, UNORDERED_REPORT, call_on};
use std::alloc::Global;
use std::process::Abort;
use std::sync::Wait;
use std::test::Fail;
use std::thread::Threads;
use wc_base::MemSink;

// The status and the text of a check of this report by this script, whose read of this number fails.
fn checked(
    rt: &(impl Threads + Wait + Sync + Alloc<A = Global>),
    script: &str,
    report: &str,
    fails: Vec<u64>,
) -> Result<(u8, MemSink), Fail> {
    let alloc = rt.alloc();
    let script = (
        String::from_str(alloc, "s.json")?,
        Vec::from_slice(alloc, script.as_bytes())?,
    );
    let report = (
        String::from_str(alloc, "r.txt")?,
        Vec::from_slice(alloc, report.as_bytes())?,
    );
    let words = ["check", "s.json", "r.txt"];
    call_on(
        rt,
        vec![in alloc; script, report]?,
        &words,
        fails,
        Vec::new(alloc),
    )
}

// A text of the ordinary report, what stands in its place, and how the check ends.
const CHANGES: [(&str, &str, u8, &str); 5] = [
    ("held 0", "held 0", 0, "right\n"),
    ("01000200\n", "01000201\n", 1, "wrong: line 21\n"),
    ("  dequeue\n", "", 1, "wrong: line 19\n"),
    ("pcm-s16 0\n", "pcm-s16 1\n", 1, "wrong: line 28\n"),
    ("held 0", "held 1", 1, "wrong: line 30\n"),
];

#[test]
fn reports_are_judged(rt: HostRuntime) -> Result<(), Fail> {
    let alloc = rt.alloc();
    for (old, new, status, text) in CHANGES {
        let report = ORDINARY_REPORT.replace(alloc, old, new)?;
        let (answer, sink) = checked(&rt, ORDINARY, report.as_str(), Vec::new(alloc))?;
        assert_eq!(rt; sink.bytes(), text.as_bytes(), "at {text}");
        assert_eq!(rt; answer, status, "at {text}");
    }
    Ok(())
}

#[test]
fn checks_that_are_refused(rt: HostRuntime) -> Result<(), Fail> {
    let alloc = rt.alloc();
    // A script with no order, whose report is not judged yet; a script and a report that are not read.
    let (answer, sink) = checked(&rt, UNORDERED, UNORDERED_REPORT, Vec::new(alloc))?;
    assert_eq!(rt; sink.bytes(), b"script: shape at top\n".as_slice());
    assert_eq!(rt; answer, 3);
    let rows: [(u64, &str); 2] = [(0, "read fault: s.json\n"), (1, "read fault: r.txt\n")];
    for (read, text) in rows {
        let fails = vec![in alloc; read]?;
        let (answer, sink) = checked(&rt, ORDINARY, ORDINARY_REPORT, fails)?;
        assert_eq!(rt; sink.bytes(), text.as_bytes(), "at {text}");
        assert_eq!(rt; answer, 4, "at {text}");
    }
    Ok(())
}
