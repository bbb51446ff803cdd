// Loads, and the words that spell none.
use crate::tests::call_without;
use std::test::Fail;
use wc_config::CodecId;

const USAGE: &str =
    "usage: wcrun replay FILE | run FILE --workers N | load START N | check SCRIPT REPORT | probe FILE\n";

#[test]
fn each_load_ends_with_its_summary(rt: HostRuntime) -> Result<(), Fail> {
    let alloc = rt.alloc();
    // The sums are those of tools/load-sum.py. Without a coder of A-law its outputs are not counted.
    let rows: [(&[&str], Option<CodecId>, u8, &str); 12] = [
        (
            &["load", "1", "1"],
            None,
            0,
            "load 1 1\noutputs 4\nbytes 960\nsum 120070\n",
        ),
        (
            &["load", "1", "2"],
            None,
            0,
            "load 1 2\noutputs 8\nbytes 1920\nsum 238465\n",
        ),
        (
            &["load", "0", "1"],
            None,
            0,
            "load 0 1\noutputs 4\nbytes 960\nsum 118911\n",
        ),
        (
            &["load", "1", "1"],
            Some(CodecId::Alaw),
            0,
            "load 1 1\noutputs 3\nbytes 640\nsum 82365\n",
        ),
        (
            &["load", "18446744073709551615", "3"],
            None,
            0,
            "load 18446744073709551615 3\noutputs 12\nbytes 2880\nsum 350400\n",
        ),
        (&["load", "18446744073709551616", "3"], None, 2, USAGE),
        (&["load", "1", "0"], None, 2, USAGE),
        (&["load", "1", "5001"], None, 2, USAGE),
        (&["load", "01", "2"], None, 2, USAGE),
        (&["load", "+1", "2"], None, 2, USAGE),
        (&["load", "1"], None, 2, USAGE),
        (&["load", "1", "2", "3"], None, 2, USAGE),
    ];
    for (words, lacked, status, text) in rows {
        let (reads, writes) = (Vec::new(alloc), Vec::new(alloc));
        let (answer, sink) = call_without(&rt, Vec::new(alloc), words, reads, writes, lacked)?;
        assert_eq!(rt; answer, status, "at {text}");
        assert_eq!(rt; sink.bytes(), text.as_bytes(), "at {text}");
    }
    Ok(())
}

#[test]
fn a_failing_write_ends_a_load(rt: HostRuntime) -> Result<(), Fail> {
    let alloc = rt.alloc();
    let writes = vec![in alloc; 0]?;
    let words = ["load", "1", "1"];
    let (answer, _) = call_without(&rt, Vec::new(alloc), &words, Vec::new(alloc), writes, None)?;
    assert_eq!(rt; answer, 5);
    Ok(())
}
