// JSON values of scripts: which bytes are read, and what a value answers.
use json_data::{
    Scratch, Value, as_items, as_natural, as_signed, as_text, is_object, member, read,
};
use std::alloc::Global;
use std::test::Fail;
use wc_base::NoMemory;

fn is_value(alloc: Global, bytes: &[u8]) -> Result<bool, NoMemory> {
    let mut scratch = Scratch::new(alloc);
    Ok(read(alloc, bytes, &mut scratch)?.is_some())
}

#[test]
fn bytes_are_read_or_not(rt: HostRuntime) -> Result<(), Fail> {
    let rows: [(&[u8], bool); 18] = [
        (b"{}", true),
        (b" [1, null, {\"a\": \"b\"}]\n", true),
        (b"-1.5e-3", true),
        (b"1e308", true),
        (b"1e309", false),
        (b"[0, -1e309]", false),
        (b"{\"a\": [1e309]}", false),
        (b"\"\\u00e9\"", true),
        (b"\"\\ud800\"", false),
        (b"\"\xc3\xa9\"", true),
        (b"\"\xc3\"", false),
        (b"\xff", false),
        (b"", false),
        (b"{} {}", false),
        (b"[1,]", false),
        (b"{\"a\" 1}", false),
        (b"01", false),
        (b"nul", false),
    ];
    for (bytes, found) in rows {
        assert_eq!(rt; is_value(rt.alloc(), bytes), Ok(found));
    }
    Ok(())
}

#[test]
fn arrays_nest_to_127(rt: HostRuntime) -> Result<(), Fail> {
    for (depth, found) in [(1, true), (127, true), (128, false)] {
        let mut text = "[".repeat(rt.alloc(), depth)?;
        text.push_str("]".repeat(rt.alloc(), depth)?.as_str())?;
        assert_eq!(rt; is_value(rt.alloc(), text.as_bytes()), Ok(found));
    }
    Ok(())
}

// The number of a text as a natural and as a signed integer; none where the text is no value.
fn integers(alloc: Global, text: &str) -> Result<Option<(Option<u64>, Option<i64>)>, NoMemory> {
    let mut scratch = Scratch::new(alloc);
    match read(alloc, text.as_bytes(), &mut scratch)? {
        Some(value) => Ok(Some((as_natural(&value), as_signed(&value)))),
        None => Ok(None),
    }
}

#[test]
fn integers_have_their_ranges(rt: HostRuntime) -> Result<(), Fail> {
    let rows = [
        ("0", Some(0), Some(0)),
        ("-0", None, None),
        ("-1", None, Some(-1)),
        (
            "9223372036854775807",
            Some(9223372036854775807),
            Some(i64::MAX),
        ),
        ("9223372036854775808", Some(9223372036854775808), None),
        ("-9223372036854775808", None, Some(i64::MIN)),
        ("-9223372036854775809", None, None),
        ("18446744073709551615", Some(u64::MAX), None),
        ("18446744073709551616", None, None),
        ("1.0", None, None),
        ("1e2", None, None),
        ("\"1\"", None, None),
        ("[1]", None, None),
    ];
    for (text, natural, signed) in rows {
        assert_eq!(rt;
            integers(rt.alloc(), text),
            Ok(Some((natural, signed))),
            "{text}"
        );
    }
    Ok(())
}

// The natural that the member `a` of a text's value is.
fn natural_member(alloc: Global, text: &str) -> Result<Option<u64>, NoMemory> {
    let mut scratch = Scratch::new(alloc);
    match read(alloc, text.as_bytes(), &mut scratch)? {
        Some(value) => match member(&value, "a") {
            Some(found) => Ok(as_natural(found)),
            None => Ok(None),
        },
        None => Ok(None),
    }
}

#[test]
fn the_last_of_equal_names_holds(rt: HostRuntime) -> Result<(), Fail> {
    let rows = [
        (r#"{"a": 1}"#, Some(1)),
        (r#"{"a": 1, "b": 3, "a": 2}"#, Some(2)),
        (r#"{"a": 1, "\u0061": 4}"#, Some(4)),
        (r#"{"\u0061": 4, "a": "5"}"#, None),
        (r#"{"A": 1, "aa": 2}"#, None),
        (r#"["a", 1]"#, None),
        (r#""a""#, None),
    ];
    for (text, found) in rows {
        assert_eq!(rt; natural_member(rt.alloc(), text), Ok(found), "{text}");
    }
    Ok(())
}

// Of a text's value: whether it is an object, how many items it has, and how long its text is.
fn shape(
    alloc: Global,
    text: &str,
) -> Result<Option<(bool, Option<usize>, Option<usize>)>, NoMemory> {
    let mut scratch = Scratch::new(alloc);
    match read(alloc, text.as_bytes(), &mut scratch)? {
        Some(value) => Ok(Some(shape_of(&value))),
        None => Ok(None),
    }
}

fn shape_of(value: &Value<'_>) -> (bool, Option<usize>, Option<usize>) {
    let items = match as_items(value) {
        Some(items) => Some(items.len()),
        None => None,
    };
    let text = match as_text(value) {
        Some(text) => Some(text.len()),
        None => None,
    };
    (is_object(value), items, text)
}

#[test]
fn values_have_one_shape(rt: HostRuntime) -> Result<(), Fail> {
    let rows = [
        ("{}", true, None, None),
        ("[]", false, Some(0), None),
        ("[1, [2, 3], {}]", false, Some(3), None),
        ("\"\"", false, None, Some(0)),
        (r#""a\u00e9\n""#, false, None, Some(4)),
        ("null", false, None, None),
        ("true", false, None, None),
        ("17", false, None, None),
    ];
    for (text, object, items, length) in rows {
        assert_eq!(rt;
            shape(rt.alloc(), text),
            Ok(Some((object, items, length))),
            "{text}"
        );
    }
    Ok(())
}
