// Fields that are read, and bytes that begin with none.
use report_lines::{
    FieldFault, after, bytes_upto, number_or_dash_upto, number_upto, short_upto, signed_upto,
    word_at,
};
use std::test::Fail;

fn number(bytes: &[u8]) -> Option<u64> {
    let (n, _) = number_upto(b' ', bytes)?;
    Some(n)
}

fn signed(bytes: &[u8]) -> Option<i64> {
    let (n, _) = signed_upto(b' ', bytes)?;
    Some(n)
}

fn absent_or(bytes: &[u8]) -> Option<Option<u64>> {
    let (n, _) = number_or_dash_upto(b'\n', bytes)?;
    Some(n)
}

#[test]
fn numbers_are_read_up_to_their_mark(rt: HostRuntime) -> Result<(), Fail> {
    let (n, rest) = number_upto(b'.', b"12.3 ").expect(&rt, "a number");
    assert_eq!(rt; n, 12);
    assert_eq!(rt; rest, b"3 ".as_slice());
    assert_eq!(rt; number(b"18446744073709551615 "), Some(u64::MAX));
    assert_eq!(rt; number(b"18446744073709551616 "), None);
    assert_eq!(rt; number(b"+1 "), None);
    assert_eq!(rt; number(b" "), None);
    assert_eq!(rt; number(b"1"), None);
    assert!(rt; short_upto(b' ', b"4294967295 ").is_some());
    assert!(rt; short_upto(b' ', b"4294967296 ").is_none());
    Ok(())
}

#[test]
fn signed_and_absent_numbers_are_read(rt: HostRuntime) -> Result<(), Fail> {
    assert_eq!(rt; signed(b"-9223372036854775808 "), Some(i64::MIN));
    assert_eq!(rt; signed(b"9223372036854775807 "), Some(i64::MAX));
    assert_eq!(rt; signed(b"9223372036854775808 "), None);
    assert_eq!(rt; signed(b"-0 "), None);
    assert_eq!(rt; signed(b"- "), None);
    assert_eq!(rt; absent_or(b"-\n"), Some(None));
    assert_eq!(rt; absent_or(b"7\n"), Some(Some(7)));
    assert_eq!(rt; absent_or(b"-7\n"), None);
    Ok(())
}

#[test]
fn words_and_prefixes_are_read(rt: HostRuntime) -> Result<(), Fail> {
    let (word, mark, rest) = word_at(b"audio-decoder 4\n").expect(&rt, "a word");
    assert_eq!(rt; word, b"audio-decoder".as_slice());
    assert_eq!(rt; mark, b' ');
    assert_eq!(rt; rest, b"4\n".as_slice());
    assert_eq!(rt; after(b"= ", b"= ok"), Some(b"ok".as_slice()));
    assert_eq!(rt; after(b"= ", b"=ok"), None);
    Ok(())
}

#[test]
fn bytes_are_read_from_hex(rt: HostRuntime) -> Result<(), Fail> {
    let alloc = rt.alloc();
    let (bytes, rest) = bytes_upto(alloc, b'\n', b"00fF\nheld").expect(&rt, "bytes");
    assert_eq!(rt; bytes.as_slice(), [0, 255].as_slice());
    assert_eq!(rt; rest, b"held".as_slice());
    let (none, _) = bytes_upto(alloc, b'\n', b"-\n").expect(&rt, "no bytes");
    assert_eq!(rt; none.len(), 0);
    let odd = bytes_upto(alloc, b'\n', b"00f\n").err();
    assert_eq!(rt; odd, Some(FieldFault::NoField));
    let empty = bytes_upto(alloc, b'\n', b"\n").err();
    assert_eq!(rt; empty, Some(FieldFault::NoField));
    Ok(())
}
