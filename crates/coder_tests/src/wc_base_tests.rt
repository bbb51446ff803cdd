// Each public call that takes memory, once with ample memory, and the real adapters.
use std::test::Fail;
use std::{env, fs, process};
use wc_base::{FileFault, Files, List, MemFiles, MemSink, Output, Sink, SystemFiles, Text};

fn read<F: Files>(rt: &HostRuntime, files: &mut F, name: &str) -> Result<Vec<u8>, FileFault> {
    files.read_all(rt.alloc(), name, 3)
}

#[test]
fn listed_reads_and_missing_names_fail(rt: HostRuntime) -> Result<(), Fail> {
    let alloc = rt.alloc();
    let short = (String::from_str(alloc, "a")?, vec![in alloc; 1, 2, 3]?);
    let long = (String::from_str(alloc, "b")?, vec![in alloc; 1, 2, 3, 4]?);
    let mut files = MemFiles::open(alloc, vec![in alloc; short, long]?, vec![in alloc; 1]?);
    assert_eq!(rt;
        read(&rt, &mut files, "a")?.as_slice(),
        [1, 2, 3].as_slice()
    );
    assert_eq!(rt; read(&rt, &mut files, "a").err(), Some(FileFault::Failed));
    assert_eq!(rt; read(&rt, &mut files, "b").err(), Some(FileFault::TooLong));
    assert_eq!(rt; read(&rt, &mut files, "c").err(), Some(FileFault::Failed));
    Ok(())
}

#[test]
fn a_listed_write_appends_half(rt: HostRuntime) -> Result<(), Fail> {
    let alloc = rt.alloc();
    let mut sink = MemSink::open(alloc, 6, vec![in alloc; 0]?)?;
    assert!(rt; sink.write_all(b"abcde").is_err());
    assert!(rt; sink.write_all(b"vwxyz").is_err());
    assert!(rt; sink.write_all(b"wxyz").is_ok());
    assert_eq!(rt; sink.bytes(), b"abwxyz".as_slice());
    Ok(())
}

#[test]
fn system_files_are_read_up_to_the_limit(rt: HostRuntime) -> Result<(), Fail> {
    let alloc = rt.alloc();
    let id = process::id(rt.process());
    let name = format!(in alloc; "wc_base_{id}")?;
    let path = env::temp_dir(&rt)?.join(alloc, name.as_str())?;
    let text = String::from_str(alloc, path.to_str().unwrap_or(""))?;
    let mut files = SystemFiles::new(alloc, &rt);
    fs::write(&rt, path.as_path(), "abc")?;
    let whole = read(&rt, &mut files, text.as_str());
    fs::write(&rt, path.as_path(), "abcd")?;
    let long = read(&rt, &mut files, text.as_str());
    fs::remove_file(&rt, path.as_path())?;
    assert_eq!(rt; whole?.as_slice(), b"abc".as_slice());
    assert_eq!(rt; long.err(), Some(FileFault::TooLong));
    assert_eq!(rt;
        read(&rt, &mut files, text.as_str()).err(),
        Some(FileFault::Failed)
    );
    assert_eq!(rt; read(&rt, &mut files, ".").err(), Some(FileFault::Failed));
    Ok(())
}

#[test]
fn an_output_hands_each_piece_on(rt: HostRuntime) -> Result<(), Fail> {
    let mut written: Vec<u8> = Vec::new(rt.alloc());
    let mut sink = Output::new(&mut written);
    assert!(rt; sink.write_all(b"ab").is_ok());
    assert!(rt; sink.write_all(b"c").is_ok());
    assert_eq!(rt; written.as_slice(), b"abc".as_slice());
    Ok(())
}

#[test]
fn lists_and_texts_are_equal_by_their_items(rt: HostRuntime) -> Result<(), Fail> {
    let alloc = rt.alloc();
    let text = Text::of(String::from_str(alloc, "pcm")?);
    let copy = text.copy()?;
    assert!(rt; text == copy);
    assert_eq!(rt; copy.as_str(), "pcm");
    let list = List::of(vec![in alloc; 1, 2]?);
    assert!(rt; list == List::of(vec![in alloc; 1, 2]?));
    assert!(rt; list != List::of(vec![in alloc; 1]?));
    assert!(rt; list != List::empty(alloc));
    Ok(())
}
