// Files are read whole, by name. They may tell what they hold, and they count their faults and the bytes read.
ghost use Rattle.std.specs.Prelude.{◌≡◌, ◌≤◌, ◌<◌, ◌+◌, List, ℕ, Option, ◌≢◌, length, map, Some, None, IfOk, IfSome, IsSomeAnd, MatchOption, IfErr, OnErr, [], IsErrOf, option_copied, Err, string_bytes, ◌⊎◌};
ghost use Rattle.wc_base.specs.Causes.{Rose, RoseBy};
ghost use Rattle.wc_base.specs.Failures.{failed_after};
ghost use Rattle.wc_base.specs.Held.{found, plain, answer_of, faults_after};
ghost use Rattle.wc_base.specs.Up.{up, up_by};

use std::alloc::Global;
use std::io::{ErrorKind, Read};
use std::marker::Model;
use std::{fs, rt};

/// Why a file was not read.
#[derive(Clone, Copy, Debug, PartialEq, Eq)]
pub enum FileFault {
    /// There is no such file, or a read of it failed; the count of faults rose.
    Failed,
    /// The file has more bytes than were asked for.
    TooLong,
    /// Want of memory.
    NoMemory,
}

/// Files that are read whole, by name (our choice). The counts are of a u64, and stand still at its greatest value; a
/// count that stands there counts as one that rose.
pub trait Files {
    /// The bytes under each name, where they are told. A read leaves them as they are.
    ghost content: { Self → Option (List ℕ → Option (List ℕ)) };

    /// How often a read has failed.
    ghost faults: { Self → ℕ };

    /// How many bytes were read.
    ghost bytes_read: { Self → ℕ };

    /// The names of the files whose read was answered with `Failed`, the first one first.
    ghost failed_names: { Self → List (List ℕ) };

    /// All bytes of the file, if they are at most `limit`.
    ///
    /// `Failed` comes only where the count of faults rose; the name then stands behind those whose read failed before,
    /// and no other answer changes these. `TooLong` comes only where the file is longer than `limit`;
    /// where the content is not told, only where the count of bytes read rose by more than `limit`.
    fn read_all(&mut self, alloc: Global, name: &str, limit: u64) -> Result<Vec<u8>, FileFault>
        ensures kept { content self.new ≡ content self.old }
        ensures bytes { IfOk result
            (λ v. IfSome (content self.old) (λ files. files name.now ≡ Some v.items)) }
        ensures at_most { IfOk result (λ v. length v.items ≤ limit) }
        ensures faults_later { faults self.old ≤ faults self.new }
        ensures bytes_later { bytes_read self.old ≤ bytes_read self.new }
        ensures failed { IsErrOf result FileFault.Failed
            → Rose (faults self.old) (faults self.new) }
        ensures names { failed_names self.new ≡ failed_after (failed_names self.old) name.now result }
        ensures too_long { IsErrOf result FileFault.TooLong → MatchOption (content self.old)
            (RoseBy (limit + 1) (bytes_read self.old) (bytes_read self.new))
            (λ files. IsSomeAnd (files name.now) (λ bytes. limit < length bytes)) };
}

/// Files in memory, which tell what they hold.
///
/// The listed reads, numbered from 0, fail, and so does a read of a name that is not there. Each counts a fault, and
/// no other read does. Of files with one name the first counts.
#[derive(Drop)]
pub struct MemFiles {
    entries: Vec<(String, Vec<u8>)>,
    fails: Vec<u64>,
    calls: u64,
    faults: u64,
    bytes_read: u64,
    failed: Vec<String>,
}

impl Model for MemFiles {
    ghost use Rattle.std.specs.Prelude.{map, string_bytes};
    ghost use Rattle.wc_base.specs.Held.{Held, plain};

    ghost Value = { Held };

    ghost view = { λ s. record { files = map plain s.entries.items; fails = s.fails.items; calls = s.calls; faults = s.faults; bytes_read = s.bytes_read; failed = map string_bytes s.failed.items } };
}

impl MemFiles {
    /// The files with these names and bytes, of which the reads in `fails` fail. It takes no memory.
    pub fn open(alloc: Global, entries: Vec<(String, Vec<u8>)>, fails: Vec<u64>) -> MemFiles
        ensures { result
            ≡ record {
              files = map plain entries.items;
              fails = fails.items;
              calls = 0;
              faults = 0;
              bytes_read = 0;
              failed = [];
            } }
    {
        MemFiles {
            entries,
            fails,
            calls: 0,
            faults: 0,
            bytes_read: 0,
            failed: Vec::new(alloc),
        }
    }
}

impl Files for MemFiles {
    ghost content = { λ s. Some (found s.files) };

    ghost faults = { λ s. s.faults };

    ghost bytes_read = { λ s. s.bytes_read };

    ghost failed_names = { λ s. s.failed };

    fn read_all(&mut self, alloc: Global, name: &str, limit: u64) -> Result<Vec<u8>, FileFault>
        ensures ok { IfOk result (λ v. answer_of self.old name.now limit ≡ Ok v.items) }
        ensures err { IfErr result
            (λ e. e ≢ FileFault.NoMemory → answer_of self.old name.now limit ≡ Err e) }
        ensures files { self.new.files ≡ self.old.files }
        ensures fails { self.new.fails ≡ self.old.fails }
        ensures calls { self.new.calls ≡ up self.old.calls }
        ensures fault_count { self.new.faults
            ≡ faults_after self.old.faults (answer_of self.old name.now limit) }
        ensures count_read { IfOk result
            (λ v. self.new.bytes_read ≡ up_by (length v.items) self.old.bytes_read) }
        ensures count_unread { OnErr result (self.new.bytes_read ≡ self.old.bytes_read) }

        ensures kept { Some (found self.new.files) ≡ Some (found self.old.files) }
        ensures bytes { IfOk result (λ v. found self.old.files name.now ≡ Some v.items) }
        ensures at_most { IfOk result (λ v. length v.items ≤ limit) }
        ensures faults_later { self.old.faults ≤ self.new.faults }
        ensures bytes_later { self.old.bytes_read ≤ self.new.bytes_read }
        ensures failed { IsErrOf result FileFault.Failed → Rose self.old.faults self.new.faults }
        ensures names { self.new.failed ≡ failed_after self.old.failed name.now result }
        ensures too_long { IsErrOf result FileFault.TooLong →
            IsSomeAnd (found self.old.files name.now) (λ bytes. limit < length bytes) }
    {
        let listed = self.fails.contains(&self.calls);
        self.calls = self.calls.saturating_add(1);
        if listed {
            return Err(failure(alloc, name, &mut self.faults, &mut self.failed));
        }
        let Some(bytes) = find(&self.entries, name) else {
            return Err(failure(alloc, name, &mut self.faults, &mut self.failed));
        };
        let len = bytes.len() as u64;
        if len > limit {
            return Err(FileFault::TooLong);
        }
        let Ok(copy) = bytes.to_vec(alloc) else {
            return Err(FileFault::NoMemory);
        };
        self.bytes_read = self.bytes_read.saturating_add(len);
        Ok(copy)
    }
}

// Counts the fault of a read, and notes the file's name, if there is memory for it.
fn failure(alloc: Global, name: &str, faults: &mut u64, failed: &mut Vec<String>) -> FileFault
    ensures count { faults.new ≡ up faults.old }
    ensures later { faults.old ≤ faults.new }
    ensures answer { result ≡ FileFault.Failed ⊎ result ≡ FileFault.NoMemory }
    ensures names { map string_bytes failed.new.items
        ≡ failed_after {T = ℕ} (map string_bytes failed.old.items) name.now (Err result) }
{
    *faults = faults.saturating_add(1);
    let Ok(name) = String::from_str(alloc, name) else {
        return FileFault::NoMemory;
    };
    match failed.push(name) {
        Ok(()) => FileFault::Failed,
        Err(_) => FileFault::NoMemory,
    }
}

// The bytes under a name.
fn find<'a>(entries: &'a [(String, Vec<u8>)], name: &str) -> Option<&'a [u8]>
    ensures { option_copied result ≡ found (map plain entries.now) name.now }
{
    for (held, bytes) in entries {
        if held.as_str() == name {
            return Some(bytes.as_slice());
        }
    }
    None
}

/// Files of the system, by their paths. What they hold is not told.
///
/// A path that cannot be opened or read, as of a missing file or a directory, counts a fault. Of a file above the
/// limit at most one byte past the limit is read.
#[derive(Drop)]
pub struct SystemFiles<'a, R: rt::Files> {
    rt: &'a R,
    faults: u64,
    bytes_read: u64,
    failed: Vec<String>,
}

// A contract sees the counts of faults and of bytes read alone, and the names whose read failed.
impl<'a, R: rt::Files> Model for SystemFiles<'a, R> {
    ghost use Rattle.std.specs.Prelude.{map, string_bytes};
    ghost use Rattle.wc_base.specs.Held.{Counts};

    ghost Value = { Counts };

    ghost view = { λ s. record { faults = s.faults; bytes_read = s.bytes_read; failed = map string_bytes s.failed.items } };
}

impl<'a, R: rt::Files> SystemFiles<'a, R> {
    /// The files of the runtime, with no fault and no byte read so far.
    pub fn new(alloc: Global, rt: &'a R) -> SystemFiles<'a, R>
        ensures { result ≡ record { faults = 0; bytes_read = 0; failed = [] } }
    {
        SystemFiles {
            rt,
            faults: 0,
            bytes_read: 0,
            failed: Vec::new(alloc),
        }
    }
}

impl<R: rt::Files> Files for SystemFiles<'_, R> {
    ghost content = { λ _. None };

    ghost faults = { λ s. s.faults };

    ghost bytes_read = { λ s. s.bytes_read };

    ghost failed_names = { λ s. s.failed };

    fn read_all(&mut self, alloc: Global, name: &str, limit: u64) -> Result<Vec<u8>, FileFault> {
        match fs::open(self.rt, name) {
            Ok(file) => read_to_limit(
                alloc,
                name,
                file,
                limit,
                &mut self.faults,
                &mut self.bytes_read,
                &mut self.failed,
            ),
            Err(_) => Err(failure(alloc, name, &mut self.faults, &mut self.failed)),
        }
    }
}

// Reads to the end, and at most one byte past the limit.
fn read_to_limit<F: Read + Drop>(
    alloc: Global,
    name: &str,
    file: F,
    limit: u64,
    faults: &mut u64,
    bytes_read: &mut u64,
    failed: &mut Vec<String>,
) -> Result<Vec<u8>, FileFault>
    ensures whole { IfOk result (λ v. IfSome (F.remaining file) (λ bytes. v.items ≡ bytes)) }
    ensures at_most { IfOk result (λ v. length v.items ≤ limit) }
    ensures faults_later { faults.old ≤ faults.new }
    ensures bytes_later { bytes_read.old ≤ bytes_read.new }
    ensures failed { IsErrOf result FileFault.Failed → Rose faults.old faults.new }
    ensures names { map string_bytes failed.new.items
        ≡ failed_after (map string_bytes failed.old.items) name.now result }
    ensures too_long { IsErrOf result FileFault.TooLong
        → RoseBy (limit + 1) bytes_read.old bytes_read.new }
    ensures long { IsErrOf result FileFault.TooLong
        → IfSome (F.remaining file) (λ bytes. limit < length bytes) }
{
    let mut bytes = Vec::new(alloc);
    let result = file.take(limit.saturating_add(1)).read_to_end(&mut bytes);
    let len = bytes.len() as u64;
    *bytes_read = bytes_read.saturating_add(len);
    match result {
        Ok(_) if len > limit => Err(FileFault::TooLong),
        Ok(_) => Ok(bytes),
        Err(e) if e.kind() == ErrorKind::OutOfMemory => Err(FileFault::NoMemory),
        Err(_) => Err(failure(alloc, name, faults, failed)),
    }
}
