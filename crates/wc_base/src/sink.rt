// A sink takes bytes. It may tell what it holds, and it counts its faults.
ghost use Rattle.std.specs.Prelude.{◌≡◌, ◌≤◌, ◌+◌, [], ◌++◌, List, ℕ, length, OnOk, OnErr, Some, None, IfOk, is_err, Option, vec_len, vec_capacity};
ghost use Rattle.std.specs.Io.KnownBytes.{Appends};
ghost use Rattle.wc_base.specs.Causes.{HasCause};
ghost use Rattle.wc_base.specs.Told.{appended, AppendsPart};
ghost use Rattle.wc_base.specs.Kept.{after_write, fails_at};

use crate::{Failed, NoMemory};
use std::alloc::Global;
use std::io::Write;
use std::marker::Model;

/// What bytes are written to (our choice). The count of faults is of a u64, and stands still at its greatest value; a
/// count that stands there counts as one that rose.
pub trait Sink {
    /// The bytes that were written, where they are told.
    ghost told: { Self → Option (List ℕ) };

    /// How often a write has failed.
    ghost faults: { Self → ℕ };

    /// Appends the piece.
    ///
    /// `Failed` comes only where the count of faults rose; a beginning of the piece was then appended.
    fn write_all(&mut self, piece: &[u8]) -> Result<(), Failed>
        ensures ok { OnOk result (told self.new ≡ appended (told self.old) piece.now) }
        ensures part { AppendsPart (told self.old) piece.now (told self.new) }
        ensures cause { HasCause (faults self.old) (faults self.new) result };
}

/// A sink over any writer, as `std::io::writer` of a runtime's standard output. What was written is not told.
///
/// Each piece is flushed, so that what the device refuses is seen in the call that wrote it, and counts a fault.
#[derive(Drop)]
pub struct Output<W> {
    writer: W,
    faults: u64,
}

// A contract sees the count of faults alone.
impl<W> Model for Output<W> {
    ghost use Rattle.std.specs.Prelude.{ℕ};

    ghost Value = { ℕ };

    ghost view = { λ s. s.faults };
}

impl<W: Write> Output<W> {
    /// A sink over the writer, with no fault so far.
    pub fn new(writer: W) -> Output<W>
        ensures { result ≡ 0 }
    {
        Output { writer, faults: 0 }
    }
}

impl<W: Write> Sink for Output<W> {
    ghost told = { λ _. None };

    ghost faults = { λ n. n };

    fn write_all(&mut self, piece: &[u8]) -> Result<(), Failed> {
        hand_on(&mut self.writer, piece, &mut self.faults)
    }
}

// Writes the piece, and flushes the writer.
fn hand_on<W: Write>(writer: &mut W, piece: &[u8], faults: &mut u64) -> Result<(), Failed>
    ensures ok { OnOk result (Appends (W.contents writer.old) (W.contents writer.new) piece.now) }
    ensures cause { HasCause faults.old faults.new result }
{
    if writer.write_all(piece).is_err() || writer.flush().is_err() {
        *faults = faults.saturating_add(1);
        return Err(Failed);
    }
    Ok(())
}

/// A sink in memory, with room for so many bytes, which tells what was written.
///
/// A write whose piece is longer than what is left of the room appends nothing and counts a fault. Any other of the
/// listed writes, numbered from 0, appends the first half of its piece, rounded down, and counts a fault. No other
/// write counts one, and none takes memory.
#[derive(Drop)]
pub struct MemSink {
    bytes: Vec<u8>,
    room: u64,
    fails: Vec<u64>,
    calls: u64,
    faults: u64,
}

impl Model for MemSink {
    ghost use Rattle.std.specs.Prelude.{◌-◌, ◌≤◌, ◌+◌, vec_len, vec_capacity};
    ghost use Rattle.wc_base.specs.Kept.{Kept};

    ghost Value = { Kept };

    ghost view = { λ s. record { bytes = s.bytes.items; room = s.room; fails = s.fails.items; calls = s.calls; faults = s.faults } };

    ghost invariant = { λ s. (s.room ≤ vec_capacity s.bytes) × (vec_len s.bytes ≤ s.room) };
}

impl MemSink {
    /// A sink with this room, taken at once, of which the writes in `fails` fail.
    pub fn open(alloc: Global, room: u64, fails: Vec<u64>) -> Result<MemSink, NoMemory>
        ensures { IfOk result
            (λ s. s
            ≡ record { bytes = []; room = room; fails = fails.items; calls = 0; faults = 0 }) }
    {
        let Ok(bytes) = Vec::with_capacity(alloc, room as usize) else {
            return Err(NoMemory);
        };
        Ok(MemSink {
            bytes,
            room,
            fails,
            calls: 0,
            faults: 0,
        })
    }

    /// The bytes that were written.
    pub fn bytes(&self) -> &[u8]
        ensures { result.now ≡ self.now.bytes }
    {
        self.bytes.as_slice()
    }
}

impl Sink for MemSink {
    ghost told = { λ s. Some s.bytes };

    ghost faults = { λ s. s.faults };

    fn write_all(&mut self, piece: &[u8]) -> Result<(), Failed>
        ensures exact { self.new ≡ after_write self.old piece.now }
        ensures variant { is_err result ≡ fails_at self.old piece.now }
        ensures ok { OnOk result (Some self.new.bytes ≡ appended (Some self.old.bytes) piece.now) }
        ensures part { AppendsPart (Some self.old.bytes) piece.now (Some self.new.bytes) }
        ensures cause { HasCause self.old.faults self.new.faults result }
    {
        let listed = self.fails.contains(&self.calls);
        let beyond = (piece.len() as u64) > self.room - self.bytes.len() as u64;
        self.calls = self.calls.saturating_add(1);
        if beyond {
            self.faults = self.faults.saturating_add(1);
            return Err(Failed);
        }
        if listed {
            append(&mut self.bytes, &piece[..piece.len() / 2]);
            self.faults = self.faults.saturating_add(1);
            return Err(Failed);
        }
        append(&mut self.bytes, piece);
        Ok(())
    }
}

// Appends the piece, for which there is room.
fn append(bytes: &mut Vec<u8>, piece: &[u8])
    requires { vec_len bytes.old + length piece.now ≤ vec_capacity bytes.old }
    ensures items { bytes.new.items ≡ bytes.old.items ++ piece.now }
    ensures capacity { vec_capacity bytes.old ≤ vec_capacity bytes.new }
{
    match bytes.extend_from_slice(piece) {
        Ok(()) => {}
        Err(_) => unreachable!(),
    }
}
