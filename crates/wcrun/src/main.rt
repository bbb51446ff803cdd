//! Runs a script of calls on codecs, in its order or with threads, and writes the report of the run; or tells what a media file
//! holds; or runs a load.
#![tactic(auto)]

mod calls;
mod check;
#[cfg(test)]
mod check_rows;
mod clock;
mod codecs;
#[cfg(test)]
mod coder_rows;
mod command;
#[cfg(test)]
mod encode_rows;
#[cfg(test)]
mod faults;
#[cfg(test)]
mod flac_encode_rows;
#[cfg(test)]
mod flac_rows;
#[cfg(test)]
mod gate_rows;
#[cfg(test)]
mod ground_rows;
mod help;
mod hints;
mod laws;
mod load;
#[cfg(test)]
mod load_rows;
#[cfg(test)]
mod media_rows;
#[cfg(test)]
mod port_rows;
mod prepare;
mod prepared;
mod probe;
#[cfg(test)]
mod probe_rows;
mod refusal;
#[cfg(test)]
mod rows;
#[cfg(test)]
mod take_rows;
#[cfg(test)]
mod tests;
#[cfg(test)]
mod video_encode_rows;
#[cfg(test)]
mod video_rows;
mod wrong;

pub use calls::top;
use calls::want_memory;
use clock::SystemClock;
use codec_desk::OpenGate;
use codecs::coder_boxes;
pub use refusal::Refusal;
use std::alloc::Global;
use std::process::ExitCode;
use std::rt::{self, Env};
use std::sync::Wait;
use std::thread::Threads;
use std::time::Instant;
use std::{env, io};
use wc_base::{NoMemory, Output, Sink, SystemFiles};

fn words(rt: &(impl Env + Alloc<A = Global>)) -> io::Result<Vec<String>> {
    let mut words = Vec::new(rt.alloc());
    for word in env::args(rt)?.skip(1) {
        words.push(word)?;
    }
    Ok(words)
}

// Words that are not UTF-8 are no command.
fn command_words(rt: &(impl Env + Alloc<A = Global>)) -> Result<Vec<String>, NoMemory> {
    match words(rt) {
        Ok(words) => Ok(words),
        Err(fault) if fault.kind() == io::ErrorKind::OutOfMemory => Err(NoMemory),
        Err(_) => Ok(Vec::new(rt.alloc())),
    }
}

// Carries out the command with eight boxes of each coder.
fn carry_out<S: Sink, R: Threads + Wait + Sync + rt::Files + rt::Clock + Alloc<A = Global>>(
    rt: &R,
    words: &[String],
    sink: &mut S,
) -> u8 {
    let alloc = rt.alloc();
    let coders = coder_boxes!(alloc, return want_memory(sink));
    let clock = SystemClock::since(rt, Instant::now(rt).ok());
    let Ok(clocks) = vec![in alloc; clock; 34] else {
        return want_memory(sink);
    };
    let Ok(gates) = vec![in alloc; OpenGate; 34] else {
        return want_memory(sink);
    };
    let mut files = SystemFiles::new(alloc, rt);
    top(rt, alloc, words, &mut files, sink, coders, clocks, gates)
}

fn main(rt: HostRuntime) -> ExitCode {
    let mut sink = Output::new(io::writer(&rt));
    let status = match command_words(&rt) {
        Ok(words) => {
            let status = carry_out(&rt, &words, &mut sink);
            hints::tell(&rt, rt.alloc(), &words, status);
            status
        }
        Err(_) => want_memory(&mut sink),
    };
    ExitCode::from(status)
}
