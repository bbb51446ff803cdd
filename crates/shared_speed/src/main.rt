//! Measures what a decode costs from its call to its output's turn: `shared_speed plain 1 N` makes N decodes of one decoder
//! of linear PCM on one thread; `shared_speed own T N` makes as many in each of T threads (1, 2 or 4), each on a shared
//! codec of its own; and `shared_speed one T N` makes them on one shared codec. It prints how many entries there are, and how
//! many nanoseconds all took to the standard error.
#![tactic(auto)]

mod plain;
mod shared;
mod threads;

use crate::plain::plain_entries;
use crate::threads::{Plan, count_entries};
use std::alloc::Global;
use std::process::ExitCode;
use std::rt::Env;
use std::sync::Wait;
use std::thread::Threads;
use std::time::{Clock, Instant};
use std::{env, io};
use wc_base::NoMemory;

// How many entries there are in all, and how long that took.
fn measure<R: Threads + Wait + Clock + Sync>(
    rt: &R,
    alloc: Global,
    plan: Option<Plan>,
    count: u64,
) -> Result<Option<(u64, u128)>, NoMemory> {
    let start = Instant::now(rt);
    let entries = match plan {
        None => plain_entries(alloc, count)?,
        Some(plan) => count_entries(rt, alloc, plan, count)?,
    };
    let Ok(start) = start else { return Ok(None) };
    match start.elapsed(rt) {
        Ok(took) => Ok(Some((entries, took.as_nanos()))),
        Err(_) => Ok(None),
    }
}

fn words(rt: &(impl Env + Alloc<A = Global>)) -> io::Result<Vec<String>> {
    let mut words = Vec::new(rt.alloc());
    for word in env::args(rt)?.skip(1) {
        words.push(word)?;
    }
    Ok(words)
}

// What is to be measured, none where it is the plain codec, and how many decodes.
fn work_of(words: &[String]) -> Option<(Option<Plan>, u64)> {
    let [mode, threads, count] = words else {
        return None;
    };
    let Ok(count) = count.as_str().parse::<u64>() else {
        return None;
    };
    let plan = match (mode.as_str(), threads.as_str()) {
        ("plain", "1") => None,
        ("own", "1") => Some(Plan::One),
        ("own", "2") => Some(Plan::TwoOwn),
        ("own", "4") => Some(Plan::FourOwn),
        ("one", "2") => Some(Plan::TwoOnOne),
        ("one", "4") => Some(Plan::FourOnOne),
        _ => return None,
    };
    Some((plan, count))
}

fn main(rt: HostRuntime) -> ExitCode {
    let Ok(words) = words(&rt) else {
        return ExitCode::from(1);
    };
    let Some((plan, count)) = work_of(&words) else {
        return ExitCode::from(2);
    };
    let Ok(Some((entries, nanos))) = measure(&rt, rt.alloc(), plan, count) else {
        return ExitCode::from(6);
    };
    match (println!(rt; "{entries}"), eprintln!(rt; "{nanos}")) {
        (Ok(()), Ok(())) => ExitCode::from(0),
        _ => ExitCode::from(5),
    }
}
