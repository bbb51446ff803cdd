//! Tests of threads on a desk.
#![tactic(auto)]

mod coders;
mod desks;
#[cfg(test)]
mod reclaim_tests;
mod reclaims;
#[cfg(test)]
mod thread_tests;
