//! Tests of heads of FLAC streams, of frames that are found behind damage, and sums of samples.
#![tactic(auto)]

#[cfg(test)]
mod file;
#[cfg(test)]
mod head_tests;
#[cfg(test)]
mod next_tests;
#[cfg(test)]
mod sum_tests;
