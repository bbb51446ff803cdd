//! Tests of what FLAC's writers write, and of the candidates that are chosen.
#![tactic(auto)]

#[cfg(test)]
mod block_tests;
#[cfg(test)]
mod bytes_tests;
#[cfg(test)]
mod choice_tests;
#[cfg(test)]
mod encoder_tests;
#[cfg(test)]
mod header_tests;
#[cfg(test)]
mod plan_tests;
#[cfg(test)]
mod subframe_tests;
