//! Tests of decoded FLAC frames.
#![tactic(auto)]

#[cfg(test)]
mod code_tests;
#[cfg(test)]
mod coder_tests;
#[cfg(test)]
mod frames;
#[cfg(test)]
mod row_tests;
