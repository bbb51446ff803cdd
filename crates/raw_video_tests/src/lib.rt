//! Tests of the coders of raw video.
#![tactic(auto)]

#[cfg(test)]
mod coder_tests;
#[cfg(test)]
mod encoder_tests;
