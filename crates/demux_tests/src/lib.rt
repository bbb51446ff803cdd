//! Tests of WAV and native FLAC files as inputs.
#![tactic(auto)]

#[cfg(test)]
mod flac_tests;
#[cfg(test)]
mod media_tests;
#[cfg(test)]
mod wav_tests;
