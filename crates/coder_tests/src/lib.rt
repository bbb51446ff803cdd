//! Tests of the shared types, of chunk files and of the coders.
#![tactic(auto)]

#[cfg(test)]
mod chunk_files_tests;
#[cfg(test)]
mod coder_api_tests;
#[cfg(test)]
mod g711_coder_tests;
#[cfg(test)]
mod pcm_coder_tests;
#[cfg(test)]
mod wc_base_tests;
#[cfg(test)]
mod wc_chunk_tests;
#[cfg(test)]
mod wc_config_tests;
