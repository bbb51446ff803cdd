//! Tests of scripts and of the media that they name.
#![tactic(auto)]

#[cfg(test)]
mod json_data_tests;
#[cfg(test)]
mod media_files_tests;
#[cfg(test)]
mod script_members_tests;
#[cfg(test)]
mod script_names_tests;
#[cfg(test)]
mod script_steps_tests;
#[cfg(test)]
mod wc_script_tests;
