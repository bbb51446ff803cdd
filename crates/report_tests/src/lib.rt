//! Tests of runs and of their reports.
#![tactic(auto)]

#[cfg(test)]
mod encode_reports_tests;
#[cfg(test)]
mod fields_tests;
#[cfg(test)]
mod ground_reports_tests;
#[cfg(test)]
mod report_lines_tests;
#[cfg(test)]
mod report_reader_tests;
#[cfg(test)]
mod report_text_tests;
#[cfg(test)]
mod trace_text_tests;
#[cfg(test)]
mod transcode_tests;
#[cfg(test)]
mod wc_replay_tests;
