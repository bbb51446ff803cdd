//! Tests of verdicts on reports.
#![tactic(auto)]

#[cfg(test)]
mod check_tests;
