//! Tests of FLAC's bits, sums, descriptions, frame headers and coded residuals.
#![tactic(auto)]

#[cfg(test)]
mod bits_tests;
#[cfg(test)]
mod description_tests;
#[cfg(test)]
mod header_tests;
#[cfg(test)]
mod residual_tests;
