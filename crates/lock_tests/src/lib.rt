//! Callers of locks that count their history, and their tests: a plain list behind a lock, and a stock of claims.
#![tactic(auto)]

pub mod marks;
pub mod stock;
#[cfg(test)]
mod tests;
