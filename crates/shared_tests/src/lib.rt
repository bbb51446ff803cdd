//! Tests of what stands behind locks: a pool, a registry and codecs that threads share.
#![tactic(auto)]

#[cfg(test)]
mod counts;
#[cfg(test)]
mod desk;
#[cfg(test)]
mod flush_tests;
#[cfg(test)]
mod flushes;
#[cfg(test)]
mod grounds;
mod parts;
#[cfg(test)]
mod plays;
#[cfg(test)]
mod pools;
#[cfg(test)]
mod run_tests;
#[cfg(test)]
mod runs;
#[cfg(test)]
mod shared_pool_tests;
