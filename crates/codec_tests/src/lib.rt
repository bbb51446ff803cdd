//! Tests of one codec: its queues, its jobs, its histories and the boxes of coders.
#![tactic(auto)]

#[cfg(test)]
mod codec_core_tests;
#[cfg(test)]
mod codec_drive_tests;
#[cfg(test)]
mod codec_encode_tests;
#[cfg(test)]
mod codec_follow_tests;
#[cfg(test)]
mod codec_model_tests;
#[cfg(test)]
mod codec_queues_tests;
#[cfg(test)]
mod reclaimer_tests;
#[cfg(test)]
mod slot_registry_tests;
