//! Tests of media resources, of array buffers, of audio data, of video frames and of the variables that hold them.
#![tactic(auto)]

#[cfg(test)]
mod array_buffers_tests;
#[cfg(test)]
mod conversion_tests;
#[cfg(test)]
mod copy_table_tests;
#[cfg(test)]
mod lent_media_tests;
#[cfg(test)]
mod media_variables_tests;
#[cfg(test)]
mod wc_audio_tests;
#[cfg(test)]
mod wc_pool_tests;
#[cfg(test)]
mod wc_video_tests;
