// Reads the word of a step and its inline data.
ghost use Rattle.std.specs.Prelude.{◌≡◌, IfOk};
ghost use Rattle.json_data.specs.View.{view};
ghost use Rattle.script_steps.specs.Words.{word_of, media_word_of, word_in, data_of_word};

use crate::media::read_init_data;
use crate::{MediaWord, StepWord, read_step_data, text_member};
use bytes::Bytes;
use json_data::Value;
use std::alloc::Global;
use wc_base::NoMemory;

fn read_media_word(text: &str) -> Option<MediaWord>
    ensures { result ≡ media_word_of text.now }
{
    match text {
        "audio" => Some(MediaWord::Audio),
        "frame" => Some(MediaWord::Frame),
        "buffer" => Some(MediaWord::Buffer),
        "encode" => Some(MediaWord::Encode),
        "take" => Some(MediaWord::Take),
        "clone" => Some(MediaWord::Clone),
        "transfer" => Some(MediaWord::Transfer),
        "close-data" => Some(MediaWord::CloseData),
        "copy" => Some(MediaWord::Copy),
        "size" => Some(MediaWord::Size),
        "post" => Some(MediaWord::Post),
        "receive" => Some(MediaWord::Receive),
        _ => None,
    }
}

fn read_word(text: &str) -> Option<StepWord>
    ensures { result ≡ word_of text.now }
{
    match text {
        "configure" => Some(StepWord::Configure),
        "chunk" => Some(StepWord::Chunk),
        "decode" => Some(StepWord::Decode),
        "flush" => Some(StepWord::Flush),
        "poll" => Some(StepWord::Poll),
        "await" => Some(StepWord::Await),
        "reset" => Some(StepWord::Reset),
        "close" => Some(StepWord::Close),
        "state" => Some(StepWord::State),
        "ground" => Some(StepWord::Ground),
        _ => Some(StepWord::Media(read_media_word(text)?)),
    }
}

/// What the step does: the meaning of its member `do`, or `None` where there is no such word.
pub fn word_member(value: &Value<'_>) -> Option<StepWord>
    ensures { result ≡ word_in (view value.now) }
{
    read_word(text_member(value, "do")?)
}

/// The bytes of a step's inline data, where it is hex text: of a chunk, audio data, a frame or a buffer that is made.
pub fn read_inline_data(
    alloc: Global,
    word: Option<StepWord>,
    value: &Value<'_>,
) -> Result<Option<Bytes>, NoMemory>
    ensures { IfOk result (λ o. o ≡ data_of_word word (view value.now)) }
{
    match word {
        Some(StepWord::Chunk | StepWord::Media(MediaWord::Audio | MediaWord::Frame)) => {
            read_step_data(alloc, value)
        }
        Some(StepWord::Media(MediaWord::Buffer)) => read_init_data(alloc, value),
        _ => Ok(None),
    }
}
