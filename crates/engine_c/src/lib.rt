//! The engine as a library for C: audio decoders and encoders of W3C WebCodecs behind handles.
//!
//! A handle is room that its owner has, in which a codec lies from `begin` on. A clause with a
//! star says what lies there when the call begins and when it ends. Its fact is that of the
//! codec's own call of the same name, in the crate `engine`: there the word of an open codec is
//! looked at, and a status says what else is amiss.
#![tactic(auto)]

ghost use Rattle.std.specs.Prelude.{◌≡◌};
ghost use types.Logic.{sem};
ghost use base.Fraction.{full_share};
ghost use denote.Param.{layout};
ghost use denote.RawPtr.{lies_at, room_at};
ghost use prog.Memory.{align, capped, size};
ghost use Rattle.engine.specs.contracts.codec.AudioCodec.{the_row};
ghost use Rattle.engine.specs.declared.codec.AudioCodec.{AudioCodec as Codec};
ghost use Rattle.engine.specs.contracts.work.WorkItem.{the_row as work_row};
ghost use Rattle.engine.specs.declared.work.WorkItem.{WorkItem as Work};
ghost use Rattle.engine.specs.Steps.{OpenedDecoder, OpenedEncoder, Shut, Calls};
ghost use Rattle.engine.specs.Steps.{ConfiguresDecoder, ConfiguresEncoder, Decodes, Encodes};
ghost use Rattle.engine.specs.Steps.{Works, Turns, Starts, Performs, Returns, Looks};
ghost use Rattle.engine.specs.Steps.{OutputOf, ChunkOf, ConfigOf, SettledOf, if_given};
ghost use Rattle.engine.specs.Told.{codec_string, description_of};
ghost use Rattle.codec_model.specs.declared.entry.Call.TheVariants as call;

use engine::{
    AudioCodec, AudioConfig, ChunkHead, ChunkOutput, ConfigOutput, EncoderNumbers, Look, Output,
    Reply, SamplesHead, Settled, Turn, WorkItem,
};
use std::alloc::Global;
use std::mem::{align_of, size_of};

/// Where a codec lies: an audio decoder or encoder.
#[repr(C)]
#[derive(Drop)]
pub struct Handle {
    private: u8,
}

/// Where a work item lies that left its codec.
#[repr(C)]
#[derive(Drop)]
pub struct WorkHandle {
    private: u8,
}

/// The version as a number: 65536 times its first part, 256 times its second, and its third, added.
#[unsafe(no_mangle)]
pub extern "C" fn zemirako_engine_version() -> u32
    ensures { result ≡ 0x0000_0200 }
{
    0x0000_0200
}

/// How many bytes a codec takes.
#[unsafe(no_mangle)]
pub extern "C" fn zemirako_codec_size() -> usize
    ensures { result ≡ capped (size (layout the_row)) }
{
    size_of::<AudioCodec>()
}

/// To how many bytes a codec is aligned.
#[unsafe(no_mangle)]
pub extern "C" fn zemirako_codec_align() -> usize
    ensures { result ≡ align (layout the_row) }
{
    align_of::<AudioCodec>()
}

/// How many bytes a work item takes.
#[unsafe(no_mangle)]
pub extern "C" fn zemirako_work_item_size() -> usize
    ensures { result ≡ capped (size (layout work_row)) }
{
    size_of::<WorkItem>()
}

/// To how many bytes a work item is aligned.
#[unsafe(no_mangle)]
pub extern "C" fn zemirako_work_item_align() -> usize
    ensures { result ≡ align (layout work_row) }
{
    align_of::<WorkItem>()
}

/// Puts a decoder into some room, saturated at so many coded items, 1 to 64 (our choice). `look`
/// answers with the status: out of range, or out of memory, and then it has no queues.
#[unsafe(no_mangle)]
pub unsafe extern "C" fn zemirako_audio_decoder_begin(
    alloc: Global,
    at: *mut Handle,
    saturation: u32,
)
    requires* { sem 𝓛 (room_at the_row at) }
    ensures* { ∃ₛ (λ new. sem 𝓛 (lies_at the_row full_share at new) ∗ ⌜ OpenedDecoder saturation new ⌝) }
{
    (at as *mut AudioCodec).write(AudioCodec::open_decoder(alloc, saturation));
}

/// The same of an encoder.
#[unsafe(no_mangle)]
pub unsafe extern "C" fn zemirako_audio_encoder_begin(
    alloc: Global,
    at: *mut Handle,
    saturation: u32,
)
    requires* { sem 𝓛 (room_at the_row at) }
    ensures* { ∃ₛ (λ new. sem 𝓛 (lies_at the_row full_share at new)
        ∗ ⌜ OpenedEncoder saturation new ⌝) }
{
    (at as *mut AudioCodec).write(AudioCodec::open_encoder(alloc, saturation));
}

/// Gives back all that a codec has. What lies there then is a codec that is not open.
#[unsafe(no_mangle)]
pub unsafe extern "C" fn zemirako_codec_end(at: *mut Handle) -> u32
    ghost value: { Codec }
    requires* { sem 𝓛 (lies_at the_row full_share at value) }
    ensures* { ∃ₛ (λ new. sem 𝓛 (lies_at the_row full_share at new) ∗ ⌜ Shut value new result ⌝) }
{
    AudioCodec::end(&mut *(at as *mut AudioCodec))
}

/// `AudioDecoder.configure` of W3C WebCodecs, with the config of these parts. A codec string that
/// is no UTF-8 is refused with a TypeError. Where memory is wanted, nothing has changed.
#[unsafe(no_mangle)]
pub unsafe extern "C" fn zemirako_audio_decoder_configure(
    at: *mut Handle,
    config: &AudioConfig,
    codec: &[u8],
    description: &[u8],
) -> Reply
    ghost value: { Codec }
    requires* { sem 𝓛 (lies_at the_row full_share at value) }
    ensures* { ∃ₛ (λ new. sem 𝓛 (lies_at the_row full_share at new)
        ∗ ⌜ ConfiguresDecoder config.now.rate config.now.channels codec.now
        (if_given config.now.has_description description.now) value new result ⌝) }
{
    AudioCodec::configure_decoder(&mut *(at as *mut AudioCodec), config, codec, description)
}

/// `AudioEncoder.configure` of W3C WebCodecs, with the config of these parts. A codec string that
/// is no UTF-8 is refused with a TypeError. Where memory is wanted, nothing has changed.
#[unsafe(no_mangle)]
pub unsafe extern "C" fn zemirako_audio_encoder_configure(
    at: *mut Handle,
    numbers: &EncoderNumbers,
    codec: &[u8],
) -> Reply
    ghost value: { Codec }
    requires* { sem 𝓛 (lies_at the_row full_share at value) }
    ensures* { ∃ₛ (λ new. sem 𝓛 (lies_at the_row full_share at new)
        ∗ ⌜ ConfiguresEncoder numbers.now codec.now value new result ⌝) }
{
    AudioCodec::configure_encoder(&mut *(at as *mut AudioCodec), numbers, codec)
}

/// `AudioDecoder.decode` of W3C WebCodecs, with the chunk of these parts. Where memory is wanted,
/// nothing has changed.
#[unsafe(no_mangle)]
pub unsafe extern "C" fn zemirako_audio_decoder_decode(
    at: *mut Handle,
    head: &ChunkHead,
    bytes: &[u8],
) -> Reply
    ghost value: { Codec }
    requires* { sem 𝓛 (lies_at the_row full_share at value) }
    ensures* { ∃ₛ (λ new. sem 𝓛 (lies_at the_row full_share at new)
        ∗ ⌜ Decodes head.now bytes.now value new result ⌝) }
{
    AudioCodec::decode(&mut *(at as *mut AudioCodec), head, bytes)
}

/// `AudioEncoder.encode` of W3C WebCodecs, with a copy of these samples. Where memory is wanted,
/// nothing has changed.
#[unsafe(no_mangle)]
pub unsafe extern "C" fn zemirako_audio_encoder_encode(
    at: *mut Handle,
    head: &SamplesHead,
    bytes: &[u8],
) -> Reply
    ghost value: { Codec }
    requires* { sem 𝓛 (lies_at the_row full_share at value) }
    ensures* { ∃ₛ (λ new. sem 𝓛 (lies_at the_row full_share at new)
        ∗ ⌜ Encodes head.now bytes.now value new result ⌝) }
{
    AudioCodec::encode(&mut *(at as *mut AudioCodec), head, bytes)
}

/// `flush` of W3C WebCodecs. Its promise is named by the place that is answered. Where
/// memory is wanted, nothing has changed.
#[unsafe(no_mangle)]
pub unsafe extern "C" fn zemirako_codec_flush(at: *mut Handle) -> Reply
    ghost value: { Codec }
    requires* { sem 𝓛 (lies_at the_row full_share at value) }
    ensures* { ∃ₛ (λ new. sem 𝓛 (lies_at the_row full_share at new)
        ∗ ⌜ Calls call.Flush value new result ⌝) }
{
    AudioCodec::flush(&mut *(at as *mut AudioCodec))
}

/// `reset` of W3C WebCodecs: it rejects the pending promises with an AbortError. It
/// wants no memory.
#[unsafe(no_mangle)]
pub unsafe extern "C" fn zemirako_codec_reset(at: *mut Handle) -> Reply
    ghost value: { Codec }
    requires* { sem 𝓛 (lies_at the_row full_share at value) }
    ensures* { ∃ₛ (λ new. sem 𝓛 (lies_at the_row full_share at new)
        ∗ ⌜ Calls call.Reset value new result ⌝) }
{
    AudioCodec::reset(&mut *(at as *mut AudioCodec))
}

/// `close` of W3C WebCodecs: it rejects the pending promises with an AbortError. It
/// wants no memory.
#[unsafe(no_mangle)]
pub unsafe extern "C" fn zemirako_codec_close(at: *mut Handle) -> Reply
    ghost value: { Codec }
    requires* { sem 𝓛 (lies_at the_row full_share at value) }
    ensures* { ∃ₛ (λ new. sem 𝓛 (lies_at the_row full_share at new)
        ∗ ⌜ Calls call.Close value new result ⌝) }
{
    AudioCodec::close(&mut *(at as *mut AudioCodec))
}

/// The front item of the codec work queue (W3C WebCodecs) is done, and ends at a moment in
/// microseconds.
#[unsafe(no_mangle)]
pub unsafe extern "C" fn zemirako_codec_work(at: *mut Handle, moment: u64) -> u32
    ghost value: { Codec }
    requires* { sem 𝓛 (lies_at the_row full_share at value) }
    ensures* { ∃ₛ (λ new. sem 𝓛 (lies_at the_row full_share at new)
        ∗ ⌜ Works moment value new result ⌝) }
{
    AudioCodec::work(&mut *(at as *mut AudioCodec), moment)
}

/// The front task of those that the codec queued on its event loop (W3C WebCodecs) runs.
#[unsafe(no_mangle)]
pub unsafe extern "C" fn zemirako_codec_turn(at: *mut Handle) -> Turn
    ghost value: { Codec }
    requires* { sem 𝓛 (lies_at the_row full_share at value) }
    ensures* { ∃ₛ (λ new. sem 𝓛 (lies_at the_row full_share at new) ∗ ⌜ Turns value new result ⌝) }
{
    AudioCodec::turn(&mut *(at as *mut AudioCodec))
}

/// The bytes of samples that the last step showed, put at the front of some room, if they fit. The outputs
/// are what the standard hands to the output callback, numbered from 0.
#[unsafe(no_mangle)]
pub unsafe extern "C" fn zemirako_audio_decoder_output(
    at: *mut Handle,
    number: u64,
    room: &mut [u8],
) -> Output
    ghost value: { Codec }
    requires* { sem 𝓛 (lies_at the_row full_share at value) }
    ensures* { ∃ₛ (λ new. sem 𝓛 (lies_at the_row full_share at new)
        ∗ ⌜ OutputOf value number room.old room.new result
        × (new ≡ value) ⌝) }
{
    AudioCodec::output(&mut *(at as *mut AudioCodec), number, room)
}

/// The bytes of a chunk that the last step showed, put at the front of some room, if they fit.
#[unsafe(no_mangle)]
pub unsafe extern "C" fn zemirako_audio_encoder_chunk(
    at: *mut Handle,
    number: u64,
    room: &mut [u8],
) -> ChunkOutput
    ghost value: { Codec }
    requires* { sem 𝓛 (lies_at the_row full_share at value) }
    ensures* { ∃ₛ (λ new. sem 𝓛 (lies_at the_row full_share at new)
        ∗ ⌜ ChunkOf value number room.old room.new result
        × (new ≡ value) ⌝) }
{
    AudioCodec::chunk(&mut *(at as *mut AudioCodec), number, room)
}

/// The codec string of the decoder config that an output of the last step carries
/// (`EncodedAudioChunkMetadata.decoderConfig` of W3C WebCodecs), put at the front of some room.
#[unsafe(no_mangle)]
pub unsafe extern "C" fn zemirako_audio_encoder_config_codec(
    at: *mut Handle,
    number: u64,
    room: &mut [u8],
) -> ConfigOutput
    ghost value: { Codec }
    requires* { sem 𝓛 (lies_at the_row full_share at value) }
    ensures* { ∃ₛ (λ new. sem 𝓛 (lies_at the_row full_share at new)
        ∗ ⌜ ConfigOf codec_string value number room.old room.new result
        × (new ≡ value) ⌝) }
{
    AudioCodec::config_codec(&mut *(at as *mut AudioCodec), number, room)
}

/// The description of that config, put at the front of some room; no byte where it has none.
#[unsafe(no_mangle)]
pub unsafe extern "C" fn zemirako_audio_encoder_config_description(
    at: *mut Handle,
    number: u64,
    room: &mut [u8],
) -> ConfigOutput
    ghost value: { Codec }
    requires* { sem 𝓛 (lies_at the_row full_share at value) }
    ensures* { ∃ₛ (λ new. sem 𝓛 (lies_at the_row full_share at new)
        ∗ ⌜ ConfigOf description_of value number room.old room.new result
        × (new ≡ value) ⌝) }
{
    AudioCodec::config_description(&mut *(at as *mut AudioCodec), number, room)
}

/// An end of a promise that the last step resolved or rejected, numbered from 0.
#[unsafe(no_mangle)]
pub unsafe extern "C" fn zemirako_codec_settled(at: *mut Handle, number: u64) -> Settled
    ghost value: { Codec }
    requires* { sem 𝓛 (lies_at the_row full_share at value) }
    ensures* { ∃ₛ (λ new. sem 𝓛 (lies_at the_row full_share at new)
        ∗ ⌜ SettledOf value number result
        × (new ≡ value) ⌝) }
{
    AudioCodec::settled(&mut *(at as *mut AudioCodec), number)
}

/// `state` and `decodeQueueSize` or `encodeQueueSize` of W3C WebCodecs, and the number of steps that
/// were made.
#[unsafe(no_mangle)]
pub unsafe extern "C" fn zemirako_codec_look(at: *mut Handle) -> Look
    ghost value: { Codec }
    requires* { sem 𝓛 (lies_at the_row full_share at value) }
    ensures* { ∃ₛ (λ new. sem 𝓛 (lies_at the_row full_share at new)
        ∗ ⌜ Looks value result
        × (new ≡ value) ⌝) }
{
    AudioCodec::look(&mut *(at as *mut AudioCodec))
}

/// The front item of the codec work queue begins, and leaves its codec for some room. Where none
/// can begin, what lies in the room is empty.
#[unsafe(no_mangle)]
pub unsafe extern "C" fn zemirako_codec_start(at: *mut Handle, room: *mut WorkHandle)
    ghost value: { Codec }
    requires* { sem 𝓛 (lies_at the_row full_share at value) ∗ sem 𝓛 (room_at work_row room) }
    ensures* { ∃ₛ (λ new. sem 𝓛 (lies_at the_row full_share at new)
        ∗ ∃ₛ (λ w. sem 𝓛 (lies_at work_row full_share room w)
        ∗ ⌜ Starts value new w ⌝)) }
{
    (room as *mut WorkItem).write(AudioCodec::start(&mut *(at as *mut AudioCodec)));
}

/// Does the job that lies there, on any thread.
#[unsafe(no_mangle)]
pub unsafe extern "C" fn zemirako_work_item_perform(at: *mut WorkHandle)
    ghost value: { Work }
    requires* { sem 𝓛 (lies_at work_row full_share at value) }
    ensures* { ∃ₛ (λ new. sem 𝓛 (lies_at work_row full_share at new) ∗ ⌜ Performs value new ⌝) }
{
    WorkItem::perform(&mut *(at as *mut WorkItem))
}

/// Takes the work item out of its room. It ends at a moment in microseconds; where it was not
/// performed, it is now.
#[unsafe(no_mangle)]
pub unsafe extern "C" fn zemirako_codec_done(
    at: *mut Handle,
    room: *mut WorkHandle,
    moment: u64,
) -> u32
    ghost value: { Codec × Work }
    requires* { sem 𝓛 (lies_at the_row full_share at value.0)
        ∗ sem 𝓛 (lies_at work_row full_share room value.1) }
    ensures* { ∃ₛ (λ new. sem 𝓛 (lies_at the_row full_share at new)
        ∗ sem 𝓛 (room_at work_row room)
        ∗ ⌜ Returns moment value.1 value.0 new result ⌝) }
{
    AudioCodec::done(
        &mut *(at as *mut AudioCodec),
        (room as *mut WorkItem).read(),
        moment,
    )
}

/// Takes a work item out of its room that no codec wants back.
#[unsafe(no_mangle)]
pub unsafe extern "C" fn zemirako_work_item_end(at: *mut WorkHandle)
    ghost value: { Work }
    requires* { sem 𝓛 (lies_at work_row full_share at value) }
    ensures* { sem 𝓛 (room_at work_row at) }
{
    WorkItem::end((at as *mut WorkItem).read());
}
