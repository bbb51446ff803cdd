// The codec: a decoder or an encoder.
ghost use Rattle.std.specs.Prelude.{◌≡◌, true};
ghost use Rattle.codec_model.specs.declared.entry.Call.TheVariants as call;
ghost use Rattle.codec_model.specs.Replay.{may_call};
ghost use Rattle.codec_model.specs.Control.{Control};
ghost use Rattle.engine.specs.Steps.{is_decoder, is_encoder, is_open, if_given};
ghost use Rattle.engine.specs.Steps.{OpenedCore, Opened, OpenedDecoder, OpenedEncoder, Shut};
ghost use Rattle.engine.specs.Steps.{Calls, CallsIt, CallsWhere, Looks, LooksIt};
ghost use Rattle.engine.specs.Steps.{ConfiguresDecoder, ConfiguresEncoder, Decodes};
ghost use Rattle.engine.specs.Steps.{Encodes, EncodesIt, EncodesWhere};
ghost use Rattle.engine.specs.Steps.{Turns, TurnsIt, Works, WorksIt, Starts, StartsIt, StartsJob};
ghost use Rattle.engine.specs.Steps.{Returns, ReturnsIt, ReturnsJob, ReturnsWork};
ghost use Rattle.engine.specs.Steps.{OutputOf, ChunkOf, ConfigOf, SettledOf};
ghost use Rattle.engine.specs.Told.{codec_string, description_of};

use crate::answers::{
    AudioConfig, ChunkHead, ChunkOutput, ConfigOutput, DONE, EncoderNumbers, IDLE, INVALID, Look,
    NO_MEMORY, NOT_OPEN, Output, Reply, SamplesHead, Settled, Turn,
};
use crate::coder::AudioCoder;
use crate::made::{
    call_core, done_core, encode_core, look_core, no_look, no_reply, no_turn, start_core,
    turn_core, work_core,
};
use crate::media::{chunk_of, decoder_config_of, encoder_config_of, samples_of};
use crate::shown::{
    no_chunk, no_config, no_output, put_chunk_output, put_codec, put_description, put_output,
    settled_at, unsettled,
};
use crate::work::{WorkItem, end_of};
use codec_live::{DoneJob, Job, LiveCore};
use codec_model::{Call, Kind, Showing};
use std::alloc::Global;
use wc_base::{NoMemory, Samples};

// "decoders" and "encoders" in ASCII: words that tell an open codec from other bytes.
const DECODER: u64 = 0x6465_636f_6465_7273;

const ENCODER: u64 = 0x656e_636f_6465_7273;

/// An audio decoder or encoder: with no queues where it was not opened, or was ended, and then
/// `status` says why.
#[derive(Drop)]
pub struct AudioCodec {
    pub word: u64,
    pub status: u32,
    pub core: Option<LiveCore<AudioCoder>>,
    pub showing: Showing,
    pub alloc: Global,
}

/// Queues, or why there are none.
fn open_core(alloc: Global, kind: Kind, saturation: u32) -> (Option<LiveCore<AudioCoder>>, u32)
    ensures { OpenedCore kind saturation result.0 result.1 }
{
    if saturation == 0 {
        return (None, INVALID);
    }
    if saturation > 64 {
        return (None, INVALID);
    }
    match LiveCore::open(alloc, kind, saturation) {
        Ok(core) => (Some(core), DONE),
        Err(_) => (None, NO_MEMORY),
    }
}

fn sends<T: Send>(_value: &T) {}

/// Codecs and jobs may go to other threads.
pub fn may_be_sent(codec: &AudioCodec, job: &Job<AudioCoder>) {
    sends(codec);
    sends(job);
}

impl AudioCodec {
    fn open(alloc: Global, kind: Kind, word: u64, saturation: u32) -> AudioCodec
        ensures { Opened kind word saturation result }
    {
        let (core, status) = open_core(alloc, kind, saturation);
        AudioCodec {
            word,
            status,
            core,
            showing: Showing::Nothing,
            alloc,
        }
    }

    /// A decoder, saturated at so many coded items, 1 to 64.
    pub fn open_decoder(alloc: Global, saturation: u32) -> AudioCodec
        ensures { OpenedDecoder saturation result }
    {
        AudioCodec::open(alloc, Kind::AudioDecoder, DECODER, saturation)
    }

    /// An encoder, saturated at so many coded items, 1 to 64.
    pub fn open_encoder(alloc: Global, saturation: u32) -> AudioCodec
        ensures { OpenedEncoder saturation result }
    {
        AudioCodec::open(alloc, Kind::AudioEncoder, ENCODER, saturation)
    }

    fn is_decoder(&self) -> bool
        ensures { result ≡ is_decoder self.now }
    {
        self.word == DECODER
    }

    fn is_encoder(&self) -> bool
        ensures { result ≡ is_encoder self.now }
    {
        self.word == ENCODER
    }

    fn is_open(&self) -> bool
        ensures { result ≡ is_open self.now }
    {
        self.is_decoder() || self.is_encoder()
    }

    /// Gives back all that it has; it is not open then.
    pub fn end(&mut self) -> u32
        ensures { Shut self.old self.new result }
    {
        if !self.is_open() {
            return NOT_OPEN;
        }
        self.word = 0;
        self.status = NOT_OPEN;
        self.core = None;
        self.showing = Showing::Nothing;
        DONE
    }

    fn call_open(&mut self, call: &Call) -> Reply
        requires { (c : Control) → may_call call.now c ≡ true }
        ensures it { CallsIt call.now self.old.core self.new.core
            self.old.showing self.new.showing self.old.status result }
        ensures word { self.new.word ≡ self.old.word }
    {
        match &mut self.core {
            Some(core) => call_core(core, &mut self.showing, call),
            None => no_reply(self.status),
        }
    }

    fn call_where(&mut self, there: bool, call: Call) -> Reply
        requires { (c : Control) → may_call call c ≡ true }
        ensures { CallsWhere there call self.old self.new result }
    {
        if there {
            self.call_open(&call)
        } else {
            no_reply(NOT_OPEN)
        }
    }

    fn call(&mut self, call: Call) -> Reply
        requires { (c : Control) → may_call call c ≡ true }
        ensures { Calls call self.old self.new result }
    {
        let there = self.is_open();
        self.call_where(there, call)
    }

    fn call_decoder(&mut self, call: Call) -> Reply
        requires { (c : Control) → may_call call c ≡ true }
        ensures { CallsWhere (is_decoder self.old) call self.old self.new result }
    {
        let there = self.is_decoder();
        self.call_where(there, call)
    }

    fn call_encoder(&mut self, call: Call) -> Reply
        requires { (c : Control) → may_call call c ≡ true }
        ensures { CallsWhere (is_encoder self.old) call self.old self.new result }
    {
        let there = self.is_encoder();
        self.call_where(there, call)
    }

    /// A decoder's configure.
    pub fn configure_decoder(
        &mut self,
        config: &AudioConfig,
        codec: &[u8],
        description: &[u8],
    ) -> Reply
        ensures { ConfiguresDecoder config.now.rate config.now.channels codec.now
            (if_given config.now.has_description description.now) self.old self.new result }
    {
        match decoder_config_of(self.alloc, config, codec, description) {
            Ok(config) => self.call_decoder(Call::Configure(config)),
            Err(NoMemory) => no_reply(NO_MEMORY),
        }
    }

    /// An encoder's configure.
    pub fn configure_encoder(&mut self, numbers: &EncoderNumbers, codec: &[u8]) -> Reply
        ensures { ConfiguresEncoder numbers.now codec.now self.old self.new result }
    {
        match encoder_config_of(self.alloc, numbers, codec) {
            Ok(config) => self.call_encoder(Call::Configure(config)),
            Err(NoMemory) => no_reply(NO_MEMORY),
        }
    }

    /// A decode.
    pub fn decode(&mut self, head: &ChunkHead, bytes: &[u8]) -> Reply
        ensures { Decodes head.now bytes.now self.old self.new result }
    {
        match chunk_of(self.alloc, head, bytes) {
            Ok(chunk) => self.call_decoder(Call::Decode(chunk)),
            Err(NoMemory) => no_reply(NO_MEMORY),
        }
    }

    fn encode_open(&mut self, samples: Samples) -> Reply
        ensures it { EncodesIt samples self.old.core self.new.core
            self.old.showing self.new.showing self.old.status result }
        ensures word { self.new.word ≡ self.old.word }
    {
        match &mut self.core {
            Some(core) => encode_core(core, &mut self.showing, samples),
            None => no_reply(self.status),
        }
    }

    fn encode_samples(&mut self, samples: Option<Samples>) -> Reply
        ensures { EncodesWhere samples self.old self.new result }
    {
        if !self.is_encoder() {
            return no_reply(NOT_OPEN);
        }
        match samples {
            Some(samples) => self.encode_open(samples),
            None => no_reply(INVALID),
        }
    }

    /// An encode. The samples are copied.
    pub fn encode(&mut self, head: &SamplesHead, bytes: &[u8]) -> Reply
        ensures { Encodes head.now bytes.now self.old self.new result }
    {
        match samples_of(self.alloc, head, bytes) {
            Ok(samples) => self.encode_samples(samples),
            Err(NoMemory) => no_reply(NO_MEMORY),
        }
    }

    /// A flush.
    pub fn flush(&mut self) -> Reply
        ensures { Calls call.Flush self.old self.new result }
    {
        self.call(Call::Flush)
    }

    /// A reset.
    pub fn reset(&mut self) -> Reply
        ensures { Calls call.Reset self.old self.new result }
    {
        self.call(Call::Reset)
    }

    /// A close.
    pub fn close(&mut self) -> Reply
        ensures { Calls call.Close self.old self.new result }
    {
        self.call(Call::Close)
    }

    /// The work of the front item, which ends at a moment in microseconds.
    pub fn work(&mut self, moment: u64) -> u32
        ensures { Works moment self.old self.new result }
    {
        if self.is_open() {
            self.work_open(moment)
        } else {
            NOT_OPEN
        }
    }

    fn work_open(&mut self, moment: u64) -> u32
        ensures it { WorksIt moment self.old.core self.new.core self.old.status result }
        ensures word { self.new.word ≡ self.old.word }
        ensures showing { self.new.showing ≡ self.old.showing }
    {
        match &mut self.core {
            Some(core) => work_core(self.alloc, core, moment),
            None => self.status,
        }
    }

    /// The front event task.
    pub fn turn(&mut self) -> Turn
        ensures { Turns self.old self.new result }
    {
        if self.is_open() {
            self.turn_open()
        } else {
            no_turn(NOT_OPEN)
        }
    }

    fn turn_open(&mut self) -> Turn
        ensures it { TurnsIt self.old.core self.new.core
            self.old.showing self.new.showing self.old.status result }
        ensures word { self.new.word ≡ self.old.word }
    {
        match &mut self.core {
            Some(core) => turn_core(core, &mut self.showing),
            None => no_turn(self.status),
        }
    }

    /// The front item begins, and leaves.
    pub fn start(&mut self) -> WorkItem
        ensures { Starts self.old self.new result }
    {
        let alloc = self.alloc;
        let job = self.start_job();
        WorkItem {
            job,
            done: None,
            alloc,
        }
    }

    fn start_job(&mut self) -> Option<Job<AudioCoder>>
        ensures { StartsJob self.old self.new result }
    {
        if self.is_open() {
            self.start_open()
        } else {
            None
        }
    }

    fn start_open(&mut self) -> Option<Job<AudioCoder>>
        ensures it { StartsIt self.old.core self.new.core result }
        ensures word { self.new.word ≡ self.old.word }
        ensures showing { self.new.showing ≡ self.old.showing }
    {
        match &mut self.core {
            Some(core) => start_core(core),
            None => None,
        }
    }

    fn done_open(&mut self, done: DoneJob<AudioCoder>, moment: u64) -> u32
        ensures it { ReturnsIt moment done self.old.core self.new.core self.old.status result }
        ensures word { self.new.word ≡ self.old.word }
        ensures showing { self.new.showing ≡ self.old.showing }
    {
        match &mut self.core {
            Some(core) => done_core(core, done, moment),
            None => self.status,
        }
    }

    fn job_there(&mut self, job: Option<Job<AudioCoder>>, moment: u64) -> u32
        ensures { ReturnsJob moment job self.old self.new result }
    {
        match job {
            Some(job) => self.done_open(end_of(self.alloc, job), moment),
            None => IDLE,
        }
    }

    fn work_there(
        &mut self,
        job: Option<Job<AudioCoder>>,
        done: Option<DoneJob<AudioCoder>>,
        moment: u64,
    ) -> u32
        ensures { ReturnsWork moment job done self.old self.new result }
    {
        match done {
            Some(done) => self.done_open(done, moment),
            None => self.job_there(job, moment),
        }
    }

    /// The item that was at work ends, at a moment in microseconds; where it was not performed, it
    /// is performed now. An item whose numbers are not those of the item at work is refused. One of
    /// another codec with the same numbers ends the item in its place.
    pub fn done(&mut self, work: WorkItem, moment: u64) -> u32
        ensures { Returns moment work self.old self.new result }
    {
        let WorkItem {
            job,
            done,
            alloc: _,
        } = work;
        if self.is_open() {
            self.work_there(job, done, moment)
        } else {
            NOT_OPEN
        }
    }

    /// An output of the last step.
    pub fn output(&mut self, number: u64, room: &mut [u8]) -> Output
        ensures { OutputOf self.old number room.old room.new result × (self.new ≡ self.old) }
    {
        if self.is_open() {
            put_output(&self.showing, number, room)
        } else {
            no_output(NOT_OPEN)
        }
    }

    /// A chunk that the last step showed.
    pub fn chunk(&mut self, number: u64, room: &mut [u8]) -> ChunkOutput
        ensures { ChunkOf self.old number room.old room.new result × (self.new ≡ self.old) }
    {
        if self.is_open() {
            put_chunk_output(&self.showing, number, room)
        } else {
            no_chunk(NOT_OPEN)
        }
    }

    /// The codec string of the decoder config that an output of the last step carries.
    pub fn config_codec(&mut self, number: u64, room: &mut [u8]) -> ConfigOutput
        ensures { ConfigOf codec_string
            self.old number room.old room.new result
            × (self.new ≡ self.old) }
    {
        if self.is_open() {
            put_codec(&self.showing, number, room)
        } else {
            no_config(NOT_OPEN)
        }
    }

    /// The description of the decoder config that an output of the last step carries.
    pub fn config_description(&mut self, number: u64, room: &mut [u8]) -> ConfigOutput
        ensures { ConfigOf description_of self.old number room.old room.new result
            × (self.new ≡ self.old) }
    {
        if self.is_open() {
            put_description(&self.showing, number, room)
        } else {
            no_config(NOT_OPEN)
        }
    }

    /// An end of a promise that the last step settled.
    pub fn settled(&mut self, number: u64) -> Settled
        ensures { SettledOf self.old number result × (self.new ≡ self.old) }
    {
        if self.is_open() {
            settled_at(&self.showing, number)
        } else {
            unsettled(NOT_OPEN)
        }
    }

    /// The state, the number of coded messages in the queue, and the number of entries.
    pub fn look(&mut self) -> Look
        ensures { Looks self.old result × (self.new ≡ self.old) }
    {
        if self.is_open() {
            self.look_open()
        } else {
            no_look(NOT_OPEN)
        }
    }

    fn look_open(&self) -> Look
        ensures { LooksIt self.now.core self.now.status result }
    {
        match &self.core {
            Some(core) => look_core(core),
            None => no_look(self.status),
        }
    }
}
