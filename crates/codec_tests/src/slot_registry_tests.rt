ghost use Rattle.std.specs.Prelude.{◌≡◌, [], unwrap_or, option_map};
ghost use Rattle.coder_api.specs.Meaning.{Configured, Stopped, state_after, is_id};
ghost use Rattle.slot_registry.specs.Slots.{IsHeld, KeepsBoxes};

use coder_api::{Coder, CoderFault, Input, SlotBox, SlotEntry, SlotOp, Unit};
use slot_registry::{AcquireFault, Slots};
use std::alloc::Global;
use std::process::Abort;
use std::test::Fail;
use wc_base::{By, NoMemory};
use wc_config::{AudioDecoderConfig, CodecId, CoderId, Config, Role};

fn is_same(id: CoderId, other: CoderId) -> bool
    ensures { result ≡ is_id id other }
{
    id == other
}

// A coder that is configured, and then never has memory.
#[derive(Drop)]
struct Quiet {
    id: CoderId,
    config: Option<Config>,
}

impl Coder for Quiet {
    ghost coder = { λ q. q.id };

    ghost meaning = { λ q. unwrap_or (option_map (λ c. Configured c (state_after q.id c [])) q.config) Stopped };

    fn id(&self) -> CoderId {
        self.id
    }

    fn supports(&self, config: &Config) -> bool {
        match config.coder_id() {
            Some(wanted) => config.supported() && is_same(self.id, wanted),
            None => false,
        }
    }

    fn configure(&mut self, _alloc: Global, config: &Config) -> Result<(), NoMemory> {
        self.config = None;
        self.config = Some(config.copy()?);
        Ok(())
    }

    fn setup(&self, _alloc: Global) -> Result<Option<AudioDecoderConfig>, NoMemory> {
        Err(NoMemory)
    }

    fn push(
        &mut self,
        _alloc: Global,
        _input: &Input<'_>,
        _out: &mut Vec<Unit>,
    ) -> Result<(), CoderFault> {
        self.config = None;
        Err(CoderFault::NoMemory)
    }

    fn drain(&mut self, _alloc: Global, _out: &mut Vec<Unit>) -> Result<(), NoMemory> {
        self.config = None;
        Err(NoMemory)
    }

    fn stop(&mut self) {
        self.config = None;
    }
}

fn decoder(codec: CodecId) -> CoderId {
    CoderId {
        role: Role::Decode,
        codec,
    }
}

fn entry_of(codec: u32, place: u64) -> By
    ensures { result ≡ By.Codec codec place }
{
    By::Codec { codec, place }
}

// The box that goes out.
fn taken(rt: &impl Abort, slots: &mut Slots<Quiet>, by: By, id: CoderId) -> SlotBox<Quiet>
    ensures by { result.by ≡ by }
    ensures held { IsHeld slots.new result }
    ensures kept { KeepsBoxes slots.old slots.new }
{
    slots.acquire(by, id).expect(rt, "a free box")
}

fn registry(alloc: Global, codecs: &[CodecId]) -> Option<Slots<Quiet>> {
    let mut coders = Vec::new(alloc);
    for codec in codecs {
        let coder = Quiet {
            id: decoder(*codec),
            config: None,
        };
        if coders.push(coder).is_err() {
            return None;
        }
    }
    Slots::open(alloc, coders).ok()
}

#[test]
fn least_number_goes_out_first(rt: HostRuntime) -> Result<(), Fail> {
    let pcm = decoder(CodecId::PcmS16);
    let ulaw = decoder(CodecId::Ulaw);
    let codecs = [CodecId::PcmS16, CodecId::Ulaw, CodecId::PcmS16];
    let mut slots = registry(rt.alloc(), &codecs).expect(&rt, "memory");
    assert_eq!(rt; slots.made(pcm), 2);
    assert_eq!(rt; slots.made(ulaw), 1);

    let first = taken(&rt, &mut slots, entry_of(0, 1), pcm);
    assert_eq!(rt; first.number(), 0);
    let second = taken(&rt, &mut slots, entry_of(1, 1), pcm);
    assert_eq!(rt; second.number(), 1);
    let other = taken(&rt, &mut slots, entry_of(0, 2), ulaw);
    assert_eq!(rt; other.number(), 0);
    assert!(rt; other.id() == ulaw);

    slots.give_back(entry_of(0, 3), first);
    let again = taken(&rt, &mut slots, entry_of(2, 5), pcm);
    assert_eq!(rt; again.number(), 0);
    assert_eq!(rt; again.by(), entry_of(2, 5));

    let entries = slots.into_entries();
    let expected = [
        (entry_of(0, 1), SlotOp::Acquire { id: pcm, number: 0 }),
        (entry_of(1, 1), SlotOp::Acquire { id: pcm, number: 1 }),
        (
            entry_of(0, 2),
            SlotOp::Acquire {
                id: ulaw,
                number: 0,
            },
        ),
        (entry_of(0, 3), SlotOp::Give { id: pcm, number: 0 }),
        (entry_of(2, 5), SlotOp::Acquire { id: pcm, number: 0 }),
    ];
    assert_eq!(rt; entries.len(), 5);
    for (entry, (by, op)) in entries.iter().zip(&expected) {
        assert_eq!(rt; *entry, SlotEntry { by: *by, op: *op });
    }
    Ok(())
}

#[test]
fn refused_where_none_is_free(rt: HostRuntime) -> Result<(), Fail> {
    let pcm = decoder(CodecId::PcmS16);
    let flac = decoder(CodecId::Flac);
    let mut slots = registry(rt.alloc(), &[CodecId::PcmS16]).expect(&rt, "memory");
    let held = taken(&rt, &mut slots, entry_of(0, 1), pcm);
    for (id, entry, out, made) in [(pcm, 1, 1, 1), (flac, 2, 0, 0)] {
        let wanted = AcquireFault::NoSlot { entry, out, made };
        match slots.acquire(entry_of(1, 4), id) {
            Ok(_) => assert!(rt; false, "no box of the id is free"),
            Err(fault) => assert_eq!(rt; fault, wanted),
        }
    }
    assert_eq!(rt; held.number(), 0);
    assert_eq!(rt; slots.entries().len(), 3);
    Ok(())
}
