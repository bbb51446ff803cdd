// What callers and the order do to one codec among all, with the boxes and the references that it takes and lets go.
ghost use Rattle.std.specs.Prelude.{◌≡◌, ◌<◌, IfOk, OnOk, length, map, slice_set, true};
ghost use Rattle.codec_accounts.specs.Codec.{codec_at, codecs_after, slots_by, state_of, next_by, IsGivable};
ghost use Rattle.codec_model.specs.declared.entry.Entry.TheVariants as entry;
ghost use Rattle.codec_model.specs.Held.{held_in, in_order, adds_held, lets_go};
ghost use Rattle.codec_model.specs.Replay.{may_call, call_error, encode_error};
ghost use Rattle.codec_model.specs.Shown.{exception_of};
ghost use Rattle.media_variables.specs.Held.{AreApart, pair_of};
ghost use Rattle.run_model.specs.Follow.{item_entry};
ghost use Rattle.wc_replay.specs.Desk.{codec_by, registry_by, media_by_option, media_without};

use crate::desk::{Answer, Desk};
use codec_model::Call;
use coder_api::Coder;
use media_variables::CallerMedia;
use script_types::OrderItem;
use slot_registry::Slots;
use std::alloc::Global;
use wc_base::{DomError, NoMemory, Who};
use wc_pool::MediaRef;

/// A call of the codec with this number, with the reference that it brings, if it brings one.
pub(crate) fn call_at<C: Coder>(
    desks: &mut Vec<Desk<C>>,
    slots: &mut Slots<C>,
    media: &mut CallerMedia,
    codec: u32,
    who: Who,
    call: Call,
    held: Option<MediaRef>,
) -> Result<Answer, NoMemory>
    requires codec { codec < length desks.old.items }
    requires may { may_call call (state_of (codec_at codec desks.old.items)).control ≡ true }
    requires held { map pair_of (in_order held) ≡ adds_held (entry.Call who call) }
    requires givable { IsGivable slots.old.history
        (next_by codec (codec_at codec desks.old.items))
        (codec_at codec desks.old.items).holding.box }
    requires lent { AreApart media.old.pool media.old.variables
        (lets_go (entry.Call who call) (state_of (codec_at codec desks.old.items))) }
    ensures made { OnOk result
        (desks.new.items
        ≡ codecs_after codec (entry.Call who call) slots.old desks.old.items) }
    ensures slots { OnOk result
        (slots.new
        ≡ slots_by codec (entry.Call who call) slots.old (codec_at codec desks.old.items)) }
    ensures media { let d = codec_at codec desks.old.items in
        OnOk result
        (media.new
        ≡ media_without (next_by codec d)
        (lets_go (entry.Call who call) (state_of d)) media.old) }
    ensures place { IfOk result (λ a. a.place ≡ length (codec_at codec desks.old.items).history) }
    ensures error { let control = (state_of (codec_at codec desks.old.items)).control in
        IfOk result (λ a. a.error ≡ exception_of call (call_error call control)) }
{
    match desks.get_mut(codec as usize) {
        Some(desk) => desk.call(codec, slots, media, who, call, held),
        None => unreachable!(),
    }
}

/// The codec with this number.
pub(crate) fn desk_at<C: Coder>(desks: &[Desk<C>], codec: u32) -> &Desk<C>
    requires { codec < length desks.now }
    ensures { result.now ≡ codec_at codec desks.now }
{
    match desks.get(codec as usize) {
        Some(desk) => desk,
        None => unreachable!(),
    }
}

/// The place of the next entry of the codec with this number.
pub(crate) fn place_at<C: Coder>(desks: &[Desk<C>], codec: u32) -> u64
    requires { codec < length desks.now }
    ensures { result ≡ length (codec_at codec desks.now).history }
{
    let (length, _, _) = desk_at(desks, codec).look();
    length
}

/// The error with which the codec with this number would refuse an encode now, of detached data or of other.
pub(crate) fn refusal_at<C: Coder>(
    desks: &[Desk<C>],
    codec: u32,
    detached: bool,
) -> Option<DomError>
    requires { codec < length desks.now }
    ensures { result ≡ encode_error detached (state_of (codec_at codec desks.now)).control }
{
    desk_at(desks, codec).encode_refusal(detached)
}

/// An item of the order that names the codec with this number, and whether its end wanted memory.
pub(crate) fn take_at<C: Coder>(
    desks: &mut Vec<Desk<C>>,
    slots: &mut Slots<C>,
    media: &mut CallerMedia,
    codec: u32,
    alloc: Global,
    item: OrderItem,
    starved: bool,
) -> Result<bool, NoMemory>
    requires codec { codec < length desks.old.items }
    requires givable { IsGivable slots.old.history
        (next_by codec (codec_at codec desks.old.items))
        (codec_at codec desks.old.items).holding.box }
    requires lent { AreApart media.old.pool media.old.variables
        (held_in (state_of (codec_at codec desks.old.items))) }
    ensures { IfOk result
        (λ wants. (desks.new.items
        ≡ slice_set desks.old.items codec
        (codec_by codec (item_entry wants item (codec_at codec desks.old.items)) slots.old
        (codec_at codec desks.old.items)))
        ×
        (slots.new
        ≡ registry_by codec (item_entry wants item (codec_at codec desks.old.items)) slots.old
        (codec_at codec desks.old.items))
        ×
        (media.new
        ≡ media_by_option codec (item_entry wants item (codec_at codec desks.old.items))
        (codec_at codec desks.old.items) media.old)) }
{
    match desks.get_mut(codec as usize) {
        Some(desk) => desk.take(alloc, codec, slots, media, item, starved),
        None => unreachable!(),
    }
}
