// Walks through a script's value.
ghost use Rattle.std.specs.Prelude.{◌≡◌, ◌≢◌, ◌≤◌, [], IfOk, IfErr, IfSome, Some, None, Option, option_map, length, codes};
ghost use Rattle.std.specs.List.{count_by};
ghost use Rattle.json_data.specs.View.{view, items_view};
ghost use Rattle.script_types.specs.Limits as limits;
ghost use Rattle.script_types.specs.Sound as sound;
ghost use Rattle.script_steps.specs.Members.{array_in};
ghost use Rattle.wc_script.specs.Walk.{few, parts_of, order_if_there, checked_order, ordered, walk_of};
ghost use Rattle.script_types.specs.Reading.{Gives};

use crate::callers::{Room, read_callers};
use crate::codecs::read_codecs;
use crate::order::read_order;
use crate::ports::{read_named_ports, read_ports_at};
use json_data::Value;
use script_steps::{array_member, has};
use script_types::{
    CallerItem, CodecItem, Counted, Fault, OrderItem, Place, ScriptData, Stop, Wrong, limit_of,
};
use std::alloc::Global;
use wc_base::List;

// A member that is an array, within its limit.
#[tactic(auto, using(script_steps::specs::Counts::count_of_view))]
fn few_member<'v, 'a>(
    value: &'v Value<'a>,
    key: &str,
    what: Counted,
) -> Result<Option<&'v [Value<'a>]>, Stop<Fault>>
    ensures ok { IfOk result
        (λ o. few what (array_in key.now (view value.now))
        ≡ Ok (option_map (λ s. items_view s.now) o)) }
    ensures within { IfOk result (λ o. IfSome o (λ s. length s.now ≤ limits.limit_of what)) }
    ensures err { IfErr result (λ e. few what (array_in key.now (view value.now)) ≡ Err e) }
{
    match array_member(value, key) {
        None => Ok(None),
        Some(items) => {
            if items.len() > limit_of(what) {
                Err(Stop::Fault(Fault::TooMany(what)))
            } else {
                Ok(Some(items))
            }
        }
    }
}

// The arrays of a script, the first three within their limits; the order and the ports may be absent.
#[derive(Clone, Copy)]
struct Parts<'v, 'a> {
    codecs: &'v [Value<'a>],
    callers: &'v [Value<'a>],
    order: Option<&'v [Value<'a>]>,
    ports: Option<&'v [Value<'a>]>,
}

fn shape_at_top() -> Stop<Fault>
    ensures { result ≡ Stop.Fault (Fault.At Place.Top Wrong.Shape) }
{
    Stop::Fault(Fault::At {
        place: Place::Top,
        wrong: Wrong::Shape,
    })
}

#[tactic(auto, unfolding(crate::specs::Walk::parts_of))]
fn read_parts<'v, 'a>(value: &'v Value<'a>) -> Result<Parts<'v, 'a>, Stop<Fault>>
    ensures ok { IfOk result
        (λ p. parts_of (view value.now)
        ≡ Ok
        (record {
          codecs = items_view p.codecs.now;
          callers = items_view p.callers.now;
          order = option_map (λ s. items_view s.now) p.order;
          ports = option_map (λ s. items_view s.now) p.ports;
        })) }
    ensures codecs { IfOk result (λ p. length p.codecs.now ≤ 64) }
    ensures callers { IfOk result (λ p. length p.callers.now ≤ 16) }
    ensures order { IfOk result (λ p. IfSome p.order (λ s. length s.now ≤ 1000000)) }
    ensures err { IfErr result (λ e. parts_of (view value.now) ≡ Err e) }
{
    let codecs = few_member(value, "codecs", Counted::Codecs)?;
    let callers = few_member(value, "callers", Counted::Callers)?;
    let order = few_member(value, "order", Counted::Order)?;
    let (Some(codecs), Some(callers)) = (codecs, callers) else {
        return Err(shape_at_top());
    };
    if order.is_none() && has(value, "order") {
        return Err(shape_at_top());
    }
    Ok(Parts {
        codecs,
        callers,
        order,
        ports: array_member(value, "ports"),
    })
}

fn is_turn_of(caller: usize, item: &OrderItem) -> bool
    ensures { result ≡ sound.is_turn_of caller item.now }
{
    matches!(item, OrderItem::Caller(n) if *n as usize == caller)
}

fn turns_of(caller: usize, order: &[OrderItem]) -> usize
    ensures { result ≡ count_by (sound.is_turn_of caller) order.now }
{
    order.iter().filter(|item| is_turn_of(caller, item)).count()
}

// Whether the callers stand in the order as often as they have steps.
fn counts_agree(callers: &[CallerItem], order: &[OrderItem]) -> bool
    ensures { result ≡ sound.counts_agree 0 callers.now order.now }
{
    for (i, caller) in callers.iter().enumerate() {
        if turns_of(i, order) != caller.steps.len() {
            return false;
        }
    }
    true
}

fn check_order(
    callers: &[CallerItem],
    order: Option<List<OrderItem>>,
) -> Result<Option<List<OrderItem>>, Stop<Fault>>
    ensures { result ≡ checked_order callers.now order }
{
    match order {
        None => Ok(None),
        Some(items) if counts_agree(callers, items.as_slice()) => Ok(Some(items)),
        Some(_) => Err(shape_at_top()),
    }
}

// The order, which may be absent.
#[tactic(auto, unfolding(crate::specs::Walk::ordered))]
fn read_ordered(
    alloc: Global,
    codecs: &[CodecItem],
    callers: &[CallerItem],
    items: Option<&[Value<'_>]>,
) -> Result<Option<List<OrderItem>>, Stop<Fault>>
    requires codecs { length codecs.now ≤ 64 }
    requires callers { length callers.now ≤ 16 }
    requires order { IfSome items (λ s. length s.now ≤ 1000000) }
    ensures { Gives result
        (ordered codecs.now callers.now (option_map (λ v. items_view v.now) items.entry)) }
{
    match items {
        None => Ok(None),
        Some(items) => {
            let order = read_order(alloc, codecs, callers, items)?;
            Ok(Some(List::of(order)))
        }
    }
}

/// What a script's value holds, or its first fault.
#[tactic(auto, unfolding(crate::specs::Walk::walk_of))]
pub fn read_value(alloc: Global, value: &Value<'_>) -> Result<ScriptData, Stop<Fault>>
    ensures { Gives result (walk_of (view value.now)) }
{
    let parts = read_parts(value)?;
    let codecs = read_codecs(alloc, parts.codecs)?;
    let room = Room {
        steps: limit_of(Counted::Steps),
        media: limit_of(Counted::Media),
    };
    let named = read_named_ports(alloc, parts.ports)?;
    let (callers, (files, left)) = read_callers(alloc, &codecs, &named, room, parts.callers)?;
    let items = read_ordered(alloc, &codecs, &callers, parts.order)?;
    let ports = read_ports_at(alloc, &codecs, &callers, has(value, "ports"), parts.ports)?;
    let order = check_order(&callers, items)?;
    Ok(ScriptData {
        codecs: List::of(codecs),
        callers: List::of(callers),
        order,
        ports,
        chunk_files: List::of(files.into_names()),
        inline: limit_of(Counted::Media).saturating_sub(left.media) as u64,
    })
}
