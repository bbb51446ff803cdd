// Reads the order.
ghost use Rattle.std.specs.Prelude.{◌≡◌, ◌≢◌, ◌≤◌, [], IfOk, IfErr, Some, None, Option, length, codes};
ghost use Rattle.json_data.specs.View.{view, items_view};
ghost use Rattle.wc_script.specs.Faults as faults;
ghost use Rattle.wc_script.specs.Order.{order_word_of, codec_in, codec_at, order_by, order_item_of, order_of};
ghost use Rattle.script_types.specs.Reading.{GivesAs};

use crate::faults::fault_at;
use json_data::{Value, as_text};
use script_steps::{as_name, find_caller, find_codec, has, name_member, natural_member};
use script_types::{CallerItem, CodecItem, Fault, OrderItem, Place, Stop, Wrong};
use std::alloc::Global;

/// What an order item does to a codec.
#[derive(Clone, Copy, Debug, PartialEq, Eq)]
pub enum OrderWord {
    Start,
    Done,
    Turn,
    Reclaim,
}

// Just one of the four words is a member.
fn order_word(value: &Value<'_>) -> Option<OrderWord>
    ensures { result ≡ order_word_of (view value.now) }
{
    let words = (
        has(value, "start"),
        has(value, "done"),
        has(value, "turn"),
        has(value, "reclaim"),
    );
    match words {
        (true, false, false, false) => Some(OrderWord::Start),
        (false, true, false, false) => Some(OrderWord::Done),
        (false, false, true, false) => Some(OrderWord::Turn),
        (false, false, false, true) => Some(OrderWord::Reclaim),
        _ => None,
    }
}

// The codec that an item names.
fn read_codec_in(codecs: &[CodecItem], value: &Value<'_>, key: &str) -> Result<u32, Stop<Wrong>>
    requires { length codecs.now ≤ 64 }
    ensures { result ≡ codec_in key.now codecs.now (view value.now) }
{
    let name = name_member(value, key)?;
    match find_codec(codecs, name) {
        Some(codec) => Ok(codec.number),
        None => Err(Stop::Fault(Wrong::UnknownName)),
    }
}

// The codec that an item names, and the moment, in microseconds.
fn read_codec_at(
    codecs: &[CodecItem],
    value: &Value<'_>,
    key: &str,
) -> Result<(u32, u64), Stop<Wrong>>
    requires { length codecs.now ≤ 64 }
    ensures { result ≡ codec_at key.now codecs.now (view value.now) }
{
    let name = name_member(value, key)?;
    let at = natural_member(value, "at").ok_or(Stop::Fault(Wrong::Shape))?;
    match find_codec(codecs, name) {
        Some(codec) => Ok((codec.number, at)),
        None => Err(Stop::Fault(Wrong::UnknownName)),
    }
}

// What is done to a codec.
fn read_codec_item(
    codecs: &[CodecItem],
    value: &Value<'_>,
    word: OrderWord,
) -> Result<OrderItem, Stop<Wrong>>
    requires { length codecs.now ≤ 64 }
    ensures { result ≡ order_by codecs.now (view value.now) word }
{
    match word {
        OrderWord::Start => Ok(OrderItem::Start(read_codec_in(codecs, value, "start")?)),
        OrderWord::Done => {
            let (codec, at) = read_codec_at(codecs, value, "done")?;
            Ok(OrderItem::Done { codec, at })
        }
        OrderWord::Turn => Ok(OrderItem::Turn(read_codec_in(codecs, value, "turn")?)),
        OrderWord::Reclaim => {
            let (codec, at) = read_codec_at(codecs, value, "reclaim")?;
            Ok(OrderItem::Reclaim { codec, at })
        }
    }
}

#[tactic(auto, unfolding(crate::specs::Order::order_item_of))]
fn read_order_item(
    codecs: &[CodecItem],
    callers: &[CallerItem],
    value: &Value<'_>,
) -> Result<OrderItem, Stop<Wrong>>
    requires codecs { length codecs.now ≤ 64 }
    requires callers { length callers.now ≤ 16 }
    ensures { result ≡ order_item_of codecs.now callers.now (view value.now) }
{
    let Some(text) = as_text(value) else {
        let word = order_word(value).ok_or(Stop::Fault(Wrong::Shape))?;
        return read_codec_item(codecs, value, word);
    };
    let name = as_name(text).ok_or(Stop::Fault(Wrong::Shape))?;
    match find_caller(callers, name) {
        Some(caller) => Ok(OrderItem::Caller(caller)),
        None => Err(Stop::Fault(Wrong::UnknownName)),
    }
}

fn read_order_item_at(
    codecs: &[CodecItem],
    callers: &[CallerItem],
    i: u32,
    value: &Value<'_>,
) -> Result<OrderItem, Stop<Fault>>
    requires codecs { length codecs.now ≤ 64 }
    requires callers { length callers.now ≤ 16 }
    ensures { result
        ≡ faults.at (Place.Order i) (order_item_of codecs.now callers.now (view value.now)) }
{
    match read_order_item(codecs, callers, value) {
        Ok(item) => Ok(item),
        Err(stop) => Err(fault_at(Place::Order(i), stop)),
    }
}

/// The items of the order.
pub fn read_order(
    alloc: Global,
    codecs: &[CodecItem],
    callers: &[CallerItem],
    items: &[Value<'_>],
) -> Result<Vec<OrderItem>, Stop<Fault>>
    requires codecs { length codecs.now ≤ 64 }
    requires callers { length callers.now ≤ 16 }
    requires order { length items.now ≤ 1000000 }
    ensures { GivesAs
        (λ v. v.items) result (order_of codecs.now callers.now 0 [] (items_view items.now)) }
{
    let mut order = Vec::new(alloc);
    for (i, value) in items.iter().enumerate() {
        let item = read_order_item_at(codecs, callers, i as u32, value)?;
        if order.push(item).is_err() {
            return Err(Stop::NoMemory);
        }
    }
    Ok(order)
}
