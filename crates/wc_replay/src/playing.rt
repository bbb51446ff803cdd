// Replays a script.
ghost use Rattle.std.specs.Prelude.{◌≡◌, ◌≤◌, IfOk, OnOk, IsSome, None, map, length, true};
ghost use Rattle.std.specs.List.{list_all};
ghost use Rattle.run_model.specs.Fits.{IsLegalRun, FitsInOrder, recorded_of};
ghost use Rattle.run_model.specs.Follow.{Follows, nothing_yet, order_items, record_of};
ghost use Rattle.order_laws.specs.Ends.{course_with};
ghost use Rattle.run_model.specs.Recorded.{none_received, opening_of};
ghost use Rattle.run_model.specs.Missing.{missing_in};
ghost use Rattle.wc_replay.specs.Player.{IsPlayable, is_openable, new_desk, new_results, trace_of, caller_trace, IsRunOf, IsPlayed};

use crate::desk::Desk;
use crate::ports::open_ports;
use crate::results::Results;
use crate::steps::Player;
use codec_model::Opening;
use coder_api::Coder;
use media_variables::CallerMedia;
use order_laws::{following_fits, following_stands};
use run_model::{CallerTrace, CodecTrace, Run};
use script_types::{CallerItem, CodecItem, OrderItem, Script, ScriptData};
use slot_registry::Slots;
use std::alloc::Global;
use wc_base::{List, NoMemory, try_push};
use wc_chunk::Chunk;

fn opening_of(codec: &CodecItem) -> Opening
    ensures { result ≡ opening_of codec.now }
{
    Opening {
        kind: codec.kind,
        saturation: codec.saturation,
    }
}

/// A codec of the script, with an empty history.
fn open_desk<C: Coder>(alloc: Global, codec: &CodecItem) -> Result<Desk<C>, NoMemory>
    requires { is_openable codec.now ≡ true }
    ensures { IfOk result (λ d. d ≡ new_desk codec.now) }
{
    Desk::open(alloc, opening_of(codec))
}

/// The codecs of a script, each with an empty history.
fn open_desks<C: Coder>(alloc: Global, codecs: &[CodecItem]) -> Result<Vec<Desk<C>>, NoMemory>
    requires { list_all is_openable codecs.now ≡ true }
    ensures { IfOk result (λ desks. desks.items ≡ map new_desk codecs.now) }
{
    let mut desks = Vec::new(alloc);
    for codec in codecs {
        let desk = open_desk(alloc, codec)?;
        try_push(&mut desks, desk)?;
    }
    Ok(desks)
}

/// The callers of a script, none of whose steps is made.
fn open_callers(alloc: Global, callers: &[CallerItem]) -> Result<Vec<Results>, NoMemory>
    ensures { IfOk result (λ results. results.items ≡ map new_results callers.now) }
{
    let results = callers.iter().map(|_| Results::new(alloc));
    Ok(results.collect(alloc)?)
}

/// The items of the script's order; none where there is no order.
fn items_of(script: &ScriptData) -> &[OrderItem]
    ensures { result.now ≡ order_items script.now }
{
    match &script.order {
        Some(items) => items.as_slice(),
        None => &[],
    }
}

/// Takes the items of the order, one after another.
fn take_items<C: Coder>(
    player: &mut Player<C>,
    alloc: Global,
    script: &ScriptData,
    media: &[List<Chunk>],
) -> Result<(), NoMemory>
    requires playable { IsPlayable script.now }
    requires nothing { player.old ≡ nothing_yet script.now player.old.slots.made }
    ensures { OnOk result
        (Follows script.now media.now (order_items script.now) player.old player.new) }
{
    for item in items_of(script) {
        following_stands();
        player.take(alloc, script, media, *item, false)?;
    }
    Ok(())
}

/// Takes the items of the order, one after another, where the listed ends want memory. Where another one does, memory is
/// wanted of the call.
fn take_items_with<C: Coder>(
    player: &mut Player<C>,
    alloc: Global,
    script: &ScriptData,
    media: &[List<Chunk>],
    listed: &[(u32, u64)],
) -> Result<(), NoMemory>
    requires playable { IsPlayable script.now }
    requires nothing { player.old ≡ nothing_yet script.now player.old.slots.made }
    ensures { OnOk result
        (player.new
        ≡ course_with listed.now script.now media.now (order_items script.now) player.old) }
{
    for item in items_of(script) {
        following_stands();
        let starved = player.is_listed_end(listed, *item);
        if player.take(alloc, script, media, *item, starved)? != starved {
            return Err(NoMemory);
        }
    }
    Ok(())
}

fn codec_trace<C: Coder>(alloc: Global, desk: Desk<C>) -> Result<CodecTrace, NoMemory>
    ensures { IfOk result (λ t. t ≡ trace_of desk) }
{
    let opening = desk.opening();
    let (entries, shown) = desk.into_trace(alloc)?;
    Ok(CodecTrace {
        opening,
        entries,
        shown,
    })
}

/// What was recorded of the codecs.
fn codec_traces<C: Coder>(alloc: Global, desks: Vec<Desk<C>>) -> Result<Vec<CodecTrace>, NoMemory>
    ensures { IfOk result (λ traces. traces.items ≡ map trace_of desks.items) }
{
    let mut traces = Vec::new(alloc);
    for desk in desks {
        let trace = codec_trace(alloc, desk)?;
        try_push(&mut traces, trace)?;
    }
    Ok(traces)
}

/// What was recorded of the callers.
fn caller_traces(alloc: Global, callers: Vec<Results>) -> Result<Vec<CallerTrace>, NoMemory>
    ensures { IfOk result (λ traces. traces.items ≡ map caller_trace callers.items) }
{
    let traces = callers.into_iter().map(|results| CallerTrace {
        results: List::of(results.into_steps()),
    });
    Ok(traces.collect(alloc)?)
}

/// A replay of a script that has nothing recorded yet.
fn open_player<C: Coder>(
    alloc: Global,
    script: &ScriptData,
    coders: Vec<C>,
) -> Result<Player<C>, NoMemory>
    requires { list_all is_openable script.now.codecs ≡ true }
    ensures { IfOk result (λ p. p ≡ nothing_yet script.now (map C.coder coders.items)) }
{
    Ok(Player {
        desks: open_desks(alloc, script.codecs.as_slice())?,
        callers: open_callers(alloc, script.callers.as_slice())?,
        media: CallerMedia::open(alloc, script.callers.as_slice())?,
        slots: Slots::open(alloc, coders)?,
        ports: open_ports(alloc, script.ports.as_slice())?,
    })
}

/// What a replay recorded.
fn run_of<C: Coder>(alloc: Global, player: Player<C>) -> Result<Run, NoMemory>
    ensures { IfOk result (IsRunOf player) }
{
    let Player {
        desks,
        callers,
        media,
        slots,
        ports: _,
    } = player;
    let held = media.held();
    Ok(Run {
        callers: List::of(caller_traces(alloc, callers)?),
        codecs: List::of(codec_traces(alloc, desks)?),
        pool: List::of(media.into_entries()),
        slots: List::of(slots.into_entries()),
        held,
    })
}

/// Follows the script's order item after item.
fn play<C: Coder>(
    alloc: Global,
    script: &ScriptData,
    media: &[List<Chunk>],
    coders: Vec<C>,
) -> Result<Run, NoMemory>
    requires codecs { list_all is_openable script.now.codecs ≡ true }
    requires playable { IsPlayable script.now }
    ensures { IfOk result (IsPlayed script.now media.now (map C.coder coders.items)) }
{
    let mut player = open_player(alloc, script, coders)?;
    take_items(&mut player, alloc, script, media)?;
    run_of(alloc, player)
}

/// Follows the script's order item after item, where the listed ends want memory.
fn play_with<C: Coder>(
    alloc: Global,
    script: &ScriptData,
    media: &[List<Chunk>],
    coders: Vec<C>,
    listed: &[(u32, u64)],
) -> Result<Run, NoMemory>
    requires codecs { list_all is_openable script.now.codecs ≡ true }
    requires playable { IsPlayable script.now }
    ensures { IfOk result
        (IsRunOf (course_with listed.now script.now media.now (order_items script.now)
        (nothing_yet script.now (map C.coder coders.items)))) }
{
    let mut player = open_player(alloc, script, coders)?;
    take_items_with(&mut player, alloc, script, media, listed)?;
    run_of(alloc, player)
}

/// Follows the script's order item after item, with these coders for its codecs: each item is a caller's next step, the
/// start or end of a work item, the turn of an event task, or a reclaim; one that finds nothing to do is passed over. The
/// answer is a legal run that fits the script.
///
/// The script has an order. `media` has the chunks of each of the script's chunk files, in their order, and each chunk that a
/// step takes is there.
pub fn replay<C: Coder>(
    alloc: Global,
    script: &Script,
    media: &[List<Chunk>],
    coders: Vec<C>,
) -> Result<Run, NoMemory>
    requires order { IsSome script.now.order }
    requires files { length media.now ≡ length script.now.chunk_files }
    requires chunks { missing_in script.now media.now ≡ None }
    ensures legal { IfOk result (λ run. IsLegalRun script.now run) }
    ensures fits { IfOk result (λ run. FitsInOrder script.now media.now (map C.coder coders.items) run) }
{
    following_fits();
    following_stands();
    play(alloc, script.data(), media, coders)
}

/// A replay in which it is said which ends say that memory was wanted: as `replay`, but the end of an item says so exactly
/// where its entry is listed, by its codec's number and its place in that codec's history. Listed entries that are not made,
/// or are no ends, change nothing. The run is a function of the script, its chunk files, the coders' ids and the list.
///
/// Where an item wants memory whose end is not listed, memory is wanted of the call.
pub fn replay_with<C: Coder>(
    alloc: Global,
    script: &Script,
    media: &[List<Chunk>],
    coders: Vec<C>,
    listed: &[(u32, u64)],
) -> Result<Run, NoMemory>
    requires order { IsSome script.now.order }
    requires files { length media.now ≡ length script.now.chunk_files }
    requires chunks { missing_in script.now media.now ≡ None }
    ensures legal { IfOk result (λ run. IsLegalRun script.now run) }
    ensures fits { IfOk result (λ run. FitsInOrder script.now media.now (map C.coder coders.items) run) }
    ensures made { IfOk result
        (λ run. recorded_of none_received run
        ≡ record_of none_received (course_with listed.now script.now media.now (order_items script.now)
        (nothing_yet script.now (map C.coder coders.items)))) }
{
    following_fits();
    following_stands();
    play_with(alloc, script.data(), media, coders, listed)
}
