// Posts and receives of callers, at the ports that they share.
ghost use Rattle.std.specs.Prelude.{ℕ, ◌≡◌, ◌<◌, ◌≤◌, ◌^◌, IfOk, OnErr, length};
ghost use Rattle.shared_pool.specs.Refs.{IsPoolRef};
ghost use Rattle.codec_desk.specs.Desks.{SitAt};
ghost use Rattle.script_types.specs.declared.steps.Step.TheVariants as step;
ghost use Rattle.script_types.specs.declared.steps.MediaStep.TheVariants as on_media;
ghost use Rattle.media_variables.specs.Held.{AreOf, seen_in};
ghost use Rattle.desk_callers.specs.Acts.{DidAtPorts};
ghost use Rattle.desk_callers.specs.Passes.{ArePasses, KeepParts};

use codec_desk::{Desk, Seats};
use coder_api::Coder;
use media_variables::Variables;
use report_text::StepResult;
use script_types::{ScriptData, Variable, VariableKind};
use shared_port::{PortPass, SharedPort};
use shared_variables::{Parcel, post_at, receive_at};
use std::sync::Wait;
use wc_base::{List, NoMemory, Text, Who};
use wc_chunk::Chunk;

/// A step of a caller at this time that posts what a variable holds into the port with this number, unless that is absent or
/// detached. Where
/// memory is wanted nothing was posted, and the variables are as they were.
pub(crate) fn post_step<C: Coder, R: Wait>(
    rt: &R,
    desk: &Desk<C>,
    seats: &Seats<C>,
    script: &ScriptData,
    media: &[List<Chunk>],
    ports: &[SharedPort<Parcel>],
    passes: &mut Vec<PortPass<Parcel>>,
    who: Who,
    to: u64,
    content: &Variable,
    time: u64,
    results: &[StepResult],
    variables: &mut Variables,
) -> Result<StepResult, NoMemory>
    requires sits { SitAt desk.now seats.now }
    requires passes { ArePasses desk.now.pool ports.now passes.old.items }
    requires port { to < length ports.now }
    requires time { time ≤ 2 ^ 63 }
    requires held { AreOf (IsPoolRef desk.now.pool) variables.old }
    ensures passes { ArePasses desk.now.pool ports.now passes.new.items }
    ensures parts { KeepParts passes.old.items passes.new.items }
    ensures held { AreOf (IsPoolRef desk.now.pool) variables.new }
    ensures did { let vs = seen_in variables.old in let after = seen_in variables.new in
        let x = step.Media (on_media.Post to content.now) in
        let s = script.now in let m = media.now in
        let did = DidAtPorts s m desk.now who x results.now seats.now seats.now vs after in
        IfOk result (did passes.old.items passes.new.items time time) }
    ensures same { OnErr result (seen_in variables.new ≡ seen_in variables.old) }
{
    let port = &ports[to as usize];
    let pass = &mut passes[to as usize];
    post_at(rt, port, pass, who, content.step, time, variables)
}

/// A step of a caller that receives the first medium of the port with this number, if one is left; its time is behind that of the
/// post. Where memory is wanted the
/// variables are as they were.
pub(crate) fn receive_step<C: Coder, R: Wait>(
    rt: &R,
    desk: &Desk<C>,
    seats: &Seats<C>,
    script: &ScriptData,
    media: &[List<Chunk>],
    ports: &[SharedPort<Parcel>],
    passes: &mut Vec<PortPass<Parcel>>,
    who: Who,
    from: u64,
    bind: &Text,
    kind: VariableKind,
    time: &mut u64,
    results: &[StepResult],
    variables: &mut Variables,
) -> Result<StepResult, NoMemory>
    requires sits { SitAt desk.now seats.now }
    requires passes { ArePasses desk.now.pool ports.now passes.old.items }
    requires port { from < length ports.now }
    requires held { AreOf (IsPoolRef desk.now.pool) variables.old }
    ensures passes { ArePasses desk.now.pool ports.now passes.new.items }
    ensures parts { KeepParts passes.old.items passes.new.items }
    ensures held { AreOf (IsPoolRef desk.now.pool) variables.new }
    ensures did { let vs = seen_in variables.old in let after = seen_in variables.new in
        let x = step.Media (on_media.Receive from bind.now kind) in
        let s = script.now in let m = media.now in
        let did = DidAtPorts s m desk.now who x results.now seats.now seats.now vs after in
        IfOk result (did passes.old.items passes.new.items time.old time.new) }
    ensures same { OnErr result (seen_in variables.new ≡ seen_in variables.old) }
{
    let port = &ports[from as usize];
    let pass = &mut passes[from as usize];
    receive_at(rt, port, pass, who, time, variables)
}
