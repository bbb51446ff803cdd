// Variables of a caller at a pass of a port.
ghost use Rattle.std.specs.Prelude.{◌≡◌, ◌<◌, ◌≤◌, ◌^◌, IfOk, OnErr};
ghost use Rattle.shared_pool.specs.Refs.{IsPoolRef};
ghost use Rattle.shared_port.specs.Ports.{IsPassOf, seen};
ghost use Rattle.media_variables.specs.Held.{AreOf};
ghost use Rattle.shared_variables.specs.Ports.{HasPosted, HasReceived};

use crate::parcel::Parcel;
use media_variables::Variables;
use report_text::StepResult;
use shared_port::{PortPass, SharedPort};
use std::sync::Wait;
use wc_base::{NoMemory, Who};

// A time that is not before one, and behind the other.
fn time_behind(time: u64, other: u64) -> u64
    requires { other ≤ 2 ^ 63 }
    ensures { (time ≤ result) × (other < result) }
{
    if other < time { time } else { other + 1 }
}

/// A post of a caller, and its answer: the medium of a variable goes into a port with the step's time, and the variable is detached. An
/// absent variable and a detached medium give the port nothing. Where memory is wanted nothing was posted, and the variables are as they were.
pub fn post_at<R: Wait>(
    rt: &R,
    port: &SharedPort<Parcel>,
    pass: &mut PortPass<Parcel>,
    who: Who,
    variable: u32,
    time: u64,
    variables: &mut Variables,
) -> Result<StepResult, NoMemory>
    requires time { time ≤ 2 ^ 63 }
    requires pass { IsPassOf port.now pass.old }
    requires held { AreOf (IsPoolRef port.now.pool) variables.old }
    ensures pass { IsPassOf port.now pass.new }
    ensures parts { (seen pass.new).parts ≡ (seen pass.old).parts }
    ensures posted { let knew = seen pass.old in let knows = seen pass.new in
        IfOk result (HasPosted who variable time variables.old variables.new knew knows) }
    ensures held { AreOf (IsPoolRef port.now.pool) variables.new }
    ensures same { OnErr result (variables.new ≡ variables.old) }
    ensures kept { OnErr result (seen pass.new ≡ seen pass.old) }
{
    let given = variables.post(variable);
    let (answer, medium) = given;
    let Some(medium) = medium else {
        return Ok(answer);
    };
    match port.post(rt, pass, who, Parcel { medium, time }) {
        Ok(()) => Ok(answer),
        Err(parcel) => {
            variables.put_back(variable, parcel.medium);
            Err(NoMemory)
        }
    }
}

/// A receive of a caller, and its answer: the first medium of a port goes into the step's variable, if one was left, and the step's time is
/// behind that of its post. Where memory is wanted the variables are as they were. Room for the variable is made before anything is
/// received.
pub fn receive_at<R: Wait>(
    rt: &R,
    port: &SharedPort<Parcel>,
    pass: &mut PortPass<Parcel>,
    who: Who,
    time: &mut u64,
    variables: &mut Variables,
) -> Result<StepResult, NoMemory>
    requires pass { IsPassOf port.now pass.old }
    requires held { AreOf (IsPoolRef port.now.pool) variables.old }
    ensures pass { IsPassOf port.now pass.new }
    ensures parts { (seen pass.new).parts ≡ (seen pass.old).parts }
    ensures received { let knew = seen pass.old in let knows = seen pass.new in
        let received = HasReceived who variables.old variables.new knew knows in
        IfOk result (received time.old time.new) }
    ensures held { AreOf (IsPoolRef port.now.pool) variables.new }
    ensures same { OnErr result (variables.new ≡ variables.old) }
{
    variables.make_room(who.step)?;
    let received = port.receive(rt, pass);
    match received {
        Some(posted) => {
            let (poster, parcel) = posted;
            *time = time_behind(*time, parcel.time);
            variables.receive(who, poster, parcel.medium)
        }
        None => Ok(StepResult::Nothing),
    }
}
