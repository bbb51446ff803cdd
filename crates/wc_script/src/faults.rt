// Faults with their places.
ghost use Rattle.std.specs.Prelude.{◌≡◌};
ghost use Rattle.wc_script.specs.Faults as spec;

use script_types::{Fault, Place, Stop, Wrong};

/// What is wrong at a place.
pub fn fault_at(place: Place, stop: Stop<Wrong>) -> Stop<Fault>
    ensures { result ≡ spec.fault_at place stop }
{
    match stop {
        Stop::Fault(wrong) => Stop::Fault(Fault::At { place, wrong }),
        Stop::NoMemory => Stop::NoMemory,
    }
}
