// Tables from names to places.
ghost use Rattle.std.specs.Prelude.{◌≡◌, List, ℕ, OnOk, OnErr, Some, bytes_eq};
ghost use Rattle.std.specs.BTreeMap.{get_by_text};
ghost use Rattle.std.specs.Map.{update};
ghost use Rattle.script_steps.specs.Places.{IsTable};

use std::alloc::Global;
use std::collections::BTreeMap;
use wc_base::NoMemory;

// The place of this name.
pub fn place_of(places: &BTreeMap<String, usize>, name: &str) -> Option<usize>
    ensures { result ≡ get_by_text places.now name.now }
{
    places.get(name).copied()
}

#[tactic(auto, using(crate::proofs::PlaceLaws::put_table))]
// Puts the name into the table. Want of memory leaves the table as it was.
pub fn put(
    alloc: Global,
    places: &mut BTreeMap<String, usize>,
    name: &str,
    place: usize,
) -> Result<(), NoMemory>
    ensures ok { OnOk result
        (IsTable places.new (update bytes_eq (get_by_text places.old) name.now (Some place))) }
    ensures err { OnErr result (IsTable places.new (get_by_text places.old)) }
{
    let Ok(name) = String::from_str(alloc, name) else {
        return Err(NoMemory);
    };
    match places.insert(name, place) {
        Ok(_) => Ok(()),
        Err(_) => Err(NoMemory),
    }
}
