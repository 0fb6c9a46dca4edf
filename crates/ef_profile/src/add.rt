// Faults, one at a time.
ghost use Rattle.std.specs.Prelude.{OnOk};
ghost use Rattle.ef_base.specs.NamedFaults as fault;
ghost use Rattle.ef_profile.specs.Adds.{Adds, where_};
ghost use Rattle.ef_profile.specs.Unbuilt.{too_many};

use ef_base::codes::TOO_MANY_ARGUMENTS;
use ef_base::{Fault, FaultList, NoMemory, Place};
use std::alloc::Global;

// The most parameters or arguments, and the greatest arity of a function that is mentioned.
const MOST_ARGUMENTS: usize = 255;

/// Adds the fault of this code where it is one.
#[tactic(auto, using(crate::proofs::Adding::adds_none, crate::proofs::Adding::adds_one))]
pub fn add_if(
    alloc: Global,
    is_fault: bool,
    place: Place,
    code: u16,
    found: &mut FaultList,
) -> Result<(), NoMemory>
    ensures { OnOk result (Adds (where_ is_fault (fault.plain place code)) found.old found.new) }
{
    if is_fault {
        found.push(Fault::plain(alloc, place, code))?;
    }
    Ok(())
}

/// Adds the fault of more parameters or arguments than there may be.
pub fn add_too_many(
    alloc: Global,
    place: Place,
    count: usize,
    found: &mut FaultList,
) -> Result<(), NoMemory>
    ensures { OnOk result (Adds (too_many place count) found.old found.new) }
{
    add_if(
        alloc,
        count > MOST_ARGUMENTS,
        place,
        TOO_MANY_ARGUMENTS,
        found,
    )
}
