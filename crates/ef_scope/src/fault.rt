// Faults of names.
ghost use Rattle.std.specs.Prelude.{◌∷◌, [], List, OnOk};
ghost use Rattle.ef_base.specs.NamedFaults as fault;
ghost use Rattle.ef_base.specs.Texts.{HasName};
ghost use Rattle.ef_forms.specs.Ways.{NameSet, use_faults};
ghost use Rattle.ef_scope.specs.Walks.{Adds, Shows};

use crate::marks::Mark;
use crate::state::State;
use ef_base::{Fault, FaultList, Name, Names, NoMemory, Place};
use std::alloc::Global;

/// The fault of a use of a name that is bound on no way.
pub fn add_unbound(
    alloc: Global,
    place: Place,
    name: &str,
    found: &mut FaultList,
) -> Result<(), NoMemory>
    ensures { OnOk result (Adds (fault.unbound place name.now ∷ []) found.old found.new) }
{
    found.push(Fault::unbound(alloc, place, name)?)?;
    Ok(())
}

/// The fault of a use of a name that is bound on some ways and not on all.
pub fn add_unsafe(
    alloc: Global,
    place: Place,
    name: &str,
    found: &mut FaultList,
) -> Result<(), NoMemory>
    ensures { OnOk result (Adds (fault.unsafe place name.now ∷ []) found.old found.new) }
{
    found.push(Fault::unsafe_use(alloc, place, name)?)?;
    Ok(())
}

/// The fault of a use of a name.
pub fn check_use(
    alloc: Global,
    names: &Names,
    place: Place,
    name: Name,
    state: &State,
    found: &mut FaultList,
) -> Result<(), NoMemory>
    requires { HasName names.now name }
    ensures { OnOk result ((sets : List NameSet) → Shows sets state.now → Adds (use_faults names.now place name sets) found.old found.new) }
{
    match state.marks.get(name.index) {
        Mark::Unbound => add_unbound(alloc, place, names.text(name), found),
        Mark::Unsafe => add_unsafe(alloc, place, names.text(name), found),
        Mark::Safe => Ok(()),
    }
}
