// Files that are refused as a whole.
ghost use Rattle.std.specs.Prelude.{◌≡◌, [], ◌∷◌, IfOk, None};
ghost use Rattle.ef_base.specs.NamedFaults as fault;
ghost use Rattle.ef_front.specs.Input.{HasFaultsAt};

use ef_base::{Bytes, Fault, FaultList, NoMemory};
use std::alloc::Global;

/// The faults of a file that is not there.
pub fn absent(alloc: Global, path: &Bytes) -> Result<FaultList, NoMemory>
    ensures { IfOk result (λ faults. HasFaultsAt path.now None faults) }
{
    let mut faults = FaultList::new(alloc);
    faults.push(Fault::no_file(alloc, path.as_slice())?)?;
    faults.push(Fault::no_module(alloc))?;
    Ok(faults)
}

/// The faults of a file past the limit.
pub fn too_large(alloc: Global) -> Result<FaultList, NoMemory>
    ensures { IfOk result (λ faults. faults ≡ fault.no_module ∷ fault.file_too_large ∷ []) }
{
    let mut faults = FaultList::new(alloc);
    faults.push(Fault::file_too_large(alloc))?;
    faults.push(Fault::no_module(alloc))?;
    Ok(faults)
}

/// The one fault of what is not built.
pub fn not_built(alloc: Global) -> Result<FaultList, NoMemory>
    ensures { IfOk result (λ faults. faults ≡ fault.not_built ∷ []) }
{
    let mut faults = FaultList::new(alloc);
    faults.push(Fault::not_built(alloc))?;
    Ok(faults)
}
