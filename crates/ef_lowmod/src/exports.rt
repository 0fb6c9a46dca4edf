// What a Core module exports.
ghost use Rattle.std.specs.Prelude.{◌≡◌, [], ◌∷◌, ◌++◌, IfOk, OnOk, filter, map};
ghost use Rattle.ef_lowmod.specs.Info.{fname};
ghost use Rattle.ef_lowmod.specs.Exports.{is_other_by};

use crate::info::Fixed;
use ef_base::NoMemory;
use ef_core::FName;
use ef_forms::FunctionName;
use std::alloc::Global;

/// The functions, other than `module_info/0` and `/1`, and then these two.
pub fn exports(
    alloc: Global,
    fixed: Fixed,
    functions: &[FunctionName],
) -> Result<Vec<FName>, NoMemory>
    ensures { IfOk result (λ v. v.items ≡ map (λ f. fname f.name f.arity) (filter (is_other_by fixed) functions.now) ++ (fname fixed.module_info 0 ∷ fname fixed.module_info 1 ∷ [])) }
{
    let mut all = Vec::new(alloc);
    for function in functions {
        push_other(fixed, *function, &mut all)?;
    }
    all.push(FName {
        name: fixed.module_info,
        arity: 0,
    })?;
    all.push(FName {
        name: fixed.module_info,
        arity: 1,
    })?;
    Ok(all)
}

// The function, unless it is one of these two.
fn push_other(fixed: Fixed, function: FunctionName, all: &mut Vec<FName>) -> Result<(), NoMemory>
    ensures { OnOk result (all.new.items ≡ all.old.items ++ map (λ f. fname f.name f.arity) (filter (is_other_by fixed) (function ∷ []))) }
{
    if function.name.index == fixed.module_info.index && function.arity <= 1 {
        return Ok(());
    }
    all.push(FName {
        name: function.name,
        arity: function.arity,
    })?;
    Ok(())
}
