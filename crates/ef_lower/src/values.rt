// Several variables or values at once.
ghost use Rattle.std.specs.Prelude.{◌≡◌, ◌+◌, ◌≤◌, ◌++◌, IfOk, OnOk, map};
ghost use Rattle.ef_core.specs.Fresh.{most_variables, variables_from};
ghost use Rattle.ef_core.specs.Plain as core;
ghost use Rattle.ef_lower.specs.Exports.{held_variables};
ghost use Rattle.ef_meaning.specs.Cases as cases;

use ef_base::NoMemory;
use ef_core::{Bind, CoreExpr, CoreVar, Fresh};
use ef_lowpat::draw;
use std::alloc::Global;

/// The next variables, so many.
pub fn draw_variables(
    alloc: Global,
    fresh: &mut Fresh,
    count: usize,
) -> Result<Vec<CoreVar>, NoMemory>
    requires { fresh.old + count ≤ most_variables }
    ensures drawn { IfOk result (λ vs. fresh.new ≡ fresh.old + count) }
    ensures variables { IfOk result (λ vs. vs.items ≡ variables_from fresh.old count) }
{
    let mut vars = Vec::with_capacity(alloc, count)?;
    for _ in 0..count {
        vars.push(draw(fresh))?;
    }
    Ok(vars)
}

/// These, as one expression: one stands for itself.
#[tactic(auto, using(ef_core::specs::Laws::plain_laws))]
pub fn together(mut values: Vec<CoreExpr>) -> CoreExpr
    ensures { core.plain result ≡ cases.together (map core.plain values.items) }
{
    if values.len() != 1 {
        return CoreExpr::ValueList(values);
    }
    let Some(value) = values.pop() else {
        unreachable!()
    };
    value
}

/// Variables go behind other values.
pub fn push_values(values: &mut Vec<CoreExpr>, vars: &[CoreVar]) -> Result<(), NoMemory>
    ensures { OnOk result (map core.plain values.new.items ≡ map core.plain values.old.items ++ cases.variables vars.now) }
{
    for var in vars {
        values.push(CoreExpr::Var(*var))?;
    }
    Ok(())
}

/// The variables of names go behind other values.
pub fn push_variables(values: &mut Vec<CoreExpr>, binds: &[Bind]) -> Result<(), NoMemory>
    ensures { OnOk result (map core.plain values.new.items ≡ map core.plain values.old.items ++ held_variables binds.now) }
{
    for bind in binds {
        values.push(CoreExpr::Var(bind.var))?;
    }
    Ok(())
}
