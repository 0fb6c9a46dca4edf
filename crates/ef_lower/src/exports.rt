// The values of names, beside another value.
ghost use Rattle.std.specs.Prelude.{◌≡◌, ◌<◌, IfOk, drop, map};
ghost use Rattle.ef_core.specs.Env.{NamesDiffer};
ghost use Rattle.ef_core.specs.Fresh.{most_variables};
ghost use Rattle.ef_core.specs.Plain.{plain, plain_step};
ghost use Rattle.ef_lower.specs.Exports.{GivesNames, StandsBeside};
ghost use Rattle.ef_meaning.specs.Cases as cases;

use crate::steps::{finish, hold};
use crate::values::{push_variables, together};
use ef_base::{Name, NoMemory};
use ef_core::{Bind, CoreExpr, Env, Fresh, LetStep};
use std::alloc::Global;

/// A Core expression, whose values are the value of a source expression and then those of the names that it exports.
#[derive(Drop)]
pub struct LoweredExpr {
    pub core: CoreExpr,
    pub exports: Vec<Name>,
}

/// The steps, then the value and those of the names that were bound from a place on.
pub fn with_names(
    alloc: Global,
    env: &Env,
    start: usize,
    fresh: &mut Fresh,
    steps: Vec<LetStep>,
    value: CoreExpr,
) -> Result<LoweredExpr, NoMemory>
    requires { fresh.old < most_variables }
    ensures gives { IfOk result (λ r. GivesNames (plain value) fresh.old (map plain_step steps.items) (drop start env.now) fresh.new (plain r.core)) }
    ensures named { IfOk result (λ r. r.exports.items ≡ cases.names_of (drop start env.now)) }
    ensures differ { IfOk result (λ r. NamesDiffer env.now) }
{
    match named_from(alloc, env, start) {
        Ok((binds, exports)) => {
            let core = giving(alloc, &binds, fresh, steps, value)?;
            Ok(LoweredExpr { core, exports })
        }
        Err(error) => {
            // By a call: dropped in place, each variant of each part would be a step of its own in the proof.
            drop(value);
            Err(error)
        }
    }
}

// What is bound from a place on, and the names alone.
fn named_from(alloc: Global, env: &Env, start: usize) -> Result<(Vec<Bind>, Vec<Name>), NoMemory>
    ensures binds { IfOk result (λ r. r.0.items ≡ drop start env.now) }
    ensures named { IfOk result (λ r. r.1.items ≡ cases.names_of (drop start env.now)) }
    ensures differ { IfOk result (λ r. NamesDiffer env.now) }
{
    let binds = env.binds_from(alloc, start)?;
    let names = names_of(alloc, &binds)?;
    Ok((binds, names))
}

/// The steps, then the value and those of these names.
pub fn giving(
    alloc: Global,
    binds: &[Bind],
    fresh: &mut Fresh,
    mut steps: Vec<LetStep>,
    value: CoreExpr,
) -> Result<CoreExpr, NoMemory>
    requires { fresh.old < most_variables }
    ensures { IfOk result (λ e. GivesNames (plain value) fresh.old (map plain_step steps.items) binds.now fresh.new (plain e)) }
{
    let first = beside(alloc, binds, fresh, &mut steps, value)?;
    let mut values = vec![in alloc; first]?;
    push_variables(&mut values, binds)?;
    Ok(finish(alloc, steps, together(values))?)
}

// The value, which is held where the values of names are given beside it.
fn beside(
    alloc: Global,
    binds: &[Bind],
    fresh: &mut Fresh,
    steps: &mut Vec<LetStep>,
    value: CoreExpr,
) -> Result<CoreExpr, NoMemory>
    requires { fresh.old < most_variables }
    ensures { IfOk result (λ v. StandsBeside binds.now (plain value) fresh.old (map plain_step steps.old.items) fresh.new (map plain_step steps.new.items) (plain v)) }
{
    if binds.is_empty() {
        return Ok(value);
    }
    Ok(hold(alloc, fresh, steps, value)?)
}

fn names_of(alloc: Global, binds: &[Bind]) -> Result<Vec<Name>, NoMemory>
    ensures { IfOk result (λ v. v.items ≡ cases.names_of binds.now) }
{
    let names = binds.iter().map(|bind| bind.name);
    Ok(names.collect(alloc)?)
}
