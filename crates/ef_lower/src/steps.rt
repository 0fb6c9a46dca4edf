// Let steps: what is evaluated before, in order.
ghost use Rattle.std.specs.Prelude.{◌≡◌, ◌<◌, IfOk, map};
ghost use Rattle.ef_core.specs.Fresh.{most_variables};
ghost use Rattle.ef_core.specs.Plain.{plain, plain_step};
ghost use Rattle.ef_core.specs.Tree.{var};
ghost use Rattle.ef_lower.specs.Lowers.{Finishes, Puts, StandsFor};

use ef_base::NoMemory;
use ef_core::{CoreExpr, CoreVar, Fresh, LetStep, is_simple};
use ef_lowpat::draw;
use std::alloc::Global;

/// One more step, for a variable of its own.
pub fn put(
    alloc: Global,
    fresh: &mut Fresh,
    steps: &mut Vec<LetStep>,
    value: CoreExpr,
) -> Result<CoreVar, NoMemory>
    requires { fresh.old < most_variables }
    ensures { IfOk result (λ v. Puts (plain value) fresh.old (map plain_step steps.old.items) fresh.new (map plain_step steps.new.items) v) }
{
    let var = draw(fresh);
    let mut vars = Vec::new(alloc);
    vars.push(var)?;
    steps.push(LetStep { vars, value })?;
    Ok(var)
}

/// The value as an argument: itself where it is a variable or a literal, else a variable that one more step sets.
#[tactic(auto, using(ef_core::specs::Laws::plain_laws))]
pub fn hold(
    alloc: Global,
    fresh: &mut Fresh,
    steps: &mut Vec<LetStep>,
    value: CoreExpr,
) -> Result<CoreExpr, NoMemory>
    requires { fresh.old < most_variables }
    ensures { IfOk result (λ v. StandsFor (plain value) fresh.old (map plain_step steps.old.items) fresh.new (map plain_step steps.new.items) (plain v)) }
{
    if is_simple(&value) {
        return Ok(value);
    }
    let var = put(alloc, fresh, steps, value)?;
    Ok(CoreExpr::Var(var))
}

/// The value in a variable: the one that it is, or one that one more step sets.
#[tactic(auto, using(ef_core::specs::Laws::plain_laws))]
pub fn in_variable(
    alloc: Global,
    fresh: &mut Fresh,
    steps: &mut Vec<LetStep>,
    value: CoreExpr,
) -> Result<CoreVar, NoMemory>
    requires { fresh.old < most_variables }
    ensures { IfOk result (λ v. StandsFor (plain value) fresh.old (map plain_step steps.old.items) fresh.new (map plain_step steps.new.items) (var v)) }
{
    match value {
        CoreExpr::Var(var) => Ok(var),
        other => Ok(put(alloc, fresh, steps, other)?),
    }
}

/// The value behind the steps: without steps, itself.
#[tactic(auto, using(ef_core::specs::Laws::plain_laws))]
pub fn finish(alloc: Global, steps: Vec<LetStep>, value: CoreExpr) -> Result<CoreExpr, NoMemory>
    ensures { IfOk result (λ v. Finishes (map plain_step steps.items) (plain value) (plain v)) }
{
    if steps.is_empty() {
        return Ok(value);
    }
    let body = Box::new(alloc, value)?;
    Ok(CoreExpr::Lets { steps, body })
}
