// Clauses whose bodies are lowered, before it is known which names they export.
ghost use Rattle.std.specs.Prelude.{◌≡◌, ◌<◌, IfOk, is_some, map};
ghost use Rattle.std.specs.List.{filter};
ghost use Rattle.ef_core.specs.Env.{held};
ghost use Rattle.ef_core.specs.Everywhere.{Each};
ghost use Rattle.ef_core.specs.Fresh.{most_variables};
ghost use Rattle.ef_core.specs.Plain.{plain_clause};
ghost use Rattle.ef_lower.specs.Arms.{BindsAll, FinishesAll, FinishesArm, plain_arm, shared};
ghost use Rattle.ef_meaning.specs.Cases as cases;
ghost use Rattle.ef_meaning.specs.Cases.{AreHeld};

use crate::exports::giving;
use crate::front::Front;
use ef_base::NoMemory;
use ef_core::{Bind, CoreClause, CoreExpr, Env, Fresh, LetStep};
use std::alloc::Global;

/// A clause: its front, the steps of its body, the value behind them, the names that it binds, and what draws further
/// variables for it.
#[derive(Drop)]
pub struct Arm {
    pub front: Front,
    pub steps: Vec<LetStep>,
    pub value: CoreExpr,
    pub binds: Env,
    pub fresh: Fresh,
}

/// The names that all arms bind, in the order of the first.
pub fn shared_names(alloc: Global, arms: &[Arm]) -> Result<Vec<Bind>, NoMemory>
    ensures { IfOk result (λ bs. bs.items ≡ shared (map plain_arm arms.now)) }
{
    let [first, others @ ..] = arms else {
        return Ok(Vec::new(alloc));
    };
    let mut binds = first.binds.binds_from(alloc, 0)?;
    for arm in others {
        keep_bound(&mut binds, &arm.binds);
    }
    Ok(binds)
}

// Those are left that the environment binds too.
fn keep_bound(binds: &mut Vec<Bind>, env: &Env)
    ensures { binds.new.items ≡ filter (λ b. is_some (held env.now b.name)) binds.old.items }
{
    binds.retain(|bind| env.var_of(bind.name).is_some());
}

/// The arms as clauses, whose bodies give the values of these names beside their own.
pub fn finish_arms(
    alloc: Global,
    binds: &[Bind],
    arms: Vec<Arm>,
) -> Result<Vec<CoreClause>, NoMemory>
    requires bound { Each (λ a. BindsAll (plain_arm a).binds binds.now) arms.items }
    requires enough { Each (λ a. (plain_arm a).drawn < most_variables) arms.items }
    ensures { IfOk result (λ cs. FinishesAll binds.now (map plain_arm arms.items) (map plain_clause cs.items)) }
{
    let mut clauses = Vec::with_capacity(alloc, arms.len())?;
    for arm in arms {
        clauses.push(finish_arm(alloc, binds, arm)?)?;
    }
    Ok(clauses)
}

fn finish_arm(alloc: Global, binds: &[Bind], arm: Arm) -> Result<CoreClause, NoMemory>
    requires bound { BindsAll (plain_arm arm).binds binds.now }
    requires enough { (plain_arm arm).drawn < most_variables }
    ensures { IfOk result (λ c. FinishesArm binds.now (plain_arm arm) (plain_clause c)) }
{
    let own = match own_variables(alloc, binds, &arm.binds) {
        Ok(own) => own,
        Err(error) => {
            // By a call: dropped in place, each variant of each part would be a step of its own in the proof.
            drop(arm);
            return Err(error);
        }
    };
    let Arm {
        front,
        steps,
        value,
        mut fresh,
        ..
    } = arm;
    match giving(alloc, &own, &mut fresh, steps, value) {
        Ok(body) => {
            let Front { pats, guard } = front;
            Ok(CoreClause { pats, guard, body })
        }
        Err(error) => {
            drop(front);
            Err(error)
        }
    }
}

// The same names, with their variables in the environment.
fn own_variables(alloc: Global, binds: &[Bind], env: &Env) -> Result<Vec<Bind>, NoMemory>
    requires { BindsAll env.now binds.now }
    ensures named { IfOk result (λ bs. cases.names_of bs.items ≡ cases.names_of binds.now) }
    ensures held { IfOk result (λ bs. AreHeld env.now bs.items) }
{
    let mut own = Vec::with_capacity(alloc, binds.len())?;
    for bind in binds {
        let Some(var) = env.var_of(bind.name) else {
            unreachable!()
        };
        own.push(Bind {
            name: bind.name,
            var,
        })?;
    }
    Ok(own)
}
