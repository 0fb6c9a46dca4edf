// Cases: they stand for themselves, or a step's variables hold the value and the names that every clause binds.
ghost use Rattle.std.specs.Prelude.{◌≤◌, ◌<◌, ◌≡◌, ◌+◌, ◌++◌, ◌∷◌, IfOk, None, length, map};
ghost use Rattle.ef_core.specs.Everywhere.{Each};
ghost use Rattle.ef_core.specs.Env.{NamesDiffer, held};
ghost use Rattle.ef_core.specs.Fresh.{most_variables};
ghost use Rattle.ef_core.specs.Plain as core;
ghost use Rattle.ef_core.specs.Plain.{plain_step};
ghost use Rattle.ef_core.specs.Tree as c;
ghost use Rattle.ef_core.specs.Tree.{CoreTree};
ghost use Rattle.ef_lowpat.specs.Guards.{HoldsWords};
ghost use Rattle.ef_lower.specs.Arms.{ArmsCanEnd, IsCaseOf, LeavesNames, MakesCase, PutsNamed, plain_arm, shared};
ghost use Rattle.ef_lower.specs.Ready.{lower_words};
ghost use Rattle.ef_meaning.specs.Cases.{names_of};
ghost use Rattle.ef_meaning.specs.Lowers.{env_from, params_from};

use crate::arms::{Arm, finish_arms, shared_names};
use crate::binds::rename;
use crate::last::last_clause;
use ef_base::{Names, NoMemory};
use ef_core::{Bind, CoreClause, CoreExpr, CoreVar, Env, Fresh, LetStep};
use ef_lowpat::draw;
use std::alloc::Global;

/// The choice among the arms is answered. Where all of them bind a name, it goes behind the steps, these names are bound,
/// and the variable of the value is answered.
pub fn choose(
    alloc: Global,
    names: &Names,
    arg: CoreExpr,
    arms: Vec<Arm>,
    env: &mut Env,
    fresh: &mut Fresh,
    steps: &mut Vec<LetStep>,
) -> Result<CoreExpr, NoMemory>
    requires words { HoldsWords names.now lower_words }
    requires arms { ArmsCanEnd fresh.old env.old (map plain_arm arms.items) }
    ensures { IfOk result (λ e. MakesCase names.now (core.plain arg) (map plain_arm arms.items) fresh.old env.old (map plain_step steps.old.items) fresh.new env.new (map plain_step steps.new.items) (core.plain e)) }
{
    let shared = shared_names(alloc, &arms)?;
    let choice = choice_of(alloc, names, arg, &shared, arms, fresh)?;
    Ok(leave_names(alloc, &shared, choice, env, fresh, steps)?)
}

// The choice among the arms, which give the values of these names, and behind them the last clause.
fn choice_of(
    alloc: Global,
    names: &Names,
    arg: CoreExpr,
    binds: &[Bind],
    arms: Vec<Arm>,
    fresh: &mut Fresh,
) -> Result<CoreExpr, NoMemory>
    requires words { HoldsWords names.now lower_words }
    requires shared { binds.now ≡ shared (map plain_arm arms.items) }
    requires room { Each (λ a. (plain_arm a).drawn < most_variables) arms.items }
    requires enough { fresh.old + 4 ≤ most_variables }
    ensures { IfOk result (λ e. IsCaseOf names.now (core.plain arg) (map plain_arm arms.items) fresh.old fresh.new (core.plain e)) }
{
    match clauses_of(alloc, names, binds, arms, fresh) {
        Ok(clauses) => {
            let arg = Box::new(alloc, arg)?;
            Ok(CoreExpr::Case { arg, clauses })
        }
        Err(error) => {
            // By a call: dropped in place, each variant of each part would be a step of its own in the proof.
            drop(arg);
            Err(error)
        }
    }
}

// The clauses of the arms, and behind them the last clause.
fn clauses_of(
    alloc: Global,
    names: &Names,
    binds: &[Bind],
    arms: Vec<Arm>,
    fresh: &mut Fresh,
) -> Result<Vec<CoreClause>, NoMemory>
    requires words { HoldsWords names.now lower_words }
    requires shared { binds.now ≡ shared (map plain_arm arms.items) }
    requires room { Each (λ a. (plain_arm a).drawn < most_variables) arms.items }
    requires enough { fresh.old + 4 ≤ most_variables }
    ensures { IfOk result (λ cs. (x : CoreTree) → IsCaseOf names.now x (map plain_arm arms.items) fresh.old fresh.new (c.case_of x (core.plain_clauses cs.items))) }
{
    let mut clauses = finish_arms(alloc, binds, arms)?;
    let last = last_clause(alloc, names, fresh, "case_clause", 1)?;
    clauses.push(last)?;
    Ok(clauses)
}

// The value, where there are no names, and else the variable of the step that holds it and them.
fn leave_names(
    alloc: Global,
    binds: &[Bind],
    value: CoreExpr,
    env: &mut Env,
    fresh: &mut Fresh,
    steps: &mut Vec<LetStep>,
) -> Result<CoreExpr, NoMemory>
    requires differ { NamesDiffer binds.now }
    requires new { Each (λ b. held env.old b.name ≡ None) binds.now }
    requires enough { fresh.old + 1 + length binds.now ≤ most_variables }
    ensures { IfOk result (λ e. LeavesNames binds.now (core.plain value) fresh.old env.old (map plain_step steps.old.items) fresh.new env.new (map plain_step steps.new.items) (core.plain e)) }
{
    if binds.is_empty() {
        return Ok(value);
    }
    Ok(put_named(alloc, binds, value, env, fresh, steps)?)
}

// One more step, whose variables hold the value and these names, which are bound; the variable of the value is answered.
fn put_named(
    alloc: Global,
    binds: &[Bind],
    value: CoreExpr,
    env: &mut Env,
    fresh: &mut Fresh,
    steps: &mut Vec<LetStep>,
) -> Result<CoreExpr, NoMemory>
    requires differ { NamesDiffer binds.now }
    requires new { Each (λ b. held env.old b.name ≡ None) binds.now }
    requires enough { fresh.old + 1 + length binds.now ≤ most_variables }
    ensures { IfOk result (λ e. PutsNamed binds.now (core.plain value) fresh.old env.old (map plain_step steps.old.items) fresh.new env.new (map plain_step steps.new.items) (core.plain e)) }
{
    let var = draw(fresh);
    match renamed(alloc, var, binds, env, fresh) {
        Ok(vars) => {
            steps.push(LetStep { vars, value })?;
            Ok(CoreExpr::Var(var))
        }
        Err(error) => {
            drop(value);
            Err(error)
        }
    }
}

// This variable, and behind it those that these names are bound to now.
fn renamed(
    alloc: Global,
    var: CoreVar,
    binds: &[Bind],
    env: &mut Env,
    fresh: &mut Fresh,
) -> Result<Vec<CoreVar>, NoMemory>
    requires differ { NamesDiffer binds.now }
    requires new { Each (λ b. held env.old b.name ≡ None) binds.now }
    requires enough { fresh.old + length binds.now ≤ most_variables }
    ensures drawn { IfOk result (λ vs. fresh.new ≡ fresh.old + length binds.now) }
    ensures bound { IfOk result (λ vs. env.new ≡ env.old ++ env_from fresh.old (names_of binds.now)) }
    ensures vars { IfOk result (λ vs. vs.items ≡ var ∷ params_from fresh.old (names_of binds.now)) }
{
    let mut vars = vec![in alloc; var]?;
    rename(&mut vars, binds, env, fresh)?;
    Ok(vars)
}
