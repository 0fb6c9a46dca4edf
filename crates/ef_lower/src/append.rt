// Expressions as let steps, and the value behind them.
ghost use Rattle.std.specs.Prelude.{◌≡◌, ◌≤◌, ◌∷◌, [], IfOk, OnOk, List, length, map};
ghost use Rattle.ef_core.specs.Everywhere.{Each};
ghost use Rattle.ef_forms.specs.Built.{AreBuilt, AreNarrow, IsAtom};
ghost use Rattle.ef_forms.specs.OfTable.{TreesOf};
ghost use Rattle.ef_forms.specs.Plain.{plain, plain_all, plain_clause, plain_clauses};
ghost use Rattle.ef_forms.specs.Tree as t;
ghost use Rattle.ef_forms.specs.Ways.{body_faults};
ghost use Rattle.ef_forms.specs.Weight.{all_weight, clauses_weight, weight};
ghost use Rattle.ef_lowpat.specs.Guards.{HoldsWords};
ghost use Rattle.ef_lower.specs.Arms.{AreArms, IsArm, plain_arm};
ghost use Rattle.ef_lower.specs.Lowers.{Appends, AppendsAll, AppendsBody};
ghost use Rattle.ef_lower.specs.Ready.{AreReady, HasPlace, IsReady, IsReadyClause, bound_names, lower_words};

use crate::arms::Arm;
use crate::cases::choose;
use crate::front::front_of;
use crate::matches::match_value;
use crate::nodes::{apply, atom, call, integer, list, list_to, tuple, variable};
use crate::steps::hold;
use ef_base::{Name, Names, NoMemory};
use ef_core::{CoreExpr, Env, Fresh, LetStep};
use ef_forms::{Clause, Expr, Node, Tables};
use std::alloc::Global;

/// What is evaluated before the value goes behind the steps, from left to right, and the names of matches are bound; the
/// value is answered.
#[cycle(append)]
pub fn append(
    alloc: Global,
    names: &Names,
    tables: &Tables,
    expr: &Expr,
    env: &mut Env,
    fresh: &mut Fresh,
    steps: &mut Vec<LetStep>,
) -> Result<CoreExpr, NoMemory>
    requires words { HoldsWords names.now lower_words }
    requires ready { IsReady names.now tables.now.functions.items (bound_names env.old) (plain expr.now) }
    requires place { HasPlace names.now fresh.old env.old (weight (plain expr.now)) }
    ensures { IfOk result (λ v. Appends names.now tables.now.functions.items (plain expr.now) fresh.old env.old steps.old.items fresh.new env.new steps.new.items v) }
{
    match &expr.node {
        Node::Int(value) => Ok(integer(*value)),
        Node::Atom(name) => Ok(atom(*name)),
        Node::Var(name) => Ok(variable(env, *name)),
        Node::List { items, tail } => {
            let items = append_all(alloc, names, tables, items, env, fresh, steps)?;
            match tail {
                None => Ok(list(alloc, items)?),
                Some(tail) => {
                    let tail = append(alloc, names, tables, tail, env, fresh, steps)?;
                    Ok(list_to(alloc, items, hold(alloc, fresh, steps, tail)?)?)
                }
            }
        }
        Node::Tuple(items) => {
            let items = append_all(alloc, names, tables, items, env, fresh, steps)?;
            Ok(tuple(alloc, items)?)
        }
        Node::Match { left, right } => {
            let value = append(alloc, names, tables, right, env, fresh, steps)?;
            Ok(match_value(alloc, names, left, value, env, fresh, steps)?)
        }
        Node::Call { target, args } => {
            let args = append_all(alloc, names, tables, args, env, fresh, steps)?;
            Ok(apply(alloc, atom_of(target), args)?)
        }
        Node::Remote {
            module,
            function,
            args,
        } => {
            let args = append_all(alloc, names, tables, args, env, fresh, steps)?;
            Ok(call(alloc, atom_of(module), atom_of(function), args)?)
        }
        Node::Case { arg, clauses } => {
            let value = append(alloc, names, tables, arg, env, fresh, steps)?;
            let held = hold(alloc, fresh, steps, value)?;
            let arms = arms(alloc, names, tables, clauses, env, fresh)?;
            Ok(choose(alloc, names, held, arms, env, fresh, steps)?)
        }
        _ => unreachable!(),
    }
}

// The values of expressions, one after another, each a variable or a literal.
#[cycle(append)]
fn append_all(
    alloc: Global,
    names: &Names,
    tables: &Tables,
    exprs: &[Expr],
    env: &mut Env,
    fresh: &mut Fresh,
    steps: &mut Vec<LetStep>,
) -> Result<Vec<CoreExpr>, NoMemory>
    requires words { HoldsWords names.now lower_words }
    requires ready { AreReady names.now tables.now.functions.items (bound_names env.old) (plain_all exprs.now) }
    requires place { HasPlace names.now fresh.old env.old (all_weight (plain_all exprs.now)) }
    ensures { IfOk result (λ vs. AppendsAll names.now tables.now.functions.items (map plain exprs.now) fresh.old env.old steps.old.items fresh.new env.new steps.new.items vs.items) }
{
    let mut values = Vec::new(alloc);
    for expr in exprs {
        let value = append(alloc, names, tables, expr, env, fresh, steps)?;
        values.push(hold(alloc, fresh, steps, value)?)?;
    }
    Ok(values)
}

/// The expressions before the last go behind the steps, with what is evaluated before the last, whose value is answered.
#[cycle(append)]
pub fn append_body(
    alloc: Global,
    names: &Names,
    tables: &Tables,
    exprs: &[Expr],
    env: &mut Env,
    fresh: &mut Fresh,
    steps: &mut Vec<LetStep>,
) -> Result<CoreExpr, NoMemory>
    requires words { HoldsWords names.now lower_words }
    requires some { 1 ≤ length exprs.now }
    requires built { AreBuilt names.now tables.now.functions.items (plain_all exprs.now) }
    requires narrow { AreNarrow (plain_all exprs.now) }
    requires of_table { TreesOf names.now (plain_all exprs.now) }
    requires no_faults { body_faults names.now (plain_all exprs.now) (bound_names env.old ∷ []) ≡ [] }
    requires place { HasPlace names.now fresh.old env.old (all_weight (plain_all exprs.now)) }
    ensures { IfOk result (λ v. AppendsBody names.now tables.now.functions.items (map plain exprs.now) fresh.old env.old steps.old.items fresh.new env.new steps.new.items v) }
{
    let last = exprs.len() - 1;
    for expr in &exprs[..last] {
        let ignored = append(alloc, names, tables, expr, env, fresh, steps)?;
        hold(alloc, fresh, steps, ignored)?;
    }
    Ok(append(alloc, names, tables, &exprs[last], env, fresh, steps)?)
}

// Each clause by itself: none sees the names of another, and each draws the same variables.
#[cycle(append)]
fn arms(
    alloc: Global,
    names: &Names,
    tables: &Tables,
    clauses: &[Clause],
    env: &mut Env,
    fresh: &Fresh,
) -> Result<Vec<Arm>, NoMemory>
    requires words { HoldsWords names.now lower_words }
    requires ready { Each (λ c. IsReadyClause names.now tables.now.functions.items (bound_names env.old) (plain_clause c)) clauses.now }
    requires place { HasPlace names.now fresh.now env.old (clauses_weight (plain_clauses clauses.now)) }
    ensures same { OnOk result (env.new ≡ env.old) }
    ensures arms { IfOk result (λ as'. AreArms names.now tables.now.functions.items fresh.now env.old (map plain_clause clauses.now) (map plain_arm as'.items)) }
{
    let mut arms = Vec::with_capacity(alloc, clauses.len())?;
    for clause in clauses {
        arms.push(arm(alloc, names, tables, clause, env, fresh)?)?;
    }
    Ok(arms)
}

// The names of the pattern and of the body are bound while the body is lowered.
#[cycle(append)]
fn arm(
    alloc: Global,
    names: &Names,
    tables: &Tables,
    clause: &Clause,
    env: &mut Env,
    fresh: &Fresh,
) -> Result<Arm, NoMemory>
    requires words { HoldsWords names.now lower_words }
    requires ready { IsReadyClause names.now tables.now.functions.items (bound_names env.old) (plain_clause clause.now) }
    requires place { HasPlace names.now fresh.now env.old (clauses_weight (plain_clauses (clause.now ∷ []))) }
    ensures same { OnOk result (env.new ≡ env.old) }
    ensures arm { IfOk result (λ a. IsArm names.now tables.now.functions.items fresh.now env.old (plain_clause clause.now) (plain_arm a)) }
{
    let start = env.len();
    let mut fresh = fresh.copy();
    let front = front_of(alloc, names, clause, env, &mut fresh)?;
    let mut steps = Vec::new(alloc);
    let body = &clause.body;
    let value = match append_body(alloc, names, tables, body, env, &mut fresh, &mut steps) {
        Ok(value) => value,
        Err(error) => {
            // By a call: dropped in place, each variant of each part would be a step of its own in the proof.
            drop(front);
            return Err(error);
        }
    };
    let binds = env.split_off(start)?;
    Ok(Arm {
        front,
        steps,
        value,
        binds,
        fresh,
    })
}

// The name of an atom.
fn atom_of(expr: &Expr) -> Name
    requires { IsAtom (plain expr.now) }
    ensures { plain expr.now ≡ t.tree expr.now.place (t.atom result) }
{
    let Node::Atom(name) = expr.node else {
        unreachable!()
    };
    name
}
