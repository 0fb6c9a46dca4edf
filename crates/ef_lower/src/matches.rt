// Matches: a step whose variables hold what the pattern binds.
ghost use Rattle.std.specs.Prelude.{◌≡◌, ◌+◌, ◌*◌, ◌≤◌, ◌++◌, [], ◌∷◌, ℕ, IfOk, IfSome, IsTrue, None, length, map};
ghost use Rattle.ef_base.specs.declared.fault.Place.{Place};
ghost use Rattle.ef_core.specs.Env.{NamesDiffer, held};
ghost use Rattle.ef_core.specs.Everywhere.{Each};
ghost use Rattle.ef_core.specs.Fresh.{most_variables};
ghost use Rattle.ef_core.specs.Lowered.{IsReadableBind};
ghost use Rattle.ef_core.specs.Plain.{clauses, plain_clause, plain_pats, plain_step};
ghost use Rattle.ef_core.specs.Plain as core;
ghost use Rattle.ef_core.specs.declared.literal.CoreVar.TheVariants.{Numbered};
ghost use Rattle.ef_core.specs.Tree as c;
ghost use Rattle.ef_forms.specs.Built.{IsPattern};
ghost use Rattle.ef_forms.specs.OfTable.{TreeOf};
ghost use Rattle.ef_forms.specs.Plain.{plain};
ghost use Rattle.ef_forms.specs.Tree as t;
ghost use Rattle.ef_forms.specs.Weight.{weight};
ghost use Rattle.ef_lowpat.specs.Budgets.{variables_per_match, variables_per_pattern};
ghost use Rattle.ef_lowpat.specs.Guards.{HoldsWords};
ghost use Rattle.ef_lower.specs.Matches.{FailsWith, IsLastClause, IsMatchStep, Matches, match_clause};
ghost use Rattle.ef_lower.specs.Ready.{lower_words};
ghost use Rattle.ef_meaning.specs.Cases.{names_of};
ghost use Rattle.ef_meaning.specs.Lowers.{AreBelow, env_from, params_from};

use crate::binds::rename;
use crate::front::{BindingFront, Front, binding_front};
use crate::last::last_clause;
use crate::steps::in_variable;
use crate::values::{push_variables, together};
use ef_base::{Name, Names, NoMemory};
use ef_core::{CoreClause, CoreExpr, CoreVar, Env, Fresh, LetStep};
use ef_forms::{Expr, Node};
use std::alloc::Global;
use std::slice::from_ref;

/// What matches the value with the pattern goes behind the steps, and the pattern's names are bound; the value is answered.
pub fn match_value(
    alloc: Global,
    names: &Names,
    pat: &Expr,
    value: CoreExpr,
    env: &mut Env,
    fresh: &mut Fresh,
    steps: &mut Vec<LetStep>,
) -> Result<CoreExpr, NoMemory>
    requires words { HoldsWords names.now lower_words }
    requires is_pattern { IsPattern (plain pat.now) }
    requires of_table { TreeOf names.now (plain pat.now) }
    requires readable { Each (IsReadableBind names.now) env.old }
    requires below { AreBelow fresh.old env.old }
    requires enough { fresh.old + variables_per_match * weight (plain pat.now) ≤ most_variables }
    ensures { IfOk result (λ e. Matches names.now (plain pat.now) (core.plain value) fresh.old env.old (map plain_step steps.old.items) fresh.new env.new (map plain_step steps.new.items) (core.plain e)) }
{
    if is_any(pat) {
        return Ok(value);
    }
    let var = in_variable(alloc, fresh, steps, value)?;
    match new_name(pat, env) {
        Some(name) => {
            env.push(name, var)?;
            Ok(CoreExpr::Var(var))
        }
        None => {
            let step = match_step(alloc, names, pat, var, env, fresh)?;
            steps.push(step)?;
            Ok(CoreExpr::Var(var))
        }
    }
}

// Whether it is `_`.
#[tactic(auto, using(ef_forms::proofs::Plain::laws))]
fn is_any(pat: &Expr) -> bool
    ensures { IsTrue result → plain pat.now ≡ t.tree pat.now.place t.any }
{
    matches!(pat.node, Node::Any)
}

// The name that is the whole pattern, and isn't bound yet.
fn new_name(pat: &Expr, env: &Env) -> Option<Name>
    ensures { IfSome result (λ n. (plain pat.now ≡ t.tree pat.now.place (t.var n)) × (held env.now n ≡ None)) }
{
    match &pat.node {
        Node::Var(name) => match env.var_of(*name) {
            Some(_) => None,
            None => Some(*name),
        },
        _ => None,
    }
}

// A step that matches the variable with the pattern. Behind it, its variables are those of the pattern's names.
fn match_step(
    alloc: Global,
    names: &Names,
    pat: &Expr,
    var: CoreVar,
    env: &mut Env,
    fresh: &mut Fresh,
) -> Result<LetStep, NoMemory>
    requires words { HoldsWords names.now lower_words }
    requires is_pattern { IsPattern (plain pat.now) }
    requires of_table { TreeOf names.now (plain pat.now) }
    requires readable { Each (IsReadableBind names.now) env.old }
    requires below { AreBelow fresh.old env.old }
    requires enough { fresh.old + variables_per_pattern * weight (plain pat.now) + weight (plain pat.now) + 6 ≤ most_variables }
    ensures { IfOk result (λ s. IsMatchStep names.now (plain pat.now) var fresh.old env.old fresh.new env.new (plain_step s)) }
{
    let made = binding_front(alloc, names, from_ref(pat), env, fresh)?;
    let last = match last_clause(alloc, names, fresh, "badmatch", 1) {
        Ok(last) => last,
        Err(error) => {
            // By a call: dropped in place, each variant of each part would be a step of its own in the proof.
            drop(made);
            return Err(error);
        }
    };
    let mut vars = Vec::new(alloc);
    match rename(&mut vars, &made.binds, env, fresh) {
        Ok(()) => {
            let value = match_case(alloc, var, made, last)?;
            Ok(LetStep { vars, value })
        }
        Err(error) => {
            drop((made, last));
            Err(error)
        }
    }
}

// The values of the names, where the front takes the variable's value; else the last clause.
fn match_case(
    alloc: Global,
    var: CoreVar,
    made: BindingFront,
    last: CoreClause,
) -> Result<CoreExpr, NoMemory>
    ensures { IfOk result (λ e. core.plain e ≡ c.case_of (c.var var) (clauses (match_clause (plain_pats made.front.pats.items) (core.plain made.front.guard) made.binds.items ∷ plain_clause last ∷ []))) }
{
    match names_clause(alloc, made) {
        Ok(first) => {
            let clauses = both(alloc, first, last)?;
            Ok(over_variable(alloc, var, clauses)?)
        }
        Err(error) => {
            drop(last);
            Err(error)
        }
    }
}

// A clause that gives the values of the names.
fn names_clause(alloc: Global, made: BindingFront) -> Result<CoreClause, NoMemory>
    ensures { IfOk result (λ k. plain_clause k ≡ match_clause (plain_pats made.front.pats.items) (core.plain made.front.guard) made.binds.items) }
{
    let mut values = Vec::new(alloc);
    push_variables(&mut values, &made.binds)?;
    let Front { pats, guard } = made.front;
    Ok(CoreClause {
        pats,
        guard,
        body: together(values),
    })
}

fn both(alloc: Global, first: CoreClause, last: CoreClause) -> Result<Vec<CoreClause>, NoMemory>
    ensures { IfOk result (λ cs. cs.items ≡ first ∷ last ∷ []) }
{
    Ok(vec![in alloc; first, last]?)
}

#[tactic(auto, using(ef_core::specs::Laws::plain_laws))]
fn over_variable(
    alloc: Global,
    var: CoreVar,
    clauses: Vec<CoreClause>,
) -> Result<CoreExpr, NoMemory>
    ensures { IfOk result (λ e. core.plain e ≡ c.case_of (c.var var) (core.plain_clauses clauses.items)) }
{
    let arg = Box::new(alloc, CoreExpr::Var(var))?;
    Ok(CoreExpr::Case { arg, clauses })
}
