// The clause for all values that no other clause takes.
ghost use Rattle.std.specs.Prelude.{◌≡◌, ◌+◌, ◌≤◌, [], ◌∷◌, IfOk, length, map, min};
ghost use Rattle.ef_core.specs.declared.literal.CoreVar.TheVariants.{Numbered};
ghost use Rattle.ef_core.specs.Fresh.{most_variables, variables_from};
ghost use Rattle.ef_core.specs.Plain as core;
ghost use Rattle.ef_core.specs.Plain.{plain_clause, plain_pat, plain_step};
ghost use Rattle.ef_core.specs.Tree as c;
ghost use Rattle.ef_lowpat.specs.Guards.{HoldsWord, HoldsWords};
ghost use Rattle.ef_lower.specs.Matches.{FailsWith, IsLastClause};
ghost use Rattle.ef_lower.specs.Ready.{lower_words};
ghost use Rattle.ef_meaning.specs.Cases as cases;

use crate::values::{draw_variables, push_values};
use ef_base::{Name, Names, NoMemory};
use ef_core::{CoreClause, CoreExpr, CoreLit, CorePat, CoreVar, Fresh, LetStep};
use ef_lowpat::{draw, guard, word};
use std::alloc::Global;

/// A clause that takes so many values, whatever they are, and raises an error with this word and the values.
pub fn last_clause(
    alloc: Global,
    names: &Names,
    fresh: &mut Fresh,
    why: &str,
    count: usize,
) -> Result<CoreClause, NoMemory>
    requires words { HoldsWords names.now lower_words }
    requires why { HoldsWord names.now why.now }
    requires enough { fresh.old + count + 3 ≤ most_variables }
    ensures { IfOk result (λ c. IsLastClause names.now why.now count fresh.old fresh.new (plain_clause c)) }
{
    let guard = guard(alloc, names, fresh, &[])?;
    match taking(alloc, names, fresh, why, count) {
        Ok((pats, body)) => Ok(CoreClause { pats, guard, body }),
        Err(error) => {
            // By a call: dropped in place, each variant of each part would be a step of its own in the proof.
            drop(guard);
            Err(error)
        }
    }
}

// The patterns of so many variables, and the error with this word and their values.
fn taking(
    alloc: Global,
    names: &Names,
    fresh: &mut Fresh,
    why: &str,
    count: usize,
) -> Result<(Vec<CorePat>, CoreExpr), NoMemory>
    requires words { HoldsWords names.now lower_words }
    requires why { HoldsWord names.now why.now }
    requires enough { fresh.old + count + 1 ≤ most_variables }
    ensures pats { IfOk result (λ r. map plain_pat r.0.items ≡ map (λ y. c.pat_var y) (variables_from fresh.old count)) }
    ensures fails { IfOk result (λ r. FailsWith names.now why.now (variables_from fresh.old count) (Numbered (fresh.old + count)) (core.plain r.1)) }
    ensures drawn { IfOk result (λ r. fresh.new ≡ fresh.old + count + min count 1) }
{
    let vars = draw_variables(alloc, fresh, count)?;
    let pats = patterns(alloc, &vars)?;
    let body = error(alloc, names, fresh, why, &vars)?;
    Ok((pats, body))
}

// Variables as patterns.
#[tactic(auto, using(ef_core::specs::Laws::plain_laws))]
fn patterns(alloc: Global, vars: &[CoreVar]) -> Result<Vec<CorePat>, NoMemory>
    ensures { IfOk result (λ ps. map plain_pat ps.items ≡ map (λ y. c.pat_var y) vars.now) }
{
    let mut pats = Vec::with_capacity(alloc, vars.len())?;
    for var in vars {
        pats.push(CorePat::Var(*var))?;
    }
    Ok(pats)
}

// An error whose reason is the tuple of this word and the values of the variables.
fn error(
    alloc: Global,
    names: &Names,
    fresh: &mut Fresh,
    why: &str,
    vars: &[CoreVar],
) -> Result<CoreExpr, NoMemory>
    requires words { HoldsWords names.now lower_words }
    requires why { HoldsWord names.now why.now }
    requires enough { fresh.old + 1 ≤ most_variables }
    ensures fails { IfOk result (λ e. FailsWith names.now why.now vars.now (Numbered fresh.old) (core.plain e)) }
    ensures drawn { IfOk result (λ e. fresh.new ≡ fresh.old + min (length vars.now) 1) }
{
    let why = word(names, why);
    let fail = word(names, "match_fail");
    if vars.is_empty() {
        let reason = literal(alloc, why)?;
        return Ok(raise(alloc, fail, reason)?);
    }
    let var = draw(fresh);
    let steps = vec![in alloc; reason(alloc, var, why, vars)?]?;
    let raised = raise(alloc, fail, CoreExpr::Var(var))?;
    Ok(behind(alloc, steps, raised)?)
}

// The tuple of a word alone, which is a literal.
#[tactic(auto, using(ef_core::specs::Laws::plain_laws))]
fn literal(alloc: Global, why: Name) -> Result<CoreExpr, NoMemory>
    ensures { IfOk result (λ e. core.plain e ≡ c.lit (c.lit_tuple (c.more_lits (c.atom why) c.no_lits))) }
{
    let items = vec![in alloc; CoreLit::Atom(why)]?;
    Ok(CoreExpr::Lit(CoreLit::Tuple(items)))
}

// A step that sets the variable to the tuple of a word and the values of variables.
#[tactic(auto, using(ef_core::specs::Laws::plain_laws))]
fn reason(alloc: Global, var: CoreVar, why: Name, vars: &[CoreVar]) -> Result<LetStep, NoMemory>
    ensures { IfOk result (λ s. plain_step s ≡ record { vars = var ∷ []; value = c.tuple (core.trees (c.lit (c.atom why) ∷ cases.variables vars.now)) }) }
{
    let mut items = vec![in alloc; CoreExpr::Lit(CoreLit::Atom(why))]?;
    push_values(&mut items, vars)?;
    Ok(LetStep {
        vars: vec![in alloc; var]?,
        value: CoreExpr::Tuple(items),
    })
}

// An error with this reason.
#[tactic(auto, using(ef_core::specs::Laws::plain_laws))]
fn raise(alloc: Global, fail: Name, reason: CoreExpr) -> Result<CoreExpr, NoMemory>
    ensures { IfOk result (λ e. core.plain e ≡ c.primop fail (c.more (core.plain reason) c.end)) }
{
    let args = vec![in alloc; reason]?;
    Ok(CoreExpr::Primop { name: fail, args })
}

// The expression behind the steps.
#[tactic(auto, using(ef_core::specs::Laws::plain_laws))]
fn behind(alloc: Global, steps: Vec<LetStep>, body: CoreExpr) -> Result<CoreExpr, NoMemory>
    ensures { IfOk result (λ e. core.plain e ≡ c.lets (core.plain_steps steps.items) (core.plain body)) }
{
    let body = Box::new(alloc, body)?;
    Ok(CoreExpr::Lets { steps, body })
}
