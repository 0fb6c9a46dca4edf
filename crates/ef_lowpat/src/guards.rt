// Guards that are made of tests.
ghost use Rattle.std.specs.Prelude.{◌≡◌, ◌+◌, ◌≤◌, ◌∷◌, [], IfOk, List, map};
ghost use Rattle.ef_base.specs.Texts.{IsNameOf};
ghost use Rattle.ef_core.specs.declared.literal.CoreVar.{CoreVar};
ghost use Rattle.ef_core.specs.declared.literal.FName.{FName};
ghost use Rattle.ef_core.specs.Depth.{depth};
ghost use Rattle.ef_core.specs.Everywhere.{Each};
ghost use Rattle.ef_core.specs.Fresh.{DrawsAtMost, most_variables};
ghost use Rattle.ef_core.specs.Lowered.{IsLowered, IsReadableTest};
ghost use Rattle.ef_core.specs.Plain.{plain, plain_all, plain_step, plain_steps};
ghost use Rattle.ef_core.specs.Scope.{InScope};
ghost use Rattle.ef_core.specs.Tree as c;
ghost use Rattle.ef_lowpat.specs.Guards.{HasTested, HoldsWord, HoldsWords, IsComparison, IsYes, behind_sides, guard_words, lefts, rights};
ghost use Rattle.ef_meaning.specs.Patterns.{IsGuard, TestsBelow};

use crate::draws::draw;
use ef_base::{Name, Names, NoMemory};
use ef_core::{CoreExpr, CoreLit, CoreVar, Fresh, LetStep, Test};
use std::alloc::Global;

/// Whether all tests hold, as an expression that gives `'true'` or `'false'`. It is no more deeply nested for more tests.
pub fn guard(
    alloc: Global,
    names: &Names,
    fresh: &mut Fresh,
    tests: &[Test],
) -> Result<CoreExpr, NoMemory>
    requires words { HoldsWords names.now guard_words }
    requires readable { Each (IsReadableTest names.now) tests.now }
    requires below { TestsBelow fresh.old tests.now }
    requires enough { fresh.old + 2 ≤ most_variables }
    ensures gives { IfOk result (λ e. IsGuard names.now tests.now (plain e)) }
    ensures lowered { IfOk result (λ e. IsLowered names.now (plain e)) }
    ensures in_scope { IfOk result (λ e. (vs : List CoreVar) (fs : List FName) → HasTested tests.now vs → InScope vs fs (plain e)) }
    ensures shallow { IfOk result (λ e. depth (plain e) ≤ 3) }
    ensures drawn { IfOk result (λ e. DrawsAtMost 2 fresh.old fresh.new) }
{
    match tests {
        [] => Ok(yes(names)),
        [test] => Ok(comparison(alloc, names, test.left, test.right)?),
        _ => {
            let left = draw(fresh);
            let right = draw(fresh);
            let comparison = comparison(alloc, names, left, right)?;
            Ok(with_sides(alloc, tests, left, right, comparison)?)
        }
    }
}

#[tactic(auto, using(ef_core::specs::Laws::plain_laws))]
fn yes(names: &Names) -> CoreExpr
    requires { HoldsWords names.now guard_words }
    ensures { IsYes names.now (plain result) }
{
    atom(word(names, "true"))
}

// The comparison of two variables.
#[tactic(auto, using(ef_core::specs::Laws::plain_laws))]
fn comparison(
    alloc: Global,
    names: &Names,
    left: CoreVar,
    right: CoreVar,
) -> Result<CoreExpr, NoMemory>
    requires { HoldsWords names.now guard_words }
    ensures { IfOk result (λ e. IsComparison names.now left right (plain e)) }
{
    let module = Box::new(alloc, atom(word(names, "erlang")))?;
    let function = Box::new(alloc, atom(word(names, "=:=")))?;
    let args = vec![in alloc; CoreExpr::Var(left), CoreExpr::Var(right)]?;
    Ok(CoreExpr::Call {
        module,
        function,
        args,
    })
}

// The body, behind the tuples of the left and of the right sides.
#[tactic(auto, using(ef_core::specs::Laws::plain_laws))]
fn with_sides(
    alloc: Global,
    tests: &[Test],
    left: CoreVar,
    right: CoreVar,
    body: CoreExpr,
) -> Result<CoreExpr, NoMemory>
    ensures { IfOk result (λ e. plain e ≡ behind_sides tests.now left right (plain body)) }
{
    match sides(alloc, tests, left, right) {
        Ok(steps) => {
            let body = Box::new(alloc, body)?;
            Ok(CoreExpr::Lets { steps, body })
        }
        Err(error) => {
            // By a call: dropped in place, each variant of each part would be a step of its own in the proof.
            drop(body);
            Err(error)
        }
    }
}

// The tuples of both sides.
fn sides(
    alloc: Global,
    tests: &[Test],
    left: CoreVar,
    right: CoreVar,
) -> Result<Vec<LetStep>, NoMemory>
    ensures { IfOk result (λ ss. plain_steps ss.items ≡ c.step (left ∷ []) (c.tuple (lefts tests.now)) (c.step (right ∷ []) (c.tuple (rights tests.now)) c.done)) }
{
    let mut steps = Vec::with_capacity(alloc, 2)?;
    steps.push(step(alloc, left, left_sides(alloc, tests)?)?)?;
    steps.push(step(alloc, right, right_sides(alloc, tests)?)?)?;
    Ok(steps)
}

fn left_sides(alloc: Global, tests: &[Test]) -> Result<Vec<CoreExpr>, NoMemory>
    ensures { IfOk result (λ es. es.items ≡ map (λ t. CoreExpr.Var t.left) tests.now) }
{
    let vars = tests.iter().map(|test| CoreExpr::Var(test.left));
    Ok(vars.collect(alloc)?)
}

fn right_sides(alloc: Global, tests: &[Test]) -> Result<Vec<CoreExpr>, NoMemory>
    ensures { IfOk result (λ es. es.items ≡ map (λ t. CoreExpr.Var t.right) tests.now) }
{
    let vars = tests.iter().map(|test| CoreExpr::Var(test.right));
    Ok(vars.collect(alloc)?)
}

// A step that sets the variable to the tuple of these.
#[tactic(auto, using(ef_core::specs::Laws::plain_laws))]
fn step(alloc: Global, var: CoreVar, items: Vec<CoreExpr>) -> Result<LetStep, NoMemory>
    ensures { IfOk result (λ s. plain_step s ≡ record { vars = var ∷ []; value = c.tuple (plain_all items.items) }) }
{
    let vars = vec![in alloc; var]?;
    Ok(LetStep {
        vars,
        value: CoreExpr::Tuple(items),
    })
}

#[tactic(auto, using(ef_core::specs::Laws::plain_laws))]
fn atom(name: Name) -> CoreExpr
    ensures { plain result ≡ c.lit (c.atom name) }
{
    CoreExpr::Lit(CoreLit::Atom(name))
}

/// The name of a text that the table has.
pub fn word(names: &Names, text: &str) -> Name
    requires { HoldsWord names.now text.now }
    ensures { IsNameOf names.now result text.now }
{
    let Some(name) = names.find(text) else {
        unreachable!()
    };
    name
}
