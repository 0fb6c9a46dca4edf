// The variables of patterns.
ghost use Rattle.std.specs.Prelude.{◌≡◌, ◌∷◌, [], ◌||◌, ℕ, OnOk, List};
ghost use Rattle.ef_base.specs.Texts.{HasName};
ghost use Rattle.ef_forms.specs.declared.expr.Clause.{out-Clause};
ghost use Rattle.ef_forms.specs.OfTable.{ClausesOf, GuardsOf, TreeOf, TreesOf};
ghost use Rattle.ef_forms.specs.Plain.{plain, plain_all, plain_clauses, plain_guard};
ghost use Rattle.ef_forms.specs.Ways.{NameSet, all_names, bind, clauses_names, guards_names, name_faults, pattern_clauses_faults, pattern_faults, pattern_guards_faults, patterns_faults};
ghost use Rattle.ef_forms.specs.Ways as ways;
ghost use Rattle.ef_scope.specs.Trail.{has};
ghost use Rattle.ef_scope.specs.Walks.{Adds, Shows, Walks};

use crate::fault::add_unsafe;
use crate::marks::Mark;
use crate::state::State;
use ef_base::{FaultList, Name, Names, NoMemory, Place};
use ef_forms::{Clause, Expr, Node};
use std::alloc::Global;

/// The faults of a pattern; its names are bound behind it.
pub fn match_pattern(
    alloc: Global,
    names: &Names,
    pattern: &Expr,
    state: &mut State,
    found: &mut FaultList,
) -> Result<(), NoMemory>
    requires { TreeOf names.now (plain pattern.now) }
    ensures { OnOk result (Walks (bind (ways.names (plain pattern.now))) (pattern_faults names.now (plain pattern.now)) state.old state.new found.old found.new) }
{
    let mut bound = Vec::new(alloc);
    check_pattern(alloc, names, pattern, state, found, &mut bound)?;
    state.raise_all(&bound, Mark::Safe)?;
    Ok(())
}

/// The faults of the patterns of a clause; their names are bound behind them.
pub fn match_patterns(
    alloc: Global,
    names: &Names,
    patterns: &[Expr],
    state: &mut State,
    found: &mut FaultList,
) -> Result<(), NoMemory>
    requires { TreesOf names.now (plain_all patterns.now) }
    ensures { OnOk result (Walks (bind (all_names (plain_all patterns.now))) (patterns_faults names.now (plain_all patterns.now)) state.old state.new found.old found.new) }
{
    let mut bound = Vec::new(alloc);
    check_patterns(alloc, names, patterns, state, found, &mut bound)?;
    state.raise_all(&bound, Mark::Safe)?;
    Ok(())
}

// All places see the names that are bound before the pattern. As far as trees are built each variable counts, also in
// what can't be a pattern.
#[cycle(pattern)]
fn check_pattern(
    alloc: Global,
    names: &Names,
    pattern: &Expr,
    state: &State,
    found: &mut FaultList,
    bound: &mut Vec<usize>,
) -> Result<(), NoMemory>
    requires { TreeOf names.now (plain pattern.now) }
    ensures faults { OnOk result ((sets : List NameSet) → Shows sets state.now → Adds (pattern_faults names.now (plain pattern.now) sets) found.old found.new) }
    ensures names { OnOk result ((m : ℕ) → has bound.new.items m ≡ (has bound.old.items m || ways.names (plain pattern.now) m)) }
{
    match &pattern.node {
        Node::Int(_) | Node::Atom(_) | Node::Any => Ok(()),
        Node::Var(name) => {
            check_variable(alloc, names, pattern.place, *name, state, found)?;
            bound.push(name.index)?;
            Ok(())
        }
        Node::List { items, tail } => {
            check_patterns(alloc, names, items, state, found, bound)?;
            match tail {
                Some(tail) => check_pattern(alloc, names, tail, state, found, bound),
                None => Ok(()),
            }
        }
        Node::Tuple(items) => check_patterns(alloc, names, items, state, found, bound),
        Node::Match { left, right } => {
            check_pattern(alloc, names, left, state, found, bound)?;
            check_pattern(alloc, names, right, state, found, bound)
        }
        Node::Call { target, args } => {
            check_pattern(alloc, names, target, state, found, bound)?;
            check_patterns(alloc, names, args, state, found, bound)
        }
        Node::Remote {
            module,
            function,
            args,
        } => {
            check_pattern(alloc, names, module, state, found, bound)?;
            check_pattern(alloc, names, function, state, found, bound)?;
            check_patterns(alloc, names, args, state, found, bound)
        }
        Node::Case { arg, clauses } => {
            check_pattern(alloc, names, arg, state, found, bound)?;
            check_clauses(alloc, names, clauses, state, found, bound)
        }
        // The rest is not built.
        _ => Ok(()),
    }
}

#[cycle(pattern)]
fn check_patterns(
    alloc: Global,
    names: &Names,
    patterns: &[Expr],
    state: &State,
    found: &mut FaultList,
    bound: &mut Vec<usize>,
) -> Result<(), NoMemory>
    requires { TreesOf names.now (plain_all patterns.now) }
    ensures faults { OnOk result ((sets : List NameSet) → Shows sets state.now → Adds (patterns_faults names.now (plain_all patterns.now) sets) found.old found.new) }
    ensures names { OnOk result ((m : ℕ) → has bound.new.items m ≡ (has bound.old.items m || all_names (plain_all patterns.now) m)) }
{
    for pattern in patterns {
        check_pattern(alloc, names, pattern, state, found, bound)?;
    }
    Ok(())
}

#[cycle(pattern)]
fn check_clauses(
    alloc: Global,
    names: &Names,
    clauses: &[Clause],
    state: &State,
    found: &mut FaultList,
    bound: &mut Vec<usize>,
) -> Result<(), NoMemory>
    requires { ClausesOf names.now (plain_clauses clauses.now) }
    ensures faults { OnOk result ((sets : List NameSet) → Shows sets state.now → Adds (pattern_clauses_faults names.now (plain_clauses clauses.now) sets) found.old found.new) }
    ensures names { OnOk result ((m : ℕ) → has bound.new.items m ≡ (has bound.old.items m || clauses_names (plain_clauses clauses.now) m)) }
{
    for clause in clauses {
        check_patterns(alloc, names, &clause.patterns, state, found, bound)?;
        check_guard(alloc, names, clause, state, found, bound)?;
        check_patterns(alloc, names, &clause.body, state, found, bound)?;
    }
    Ok(())
}

#[cycle(pattern)]
fn check_guard(
    alloc: Global,
    names: &Names,
    clause: &Clause,
    state: &State,
    found: &mut FaultList,
    bound: &mut Vec<usize>,
) -> Result<(), NoMemory>
    requires { GuardsOf names.now (plain_guard (out-Clause clause.now).guard.items) }
    ensures faults { OnOk result ((sets : List NameSet) → Shows sets state.now → Adds (pattern_guards_faults names.now (plain_guard (out-Clause clause.now).guard.items) sets) found.old found.new) }
    ensures names { OnOk result ((m : ℕ) → has bound.new.items m ≡ (has bound.old.items m || guards_names (plain_guard (out-Clause clause.now).guard.items) m)) }
{
    for tests in &clause.guard {
        check_patterns(alloc, names, tests, state, found, bound)?;
    }
    Ok(())
}

fn check_variable(
    alloc: Global,
    names: &Names,
    place: Place,
    name: Name,
    state: &State,
    found: &mut FaultList,
) -> Result<(), NoMemory>
    requires { HasName names.now name }
    ensures { OnOk result ((sets : List NameSet) → Shows sets state.now → Adds (name_faults names.now place name sets) found.old found.new) }
{
    match state.marks.get(name.index) {
        Mark::Unbound | Mark::Safe => Ok(()),
        Mark::Unsafe => add_unsafe(alloc, place, names.text(name), found),
    }
}
