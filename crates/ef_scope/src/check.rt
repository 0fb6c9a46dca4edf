// The walk over the clauses of a function.
ghost use Rattle.std.specs.Prelude.{◌≡◌, ◌∷◌, [], List, IfOk, OnOk};
ghost use Rattle.ef_base.specs.Faults.{set_of};
ghost use Rattle.ef_base.specs.Texts.{Extends, HasName, Texts};
ghost use Rattle.ef_forms.specs.declared.expr.Clause.{out-Clause};
ghost use Rattle.ef_forms.specs.OfTable.{ClausesOf, FunctionOf, GuardsOf, TreeOf, TreesOf};
ghost use Rattle.ef_forms.specs.Plain.{plain, plain_all, plain_clauses, plain_function, plain_guard};
ghost use Rattle.ef_forms.specs.Ways.{all_faults, bind, body_faults, body_ways, clauses_faults, clauses_ways, faults, function_faults, guards_faults, one_name, side_by_side, stay, use_faults, ways};
ghost use Rattle.ef_scope.specs.Walks.{Walks};

use crate::fault::{add_unbound, check_use};
use crate::marks::Mark;
use crate::pattern::{match_pattern, match_patterns};
use crate::state::{Aside, State};
use ef_base::{FaultList, Name, Names, NoMemory, Place};
use ef_forms::{Clause, Expr, Function, Node, Tables};
use std::alloc::Global;

/// The faults of the function: the uses of names that are bound on no way, and those of names that are bound on some
/// ways and not on all. As far as trees are built, the tables are not looked at.
pub fn scope_faults(
    alloc: Global,
    names: &Names,
    function: &Function,
    _tables: &Tables,
) -> Result<FaultList, NoMemory>
    requires { FunctionOf names.now (plain_function function.now) }
    ensures { IfOk result (λ l. (all : Texts) → Extends names.now all → l ≡ set_of (function_faults all (plain_function function.now))) }
{
    let mut found = FaultList::new(alloc);
    let mut state = State::new(alloc);
    check_clauses(alloc, names, &function.clauses, &mut state, &mut found)?;
    Ok(found)
}

// What some clause binds is bound behind the clauses on some way, and what each binds on all.
#[cycle(check)]
fn check_clauses(
    alloc: Global,
    names: &Names,
    clauses: &[Clause],
    state: &mut State,
    found: &mut FaultList,
) -> Result<(), NoMemory>
    requires { ClausesOf names.now (plain_clauses clauses.now) }
    ensures { OnOk result (Walks (clauses_ways (plain_clauses clauses.now)) (clauses_faults names.now (plain_clauses clauses.now)) state.old state.new found.old found.new) }
{
    let [first, rest @ ..] = clauses else {
        return Ok(());
    };
    let start = state.len();
    let mut choices = Aside::new(alloc);
    check_clause(alloc, names, first, state, found)?;
    state.set_aside(start, &mut choices)?;
    for clause in rest {
        check_clause(alloc, names, clause, state, found)?;
        state.set_aside_choice(start, &mut choices)?;
    }
    state.put(&choices)?;
    Ok(())
}

#[cycle(check)]
fn check_clause(
    alloc: Global,
    names: &Names,
    clause: &Clause,
    state: &mut State,
    found: &mut FaultList,
) -> Result<(), NoMemory>
    requires { ClausesOf names.now (plain_clauses (clause.now ∷ [])) }
    ensures { OnOk result (Walks (clauses_ways (plain_clauses (clause.now ∷ []))) (clauses_faults names.now (plain_clauses (clause.now ∷ []))) state.old state.new found.old found.new) }
{
    match_patterns(alloc, names, &clause.patterns, state, found)?;
    check_guard(alloc, names, clause, state, found)?;
    check_body(alloc, names, &clause.body, state, found)
}

// The tests of a guard go from left to right. Nothing that they use is bound behind them.
#[cycle(check)]
fn check_guard(
    alloc: Global,
    names: &Names,
    clause: &Clause,
    state: &mut State,
    found: &mut FaultList,
) -> Result<(), NoMemory>
    requires { GuardsOf names.now (plain_guard (out-Clause clause.now).guard.items) }
    ensures { OnOk result (Walks stay (guards_faults names.now (plain_guard (out-Clause clause.now).guard.items)) state.old state.new found.old found.new) }
{
    let start = state.len();
    for tests in &clause.guard {
        check_body(alloc, names, tests, state, found)?;
    }
    state.take_back(start)
}

// A body goes from left to right: what an expression binds is bound in the next.
#[cycle(check)]
fn check_body(
    alloc: Global,
    names: &Names,
    body: &[Expr],
    state: &mut State,
    found: &mut FaultList,
) -> Result<(), NoMemory>
    requires { TreesOf names.now (plain_all body.now) }
    ensures { OnOk result (Walks (body_ways (plain_all body.now)) (body_faults names.now (plain_all body.now)) state.old state.new found.old found.new) }
{
    for expr in body {
        check(alloc, names, expr, state, found)?;
    }
    Ok(())
}

#[cycle(check)]
fn check(
    alloc: Global,
    names: &Names,
    expr: &Expr,
    state: &mut State,
    found: &mut FaultList,
) -> Result<(), NoMemory>
    requires { TreeOf names.now (plain expr.now) }
    ensures { OnOk result (Walks (ways (plain expr.now)) (faults names.now (plain expr.now)) state.old state.new found.old found.new) }
{
    match &expr.node {
        Node::Int(_) | Node::Atom(_) => Ok(()),
        Node::Var(name) => use_name(alloc, names, expr.place, *name, state, found),
        // It is never bound.
        Node::Any => add_unbound(alloc, expr.place, "_", found),
        Node::List { items, tail } => {
            let Some(tail) = tail else {
                return check_all(alloc, names, items, state, found);
            };
            let start = state.len();
            let mut aside = Aside::new(alloc);
            check_all(alloc, names, items, state, found)?;
            state.set_aside(start, &mut aside)?;
            check(alloc, names, tail, state, found)?;
            state.put(&aside)?;
            Ok(())
        }
        Node::Tuple(items) => check_all(alloc, names, items, state, found),
        Node::Match { left, right } => {
            check(alloc, names, right, state, found)?;
            match_pattern(alloc, names, left, state, found)
        }
        Node::Call { target, args } => {
            let start = state.len();
            let mut aside = Aside::new(alloc);
            check(alloc, names, target, state, found)?;
            state.set_aside(start, &mut aside)?;
            check_all(alloc, names, args, state, found)?;
            state.put(&aside)?;
            Ok(())
        }
        Node::Remote {
            module,
            function,
            args,
        } => {
            let start = state.len();
            let mut modules = Aside::new(alloc);
            let mut functions = Aside::new(alloc);
            check(alloc, names, module, state, found)?;
            state.set_aside(start, &mut modules)?;
            check(alloc, names, function, state, found)?;
            state.set_aside(start, &mut functions)?;
            check_all(alloc, names, args, state, found)?;
            state.put(&functions)?;
            state.put(&modules)?;
            Ok(())
        }
        Node::Case { arg, clauses } => {
            check(alloc, names, arg, state, found)?;
            check_clauses(alloc, names, clauses, state, found)
        }
        // The rest is not built.
        _ => Ok(()),
    }
}

// Parts side by side don't see each other's names.
#[cycle(check)]
fn check_all(
    alloc: Global,
    names: &Names,
    exprs: &[Expr],
    state: &mut State,
    found: &mut FaultList,
) -> Result<(), NoMemory>
    requires { TreesOf names.now (plain_all exprs.now) }
    ensures { OnOk result (Walks (side_by_side (plain_all exprs.now)) (all_faults names.now (plain_all exprs.now)) state.old state.new found.old found.new) }
{
    let start = state.len();
    let mut others = Aside::new(alloc);
    for expr in exprs {
        state.set_aside(start, &mut others)?;
        check(alloc, names, expr, state, found)?;
    }
    state.put(&others)?;
    Ok(())
}

// Behind a use the name counts as bound.
fn use_name(
    alloc: Global,
    names: &Names,
    place: Place,
    name: Name,
    state: &mut State,
    found: &mut FaultList,
) -> Result<(), NoMemory>
    requires { HasName names.now name }
    ensures { OnOk result (Walks (bind (one_name name)) (use_faults names.now place name) state.old state.new found.old found.new) }
{
    check_use(alloc, names, place, name, state, found)?;
    state.raise(name.index, Mark::Safe)?;
    Ok(())
}
