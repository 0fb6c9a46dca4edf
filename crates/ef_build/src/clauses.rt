// Guards and clauses.
ghost use Rattle.std.specs.Prelude.{◌≡◌, IfOk};
ghost use Rattle.ef_grammar.specs.Shown.{acted};
ghost use Rattle.std.specs.Prelude.{map};
ghost use Rattle.ef_base.specs.FaultTable as table;
ghost use Rattle.ef_forms.specs.Plain.{plain_clause};
ghost use Rattle.ef_build.specs.Constructs as c;
ghost use Rattle.ef_build.specs.Values as v;
ghost use Rattle.ef_build.specs.Values.{clauses_of, shown};

use crate::leaf::variable_in;
use crate::lists::put_last;
use crate::stack::Read;
use crate::value::{Clauses, Guard, Head, Items, Value};
use ef_base::codes::{FUN_HEAD_MISMATCH, HEAD_MISMATCH};
use ef_base::{Fault, Name};
use ef_forms::Clause;
use std::alloc::{AllocError, Global};

/// No alternatives yet.
#[tactic(auto, using(crate::proofs::Tops::laws, crate::proofs::Shapes::laws))]
pub fn no_guard(alloc: Global, read: &mut Read) -> Result<bool, AllocError>
    ensures { IfOk result (λ ok. acted ok (shown read.new) ≡ c.no_guard (shown read.old)) }
{
    read.put(Value::Guard(Guard {
        tests: Vec::new(alloc),
        start: None,
        nest: 0,
    }))
}

/// One more alternative.
#[tactic(auto, using(crate::proofs::Tops::laws, crate::proofs::Shapes::laws))]
pub fn add_guard(read: &mut Read) -> Result<bool, AllocError>
    ensures { IfOk result (λ ok. acted ok (shown read.new) ≡ c.add_guard (shown read.old)) }
{
    let Some(tests) = read.pop_items() else {
        return Ok(false);
    };
    let Some(mut guard) = read.pop_guard() else {
        drop(tests);
        return Ok(false);
    };
    put_last(&mut guard.tests, tests.exprs)?;
    guard.start = guard.start.or(tests.start);
    guard.nest = guard.nest.max(tests.nest);
    read.put(Value::Guard(guard))
}

/// No clauses yet.
#[tactic(auto, using(crate::proofs::Tops::laws, crate::proofs::Shapes::laws))]
pub fn no_clauses(alloc: Global, read: &mut Read) -> Result<bool, AllocError>
    ensures { IfOk result (λ ok. acted ok (shown read.new) ≡ c.no_clauses (shown read.old)) }
{
    read.put(Value::Clauses(Clauses {
        clauses: Vec::new(alloc),
        first: None,
        nest: 0,
    }))
}

#[tactic(auto, using(crate::proofs::Tops::laws, crate::proofs::Shapes::laws))]
fn with_clause(
    read: &mut Read,
    mut before: Clauses,
    clause: Clause,
    first: Option<Head>,
    nest: u32,
) -> Result<bool, AllocError>
    ensures { IfOk result (λ ok. acted ok (shown read.new) ≡ c.with_clause (clauses_of before) (plain_clause clause) first nest (shown read.old)) }
{
    put_last(&mut before.clauses, clause)?;
    before.first = first;
    before.nest = before.nest.max(nest);
    read.put(Value::Clauses(before))
}

/// One more clause of one pattern.
#[tactic(auto, using(crate::proofs::Tops::laws, crate::proofs::Shapes::laws))]
pub fn clause(alloc: Global, read: &mut Read) -> Result<bool, AllocError>
    ensures { IfOk result (λ ok. acted ok (shown read.new) ≡ c.clause (shown read.old)) }
{
    let Some(body) = read.pop_items() else {
        return Ok(false);
    };
    let Some(guard) = read.pop_guard() else {
        drop(body);
        return Ok(false);
    };
    let Some(pattern) = read.pop_operand() else {
        drop(body);
        drop(guard);
        return Ok(false);
    };
    let Some(before) = read.pop_clauses() else {
        drop(body);
        drop(guard);
        drop(pattern);
        return Ok(false);
    };
    let nest = pattern.nest.max(guard.nest).max(body.nest);
    let place = pattern.start;
    let mut patterns = Vec::new(alloc);
    put_last(&mut patterns, pattern.expr)?;
    let first = before.first;
    let clause = Clause {
        place,
        patterns,
        guard: guard.tests,
        body: body.exprs,
    };
    with_clause(read, before, clause, first, nest)
}

/// One more clause of `if`.
#[tactic(auto, using(crate::proofs::Tops::laws, crate::proofs::Shapes::laws))]
pub fn if_clause(alloc: Global, read: &mut Read) -> Result<bool, AllocError>
    ensures { IfOk result (λ ok. acted ok (shown read.new) ≡ c.if_clause (shown read.old)) }
{
    let Some(body) = read.pop_items() else {
        return Ok(false);
    };
    let Some(guard) = read.pop_guard() else {
        drop(body);
        return Ok(false);
    };
    let Some(before) = read.pop_clauses() else {
        drop(body);
        drop(guard);
        return Ok(false);
    };
    let Some(place) = guard.start else {
        drop(body);
        drop(guard);
        drop(before);
        return Ok(false);
    };
    let nest = guard.nest.max(body.nest);
    let first = before.first;
    let clause = Clause {
        place,
        patterns: Vec::new(alloc),
        guard: guard.tests,
        body: body.exprs,
    };
    with_clause(read, before, clause, first, nest)
}

fn same_name(first: Option<Name>, second: Option<Name>) -> bool
    ensures { result ≡ c.same_name first second }
{
    match (first, second) {
        (None, None) => true,
        (Some(first), Some(second)) => first.index == second.index,
        _ => false,
    }
}

fn same_head(first: &Head, second: &Head) -> bool
    ensures { result ≡ c.same_head first.now second.now }
{
    same_name(first.name, second.name) && first.arity == second.arity
}

/// What stands behind the head of a clause.
#[derive(Drop)]
struct Behind {
    patterns: Items,
    guard: Guard,
    body: Items,
}

// One more clause of this head. Where it differs from the first one, its fault is noted.
#[tactic(auto, using(crate::proofs::Tops::laws, crate::proofs::Shapes::laws))]
fn headed(
    alloc: Global,
    read: &mut Read,
    code: u16,
    before: Clauses,
    head: Head,
    behind: Behind,
) -> Result<bool, AllocError>
    ensures { IfOk result (λ ok. acted ok (shown read.new) ≡ c.headed code (clauses_of before) head (v.items_of behind.patterns) (v.guard_of behind.guard) (v.items_of behind.body) (shown read.old)) }
{
    let mut first = head;
    if let Some(other) = before.first {
        if !same_head(&other, &head) {
            read.faults.push(Fault::plain(alloc, head.place, code))?;
        }
        first = other;
    }
    let Behind {
        patterns,
        guard,
        body,
    } = behind;
    let nest = patterns.nest.max(guard.nest).max(body.nest);
    let clause = Clause {
        place: head.place,
        patterns: patterns.exprs,
        guard: guard.tests,
        body: body.exprs,
    };
    with_clause(read, before, clause, Some(first), nest)
}

/// One more clause of a fun without a name.
#[tactic(auto, using(crate::proofs::Tops::laws, crate::proofs::Shapes::laws))]
pub fn fun_clause(alloc: Global, read: &mut Read) -> Result<bool, AllocError>
    ensures { IfOk result (λ ok. acted ok (shown read.new) ≡ c.fun_clause (shown read.old)) }
{
    let Some(body) = read.pop_items() else {
        return Ok(false);
    };
    let Some(guard) = read.pop_guard() else {
        drop(body);
        return Ok(false);
    };
    let Some(patterns) = read.pop_items() else {
        drop(body);
        drop(guard);
        return Ok(false);
    };
    let Some(place) = read.pop_at() else {
        drop(body);
        drop(guard);
        drop(patterns);
        return Ok(false);
    };
    let Some(before) = read.pop_clauses() else {
        drop(body);
        drop(guard);
        drop(patterns);
        return Ok(false);
    };
    let arity = patterns.exprs.len();
    let behind = Behind {
        patterns,
        guard,
        body,
    };
    let head = Head {
        place,
        name: None,
        arity,
    };
    headed(alloc, read, FUN_HEAD_MISMATCH, before, head, behind)
}

/// One more clause of a fun with a name.
#[tactic(auto, using(crate::proofs::Tops::laws, crate::proofs::Shapes::laws))]
pub fn named_clause(alloc: Global, read: &mut Read) -> Result<bool, AllocError>
    ensures { IfOk result (λ ok. acted ok (shown read.new) ≡ c.named_clause (shown read.old)) }
{
    let Some(body) = read.pop_items() else {
        return Ok(false);
    };
    let Some(guard) = read.pop_guard() else {
        drop(body);
        return Ok(false);
    };
    let Some(patterns) = read.pop_items() else {
        drop(body);
        drop(guard);
        return Ok(false);
    };
    let Some(_open) = read.pop_at() else {
        drop(body);
        drop(guard);
        drop(patterns);
        return Ok(false);
    };
    let Some((leaf, place)) = read.pop_leaf() else {
        drop(body);
        drop(guard);
        drop(patterns);
        return Ok(false);
    };
    let Some(before) = read.pop_clauses() else {
        drop(body);
        drop(guard);
        drop(patterns);
        drop(leaf);
        return Ok(false);
    };
    let Some(name) = variable_in(leaf) else {
        drop(body);
        drop(guard);
        drop(patterns);
        drop(before);
        return Ok(false);
    };
    let arity = patterns.exprs.len();
    let behind = Behind {
        patterns,
        guard,
        body,
    };
    let head = Head {
        place,
        name: Some(name),
        arity,
    };
    headed(alloc, read, FUN_HEAD_MISMATCH, before, head, behind)
}

/// One more clause of a function.
#[tactic(auto, using(crate::proofs::Tops::laws, crate::proofs::Shapes::laws))]
pub fn function_clause(alloc: Global, read: &mut Read) -> Result<bool, AllocError>
    ensures { IfOk result (λ ok. acted ok (shown read.new) ≡ c.function_clause (shown read.old)) }
{
    let Some(body) = read.pop_items() else {
        return Ok(false);
    };
    let Some(guard) = read.pop_guard() else {
        drop(body);
        return Ok(false);
    };
    let Some(patterns) = read.pop_items() else {
        drop(body);
        drop(guard);
        return Ok(false);
    };
    let Some(_open) = read.pop_at() else {
        drop(body);
        drop(guard);
        drop(patterns);
        return Ok(false);
    };
    let Some((name, place)) = read.pop_atom() else {
        drop(body);
        drop(guard);
        drop(patterns);
        return Ok(false);
    };
    let Some(before) = read.pop_clauses() else {
        drop(body);
        drop(guard);
        drop(patterns);
        return Ok(false);
    };
    let arity = patterns.exprs.len();
    let behind = Behind {
        patterns,
        guard,
        body,
    };
    let head = Head {
        place,
        name: Some(name),
        arity,
    };
    headed(alloc, read, HEAD_MISMATCH, before, head, behind)
}
