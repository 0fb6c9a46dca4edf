// Clauses that catch, and the place of their stack trace.
ghost use Rattle.std.specs.Prelude.{◌≡◌, IfOk};
ghost use Rattle.ef_grammar.specs.Shown.{acted};
ghost use Rattle.ef_build.specs.Constructs as c;
ghost use Rattle.ef_build.specs.Expressions as e;
ghost use Rattle.ef_build.specs.Values.{shown, stack, value};

use crate::leaf::{class_of, trace_name};
use crate::stack::Read;
use crate::value::{Catches, Caught, Mark, Value};
use ef_forms::{CatchClause, ClassPart};
use std::alloc::{AllocError, Global};

// Whether the pattern of a clause that catches may end here: in front of it there is nothing but its mark.
#[tactic(auto, using(crate::proofs::Below::below))]
fn at_catch(values: &[Value]) -> bool
    ensures { result ≡ e.at_catch (stack values.now) }
{
    let mut left = values.len();
    while left > 0 {
        left -= 1;
        if let Some(answer) = tells(&values[left]) {
            return answer;
        }
    }
    false
}

// What the last value tells of it.
fn tells(last: &Value) -> Option<bool>
    ensures { result ≡ e.tells (value last.now) }
{
    match last {
        Value::Operand(_) | Value::Operator(_, _) => None,
        Value::Mark(_) => Some(true),
        _ => Some(false),
    }
}

/// Refuses where no stack trace may stand.
#[tactic(auto, using(crate::proofs::Tops::laws, crate::proofs::Shapes::laws))]
pub fn may_trace(read: &mut Read) -> Result<bool, AllocError>
    ensures { IfOk result (λ ok. acted ok (shown read.new) ≡ e.may_trace (shown read.old)) }
{
    Ok(at_catch(&read.values))
}

/// The name of the stack trace.
#[tactic(auto, using(crate::proofs::Tops::laws, crate::proofs::Shapes::laws))]
pub fn trace(read: &mut Read) -> Result<bool, AllocError>
    ensures { IfOk result (λ ok. acted ok (shown read.new) ≡ e.trace (shown read.old)) }
{
    let Some((leaf, _)) = read.pop_leaf() else {
        return Ok(false);
    };
    let Some(name) = trace_name(leaf) else {
        return Ok(false);
    };
    read.trace = name;
    Ok(at_catch(&read.values))
}

/// No clauses that catch yet.
#[tactic(auto, using(crate::proofs::Tops::laws, crate::proofs::Shapes::laws))]
pub fn no_catches(alloc: Global, read: &mut Read) -> Result<bool, AllocError>
    ensures { IfOk result (λ ok. acted ok (shown read.new) ≡ c.no_catches (shown read.old)) }
{
    read.put(Value::Catches(Catches {
        clauses: Vec::new(alloc),
        nest: 0,
    }))
}

/// No class is written.
#[tactic(auto, using(crate::proofs::Tops::laws, crate::proofs::Shapes::laws))]
pub fn unclassed(read: &mut Read) -> Result<bool, AllocError>
    ensures { IfOk result (λ ok. acted ok (shown read.new) ≡ c.unclassed (shown read.old)) }
{
    read.put(Value::Mark(Mark {
        place: None,
        class: ClassPart::LeftOut,
    }))
}

/// The class of the next clause.
#[tactic(auto, using(crate::proofs::Tops::laws, crate::proofs::Shapes::laws))]
pub fn class(read: &mut Read) -> Result<bool, AllocError>
    ensures { IfOk result (λ ok. acted ok (shown read.new) ≡ c.class (shown read.old)) }
{
    let Some((leaf, place)) = read.pop_leaf() else {
        return Ok(false);
    };
    let Some(class) = class_of(leaf) else {
        return Ok(false);
    };
    let place = Some(place);
    read.put(Value::Mark(Mark { place, class }))
}

/// The pattern is read, and with it the stack trace.
#[tactic(auto, using(crate::proofs::Tops::laws, crate::proofs::Shapes::laws))]
pub fn caught_pattern(alloc: Global, read: &mut Read) -> Result<bool, AllocError>
    ensures { IfOk result (λ ok. acted ok (shown read.new) ≡ c.caught_pattern (shown read.old)) }
{
    let Some(pattern) = read.pop_operand() else {
        return Ok(false);
    };
    let Some(mark) = read.pop_mark() else {
        drop(pattern);
        return Ok(false);
    };
    let trace = read.trace;
    read.trace = None;
    read.put(Value::Caught(Caught {
        place: mark.place.unwrap_or(pattern.start),
        class: mark.class,
        pattern: Box::new(alloc, pattern.expr)?,
        trace,
        nest: pattern.nest,
    }))
}

/// One more clause that catches.
#[tactic(auto, using(crate::proofs::Tops::laws, crate::proofs::Shapes::laws))]
pub fn catch_clause(read: &mut Read) -> Result<bool, AllocError>
    ensures { IfOk result (λ ok. acted ok (shown read.new) ≡ c.catch_clause (shown read.old)) }
{
    let Some(body) = read.pop_items() else {
        return Ok(false);
    };
    let Some(guard) = read.pop_guard() else {
        drop(body);
        return Ok(false);
    };
    let Some(front) = read.pop_caught() else {
        drop(body);
        drop(guard);
        return Ok(false);
    };
    let Some(mut catches) = read.pop_catches() else {
        drop(body);
        drop(guard);
        drop(front);
        return Ok(false);
    };
    let nest = front.nest.max(guard.nest).max(body.nest);
    let Caught {
        place,
        class,
        pattern,
        trace,
        ..
    } = front;
    catches.clauses.push(CatchClause {
        place,
        class,
        pattern: Box::into_inner(pattern),
        trace,
        guard: guard.tests,
        body: body.exprs,
    })?;
    catches.nest = catches.nest.max(nest);
    read.put(Value::Catches(catches))
}
