// What has clauses, and funs that are named.
ghost use Rattle.std.specs.Prelude.{◌≡◌, IfOk};
ghost use Rattle.ef_grammar.specs.Shown.{acted};
ghost use Rattle.std.specs.Prelude.{map};
ghost use Rattle.ef_forms.specs.Plain.{plain, plain_clause, plain_maybe_body, plain_maybe_clauses, plain_node};
ghost use Rattle.ef_build.specs.Constructs as c;
ghost use Rattle.ef_build.specs.Values.{shown};

use crate::leaf::{arity_of, name_node, number_in};
use crate::stack::{Read, boxed, deeper};
use crate::value::{Head, Steps, Value};
use ef_forms::{Clause, Expr, MaybeStep, Node};
use std::alloc::{AllocError, Global};

/// `if clauses end`
#[tactic(auto, using(crate::proofs::Tops::laws, crate::proofs::Shapes::laws))]
pub fn if_of(read: &mut Read) -> Result<bool, AllocError>
    ensures { IfOk result (λ ok. acted ok (shown read.new) ≡ c.if_of (shown read.old)) }
{
    let Some(clauses) = read.pop_clauses() else {
        return Ok(false);
    };
    let Some(start) = read.pop_at() else {
        drop(clauses);
        return Ok(false);
    };
    let node = Node::If(clauses.clauses);
    read.made(clauses.nest, start, start, node)
}

/// `case arg of clauses end`
#[tactic(auto, using(crate::proofs::Tops::laws, crate::proofs::Shapes::laws))]
pub fn case_of(alloc: Global, read: &mut Read) -> Result<bool, AllocError>
    ensures { IfOk result (λ ok. acted ok (shown read.new) ≡ c.case_of (shown read.old)) }
{
    let Some(clauses) = read.pop_clauses() else {
        return Ok(false);
    };
    let Some(arg) = read.pop_operand() else {
        drop(clauses);
        return Ok(false);
    };
    let Some(start) = read.pop_at() else {
        drop(clauses);
        drop(arg);
        return Ok(false);
    };
    let parts = arg.nest.max(clauses.nest);
    let node = Node::Case {
        arg: Box::new(alloc, arg.expr)?,
        clauses: clauses.clauses,
    };
    read.made(parts, start, start, node)
}

/// `receive clauses end`
#[tactic(auto, using(crate::proofs::Tops::laws, crate::proofs::Shapes::laws))]
pub fn receive_of(read: &mut Read) -> Result<bool, AllocError>
    ensures { IfOk result (λ ok. acted ok (shown read.new) ≡ c.receive_of (shown read.old)) }
{
    let Some(clauses) = read.pop_clauses() else {
        return Ok(false);
    };
    let Some(start) = read.pop_at() else {
        drop(clauses);
        return Ok(false);
    };
    let node = Node::Receive {
        clauses: clauses.clauses,
        timeout: None,
    };
    read.made(clauses.nest, start, start, node)
}

/// `receive clauses after time -> body end`
#[tactic(auto, using(crate::proofs::Tops::laws, crate::proofs::Shapes::laws))]
pub fn receive_after(alloc: Global, read: &mut Read) -> Result<bool, AllocError>
    ensures { IfOk result (λ ok. acted ok (shown read.new) ≡ c.receive_after (shown read.old)) }
{
    let Some(body) = read.pop_items() else {
        return Ok(false);
    };
    let Some(time) = read.pop_operand() else {
        drop(body);
        return Ok(false);
    };
    let Some(clauses) = read.pop_clauses() else {
        drop(body);
        drop(time);
        return Ok(false);
    };
    let Some(start) = read.pop_at() else {
        drop(body);
        drop(time);
        drop(clauses);
        return Ok(false);
    };
    let parts = clauses.nest.max(time.nest).max(body.nest);
    let timeout = Box::new(alloc, (time.expr, body.exprs))?;
    let node = Node::Receive {
        clauses: clauses.clauses,
        timeout: Some(timeout),
    };
    read.made(parts, start, start, node)
}

// A fun is named where its first clause is.
#[tactic(auto, using(crate::proofs::Shapes::laws))]
fn fun_node(first: Option<Head>, clauses: Vec<Clause>) -> Node
    ensures { plain_node result ≡ c.fun_shape first (map plain_clause clauses.items) }
{
    match first {
        Some(
            Head {
                name: Some(name),
                ..
            },
        ) => Node::NamedFun { name, clauses },
        _ => Node::Fun(clauses),
    }
}

/// `fun clauses end`
#[tactic(auto, using(crate::proofs::Tops::laws, crate::proofs::Shapes::laws))]
pub fn fun_of(read: &mut Read) -> Result<bool, AllocError>
    ensures { IfOk result (λ ok. acted ok (shown read.new) ≡ c.fun_of (shown read.old)) }
{
    let Some(clauses) = read.pop_clauses() else {
        return Ok(false);
    };
    let Some(start) = read.pop_at() else {
        drop(clauses);
        return Ok(false);
    };
    let node = fun_node(clauses.first, clauses.clauses);
    read.made(clauses.nest, start, start, node)
}

/// `fun name/arity`
#[tactic(auto, using(crate::proofs::Tops::laws, crate::proofs::Shapes::laws))]
pub fn fun_local(read: &mut Read) -> Result<bool, AllocError>
    ensures { IfOk result (λ ok. acted ok (shown read.new) ≡ c.fun_local (shown read.old)) }
{
    let Some((arity, _)) = read.pop_leaf() else {
        return Ok(false);
    };
    let Some(_slash) = read.pop_operator() else {
        drop(arity);
        return Ok(false);
    };
    let Some((name, _)) = read.pop_atom() else {
        drop(arity);
        return Ok(false);
    };
    let Some(none) = read.pop_clauses() else {
        drop(arity);
        return Ok(false);
    };
    let Some(start) = read.pop_at() else {
        drop(arity);
        drop(none);
        return Ok(false);
    };
    let Some(arity) = number_in(arity) else {
        drop(none);
        return Ok(false);
    };
    let arity = arity_of(arity);
    read.made(0, start, start, Node::FunLocal { name, arity })
}

/// `fun module:function/arity`
#[tactic(auto, using(crate::proofs::Tops::laws, crate::proofs::Shapes::laws))]
pub fn fun_remote(alloc: Global, read: &mut Read) -> Result<bool, AllocError>
    ensures { IfOk result (λ ok. acted ok (shown read.new) ≡ c.fun_remote (shown read.old)) }
{
    let Some(arity) = read.pop_operand() else {
        return Ok(false);
    };
    let Some(_slash) = read.pop_operator() else {
        drop(arity);
        return Ok(false);
    };
    let Some(function) = read.pop_operand() else {
        drop(arity);
        return Ok(false);
    };
    let Some((leaf, place)) = read.pop_leaf() else {
        drop(arity);
        drop(function);
        return Ok(false);
    };
    let Some(none) = read.pop_clauses() else {
        drop(arity);
        drop(function);
        drop(leaf);
        return Ok(false);
    };
    let Some(start) = read.pop_at() else {
        drop(arity);
        drop(function);
        drop(leaf);
        drop(none);
        return Ok(false);
    };
    let Some(node) = name_node(leaf) else {
        drop(arity);
        drop(function);
        drop(none);
        return Ok(false);
    };
    let parts = function.nest.max(1).max(arity.nest);
    let (function, arity) = boxed(alloc, function.expr, arity.expr)?;
    let node = Node::FunRemote {
        module: Box::new(alloc, Expr { place, node })?,
        function,
        arity,
    };
    read.made(parts, start, start, node)
}

#[tactic(auto, using(crate::proofs::Shapes::laws))]
fn some_clauses(clauses: Vec<Clause>) -> Option<Vec<Clause>>
    ensures { plain_maybe_clauses result ≡ c.some_clauses (map plain_clause clauses.items) }
{
    if clauses.is_empty() {
        return None;
    }
    Some(clauses)
}

#[tactic(auto, using(crate::proofs::Shapes::laws))]
fn some_body(exprs: Vec<Expr>) -> Option<Vec<Expr>>
    ensures { plain_maybe_body result ≡ c.some_body (map plain exprs.items) }
{
    if exprs.is_empty() {
        return None;
    }
    Some(exprs)
}

/// `try body of clauses catch catches after body end`
#[tactic(auto, using(crate::proofs::Tops::laws, crate::proofs::Shapes::laws))]
pub fn try_of(read: &mut Read) -> Result<bool, AllocError>
    ensures { IfOk result (λ ok. acted ok (shown read.new) ≡ c.try_of (shown read.old)) }
{
    let Some(after) = read.pop_items() else {
        return Ok(false);
    };
    let Some(catches) = read.pop_catches() else {
        drop(after);
        return Ok(false);
    };
    let Some(clauses) = read.pop_clauses() else {
        drop(after);
        drop(catches);
        return Ok(false);
    };
    let Some(body) = read.pop_items() else {
        drop(after);
        drop(catches);
        drop(clauses);
        return Ok(false);
    };
    let Some(start) = read.pop_at() else {
        drop(after);
        drop(catches);
        drop(clauses);
        drop(body);
        return Ok(false);
    };
    let tried = body.nest.max(clauses.nest);
    let parts = tried.max(catches.nest.max(after.nest));
    let node = Node::Try {
        body: body.exprs,
        of_clauses: some_clauses(clauses.clauses),
        catches: catches.clauses,
        after_body: some_body(after.exprs),
    };
    read.made(parts, start, start, node)
}

/// No steps yet.
#[tactic(auto, using(crate::proofs::Tops::laws, crate::proofs::Shapes::laws))]
pub fn no_steps(alloc: Global, read: &mut Read) -> Result<bool, AllocError>
    ensures { IfOk result (λ ok. acted ok (shown read.new) ≡ c.no_steps (shown read.old)) }
{
    read.put(Value::Steps(Steps {
        steps: Vec::new(alloc),
        levels: 0,
        nest: 0,
    }))
}

/// One more step.
#[tactic(auto, using(crate::proofs::Tops::laws, crate::proofs::Shapes::laws))]
pub fn step(read: &mut Read) -> Result<bool, AllocError>
    ensures { IfOk result (λ ok. acted ok (shown read.new) ≡ c.step (shown read.old)) }
{
    let Some(value) = read.pop_operand() else {
        return Ok(false);
    };
    let Some(mut steps) = read.pop_steps() else {
        drop(value);
        return Ok(false);
    };
    steps.nest = steps.nest.max(deeper(steps.levels, value.nest));
    steps.steps.push(MaybeStep {
        pattern: None,
        value: value.expr,
    })?;
    read.put(Value::Steps(steps))
}

/// One more step with a pattern.
#[tactic(auto, using(crate::proofs::Tops::laws, crate::proofs::Shapes::laws))]
pub fn step_match(read: &mut Read) -> Result<bool, AllocError>
    ensures { IfOk result (λ ok. acted ok (shown read.new) ≡ c.step_match (shown read.old)) }
{
    let Some(value) = read.pop_operand() else {
        return Ok(false);
    };
    let Some(pattern) = read.pop_operand() else {
        drop(value);
        return Ok(false);
    };
    let Some(mut steps) = read.pop_steps() else {
        drop(value);
        drop(pattern);
        return Ok(false);
    };
    let nest = pattern.nest.max(value.nest);
    steps.nest = steps.nest.max(deeper(steps.levels, nest));
    steps.levels = deeper(steps.levels, 1);
    steps.steps.push(MaybeStep {
        pattern: Some(pattern.expr),
        value: value.expr,
    })?;
    read.put(Value::Steps(steps))
}

/// `maybe steps else clauses end`
#[tactic(auto, using(crate::proofs::Tops::laws, crate::proofs::Shapes::laws))]
pub fn maybe_of(read: &mut Read) -> Result<bool, AllocError>
    ensures { IfOk result (λ ok. acted ok (shown read.new) ≡ c.maybe_of (shown read.old)) }
{
    let Some(clauses) = read.pop_clauses() else {
        return Ok(false);
    };
    let Some(steps) = read.pop_steps() else {
        drop(clauses);
        return Ok(false);
    };
    let Some(start) = read.pop_at() else {
        drop(clauses);
        drop(steps);
        return Ok(false);
    };
    let parts = steps.nest.max(clauses.nest);
    let node = Node::Maybe {
        steps: steps.steps,
        else_clauses: some_clauses(clauses.clauses),
    };
    read.made(parts, start, start, node)
}
