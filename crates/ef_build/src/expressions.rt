// Expressions of one or a few expressions.
ghost use Rattle.std.specs.Prelude.{◌≡◌, [], ◌∷◌, ◌++◌, IfOk, OnOk};
ghost use Rattle.ef_grammar.specs.Shown.{acted};
ghost use Rattle.ef_build.specs.Expressions as e;
ghost use Rattle.ef_build.specs.Values.{shown};

use crate::leaf::{between, in_front, leaf_node, number_in};
use crate::lists::put_last;
use crate::stack::{Read, boxed};
use crate::value::{Items, Value};
use ef_forms::{Expr, Node};
use std::alloc::{AllocError, Global};

/// A token is an expression.
#[tactic(auto, using(crate::proofs::Tops::laws, crate::proofs::Shapes::laws))]
pub fn on_leaf(read: &mut Read) -> Result<bool, AllocError>
    ensures { IfOk result (λ ok. acted ok (shown read.new) ≡ e.on_leaf (shown read.old)) }
{
    let Some((leaf, place)) = read.pop_leaf() else {
        return Ok(false);
    };
    read.made(0, place, place, leaf_node(leaf))
}

/// An expression in parentheses, which are a level and no part of the tree.
#[tactic(auto, using(crate::proofs::Tops::laws, crate::proofs::Shapes::laws))]
pub fn parens(read: &mut Read) -> Result<bool, AllocError>
    ensures { IfOk result (λ ok. acted ok (shown read.new) ≡ e.parens (shown read.old)) }
{
    let Some(inside) = read.pop_operand() else {
        return Ok(false);
    };
    let Some(start) = read.pop_at() else {
        drop(inside);
        return Ok(false);
    };
    let Expr { place, node } = inside.expr;
    read.made(inside.nest, start, place, node)
}

/// `catch body`
#[tactic(auto, using(crate::proofs::Tops::laws, crate::proofs::Shapes::laws))]
pub fn catching(alloc: Global, read: &mut Read) -> Result<bool, AllocError>
    ensures { IfOk result (λ ok. acted ok (shown read.new) ≡ e.catching (shown read.old)) }
{
    let Some(body) = read.pop_operand() else {
        return Ok(false);
    };
    let Some((_, start)) = read.pop_operator() else {
        drop(body);
        return Ok(false);
    };
    let nest = body.nest;
    let node = Node::Catch(Box::new(alloc, body.expr)?);
    read.made(nest, start, start, node)
}

/// An operator in front of its operand.
#[tactic(auto, using(crate::proofs::Tops::laws, crate::proofs::Shapes::laws))]
pub fn unary(alloc: Global, read: &mut Read) -> Result<bool, AllocError>
    ensures { IfOk result (λ ok. acted ok (shown read.new) ≡ e.unary (shown read.old)) }
{
    let Some(arg) = read.pop_operand() else {
        return Ok(false);
    };
    let Some((operator, start)) = read.pop_operator() else {
        drop(arg);
        return Ok(false);
    };
    let Some(op) = in_front(operator) else {
        drop(arg);
        return Ok(false);
    };
    let nest = arg.nest;
    let arg = Box::new(alloc, arg.expr)?;
    read.made(nest, start, start, Node::Unary { op, arg })
}

/// `left = right`
#[tactic(auto, using(crate::proofs::Tops::laws, crate::proofs::Shapes::laws))]
pub fn matching(alloc: Global, read: &mut Read) -> Result<bool, AllocError>
    ensures { IfOk result (λ ok. acted ok (shown read.new) ≡ e.matching (shown read.old)) }
{
    let Some(right) = read.pop_operand() else {
        return Ok(false);
    };
    let Some(left) = read.pop_operand() else {
        drop(right);
        return Ok(false);
    };
    let parts = left.nest.max(right.nest);
    let start = left.start;
    let (left, right) = boxed(alloc, left.expr, right.expr)?;
    read.made(parts, start, start, Node::Match { left, right })
}

/// `left andalso right`
#[tactic(auto, using(crate::proofs::Tops::laws, crate::proofs::Shapes::laws))]
pub fn and_also(alloc: Global, read: &mut Read) -> Result<bool, AllocError>
    ensures { IfOk result (λ ok. acted ok (shown read.new) ≡ e.and_also (shown read.old)) }
{
    let Some(right) = read.pop_operand() else {
        return Ok(false);
    };
    let Some(left) = read.pop_operand() else {
        drop(right);
        return Ok(false);
    };
    let parts = left.nest.max(right.nest);
    let start = left.start;
    let (left, right) = boxed(alloc, left.expr, right.expr)?;
    read.made(parts, start, start, Node::AndAlso { left, right })
}

/// `left orelse right`
#[tactic(auto, using(crate::proofs::Tops::laws, crate::proofs::Shapes::laws))]
pub fn or_else(alloc: Global, read: &mut Read) -> Result<bool, AllocError>
    ensures { IfOk result (λ ok. acted ok (shown read.new) ≡ e.or_else (shown read.old)) }
{
    let Some(right) = read.pop_operand() else {
        return Ok(false);
    };
    let Some(left) = read.pop_operand() else {
        drop(right);
        return Ok(false);
    };
    let parts = left.nest.max(right.nest);
    let start = left.start;
    let (left, right) = boxed(alloc, left.expr, right.expr)?;
    read.made(parts, start, start, Node::OrElse { left, right })
}

/// An operator between its operands.
#[tactic(auto, using(crate::proofs::Tops::laws, crate::proofs::Shapes::laws))]
pub fn binary(alloc: Global, read: &mut Read) -> Result<bool, AllocError>
    ensures { IfOk result (λ ok. acted ok (shown read.new) ≡ e.binary (shown read.old)) }
{
    let Some(right) = read.pop_operand() else {
        return Ok(false);
    };
    let Some((operator, _)) = read.pop_operator() else {
        drop(right);
        return Ok(false);
    };
    let Some(left) = read.pop_operand() else {
        drop(right);
        return Ok(false);
    };
    let Some(op) = between(operator) else {
        drop(right);
        drop(left);
        return Ok(false);
    };
    let parts = left.nest.max(right.nest);
    let start = left.start;
    let (left, right) = boxed(alloc, left.expr, right.expr)?;
    read.made(parts, start, start, Node::Binary { op, left, right })
}

/// `target(args)`
#[tactic(auto, using(crate::proofs::Tops::laws, crate::proofs::Shapes::laws))]
pub fn call(alloc: Global, read: &mut Read) -> Result<bool, AllocError>
    ensures { IfOk result (λ ok. acted ok (shown read.new) ≡ e.call (shown read.old)) }
{
    let Some(args) = read.pop_items() else {
        return Ok(false);
    };
    let Some(_open) = read.pop_at() else {
        drop(args);
        return Ok(false);
    };
    let Some(target) = read.pop_operand() else {
        drop(args);
        return Ok(false);
    };
    let parts = target.nest.max(args.nest);
    let start = target.start;
    let target = Box::new(alloc, target.expr)?;
    let args = args.exprs;
    read.made(parts, start, start, Node::Call { target, args })
}

/// `module:function(args)`
#[tactic(auto, using(crate::proofs::Tops::laws, crate::proofs::Shapes::laws))]
pub fn remote(alloc: Global, read: &mut Read) -> Result<bool, AllocError>
    ensures { IfOk result (λ ok. acted ok (shown read.new) ≡ e.remote (shown read.old)) }
{
    let Some(args) = read.pop_items() else {
        return Ok(false);
    };
    let Some(_open) = read.pop_at() else {
        drop(args);
        return Ok(false);
    };
    let Some(function) = read.pop_operand() else {
        drop(args);
        return Ok(false);
    };
    let Some(module) = read.pop_operand() else {
        drop(args);
        drop(function);
        return Ok(false);
    };
    let parts = module.nest.max(function.nest).max(args.nest);
    let start = module.start;
    let (module, function) = boxed(alloc, module.expr, function.expr)?;
    let node = Node::Remote {
        module,
        function,
        args: args.exprs,
    };
    read.made(parts, start, start, node)
}

/// No expressions yet.
#[tactic(auto, using(crate::proofs::Tops::laws, crate::proofs::Shapes::laws))]
pub fn none(alloc: Global, read: &mut Read) -> Result<bool, AllocError>
    ensures { IfOk result (λ ok. acted ok (shown read.new) ≡ e.none (shown read.old)) }
{
    read.put(Value::Items(Items {
        exprs: Vec::new(alloc),
        start: None,
        nest: 0,
    }))
}

/// One more expression.
#[tactic(auto, using(crate::proofs::Tops::laws, crate::proofs::Shapes::laws))]
pub fn add(read: &mut Read) -> Result<bool, AllocError>
    ensures { IfOk result (λ ok. acted ok (shown read.new) ≡ e.add (shown read.old)) }
{
    let Some(last) = read.pop_operand() else {
        return Ok(false);
    };
    let Some(mut items) = read.pop_items() else {
        drop(last);
        return Ok(false);
    };
    put_last(&mut items.exprs, last.expr)?;
    items.start = items.start.or(Some(last.start));
    items.nest = items.nest.max(last.nest);
    read.put(Value::Items(items))
}

/// `[items]`
#[tactic(auto, using(crate::proofs::Tops::laws, crate::proofs::Shapes::laws))]
pub fn list(read: &mut Read) -> Result<bool, AllocError>
    ensures { IfOk result (λ ok. acted ok (shown read.new) ≡ e.list (shown read.old)) }
{
    let Some(items) = read.pop_items() else {
        return Ok(false);
    };
    let Some(start) = read.pop_at() else {
        drop(items);
        return Ok(false);
    };
    let node = Node::List {
        items: items.exprs,
        tail: None,
    };
    read.made(items.nest, start, start, node)
}

/// `{items}`
#[tactic(auto, using(crate::proofs::Tops::laws, crate::proofs::Shapes::laws))]
pub fn tuple(read: &mut Read) -> Result<bool, AllocError>
    ensures { IfOk result (λ ok. acted ok (shown read.new) ≡ e.tuple (shown read.old)) }
{
    let Some(items) = read.pop_items() else {
        return Ok(false);
    };
    let Some(start) = read.pop_at() else {
        drop(items);
        return Ok(false);
    };
    let node = Node::Tuple(items.exprs);
    read.made(items.nest, start, start, node)
}

/// `begin body end`
#[tactic(auto, using(crate::proofs::Tops::laws, crate::proofs::Shapes::laws))]
pub fn block(read: &mut Read) -> Result<bool, AllocError>
    ensures { IfOk result (λ ok. acted ok (shown read.new) ≡ e.block (shown read.old)) }
{
    let Some(items) = read.pop_items() else {
        return Ok(false);
    };
    let Some(start) = read.pop_at() else {
        drop(items);
        return Ok(false);
    };
    let node = Node::Block(items.exprs);
    read.made(items.nest, start, start, node)
}

/// `[items | tail]`
#[tactic(auto, using(crate::proofs::Tops::laws, crate::proofs::Shapes::laws))]
pub fn list_to(alloc: Global, read: &mut Read) -> Result<bool, AllocError>
    ensures { IfOk result (λ ok. acted ok (shown read.new) ≡ e.list_to (shown read.old)) }
{
    let Some(tail) = read.pop_operand() else {
        return Ok(false);
    };
    let Some(items) = read.pop_items() else {
        drop(tail);
        return Ok(false);
    };
    let Some(start) = read.pop_at() else {
        drop(tail);
        drop(items);
        return Ok(false);
    };
    let parts = items.nest.max(tail.nest);
    let node = Node::List {
        items: items.exprs,
        tail: Some(Box::new(alloc, tail.expr)?),
    };
    read.made(parts, start, start, node)
}

/// `Name/Arity` in a constant, which is a tuple.
#[tactic(auto, using(crate::proofs::Tops::laws, crate::proofs::Shapes::laws))]
pub fn name_arity(alloc: Global, read: &mut Read) -> Result<bool, AllocError>
    ensures { IfOk result (λ ok. acted ok (shown read.new) ≡ e.name_arity (shown read.old)) }
{
    let Some((arity, at)) = read.pop_leaf() else {
        return Ok(false);
    };
    let Some(_slash) = read.pop_operator() else {
        drop(arity);
        return Ok(false);
    };
    let Some((name, start)) = read.pop_atom() else {
        drop(arity);
        return Ok(false);
    };
    let Some(arity) = number_in(arity) else {
        return Ok(false);
    };
    let mut parts = Vec::new(alloc);
    parts.push(Expr {
        place: start,
        node: Node::Atom(name),
    })?;
    parts.push(Expr {
        place: at,
        node: Node::Int(arity),
    })?;
    read.made(1, start, start, Node::Tuple(parts))
}
