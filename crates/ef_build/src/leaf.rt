// Tokens that are expressions of their own, and operators.
ghost use Rattle.std.specs.Prelude.{◌≡◌, IfOk, map};
ghost use Rattle.std.specs.Option.{option_map};
ghost use Rattle.ef_grammar.specs.Shown.{acted};
ghost use Rattle.ef_forms.specs.Plain.{plain, plain_node};
ghost use Rattle.ef_build.specs.Constructs as c;
ghost use Rattle.ef_build.specs.Expressions as e;
ghost use Rattle.ef_build.specs.Values.{leaf_of, shown};

use crate::stack::Read;
use crate::value::{Leaf, Operand, Operator, Value};
use ef_base::{Chars, Name, NoMemory};
use ef_forms::{BinaryOp, ClassPart, Expr, Node, UnaryOp};
use std::alloc::AllocError;

/// The token as an expression.
#[tactic(auto, using(crate::proofs::Shapes::laws))]
pub fn leaf_node(leaf: Leaf) -> Node
    ensures { plain_node result ≡ e.leaf_shape (leaf_of leaf) }
{
    match leaf {
        Leaf::Atom(name) => Node::Atom(name),
        Leaf::Var(name) => Node::Var(name),
        Leaf::Any(_name) => Node::Any,
        Leaf::Int(value) => Node::Int(value),
        Leaf::Char(code) => Node::Char(code),
        Leaf::Str(text) => Node::Str(text),
    }
}

/// The operator in front of an operand that this is.
pub fn in_front(operator: Operator) -> Option<UnaryOp>
    ensures { result ≡ e.in_front operator }
{
    match operator {
        Operator::Plus => Some(UnaryOp::Plus),
        Operator::Minus => Some(UnaryOp::Minus),
        Operator::Before(op) => Some(op),
        _ => None,
    }
}

/// The operator between operands that this is.
pub fn between(operator: Operator) -> Option<BinaryOp>
    ensures { result ≡ e.between operator }
{
    match operator {
        Operator::Plus => Some(BinaryOp::Add),
        Operator::Minus => Some(BinaryOp::Sub),
        Operator::Between(op) => Some(op),
        _ => None,
    }
}

/// The integer that this is.
pub fn number_in(leaf: Leaf) -> Option<i128>
    ensures { result ≡ e.number_in (leaf_of leaf) }
{
    match leaf {
        Leaf::Int(value) => Some(value),
        other => {
            drop(other);
            None
        }
    }
}

/// The name of the variable that this is, `_` among them.
pub fn variable_in(leaf: Leaf) -> Option<Name>
    ensures { result ≡ e.variable_in (leaf_of leaf) }
{
    match leaf {
        Leaf::Var(name) => Some(name),
        Leaf::Any(name) => Some(name),
        other => {
            drop(other);
            None
        }
    }
}

/// A number of parameters; a greater one stands as the greatest of 32 bits.
pub fn arity_of(value: i128) -> u32
    ensures { result ≡ e.arity_of value }
{
    match u32::try_from(value) {
        Ok(arity) => arity,
        Err(_) => u32::MAX,
    }
}

/// The name of a field that is set; `_` has none.
pub fn field_name(leaf: Leaf) -> Option<Option<Name>>
    ensures { result ≡ e.field_name (leaf_of leaf) }
{
    match leaf {
        Leaf::Atom(name) => Some(Some(name)),
        Leaf::Any(_name) => Some(None),
        other => {
            drop(other);
            None
        }
    }
}

/// The name of a stack trace; `_` is none.
pub fn trace_name(leaf: Leaf) -> Option<Option<Name>>
    ensures { result ≡ e.trace_name (leaf_of leaf) }
{
    match leaf {
        Leaf::Var(name) => Some(Some(name)),
        Leaf::Any(_name) => Some(None),
        other => {
            drop(other);
            None
        }
    }
}

/// The class of a clause that catches.
pub fn class_of(leaf: Leaf) -> Option<ClassPart>
    ensures { result ≡ c.class_of (leaf_of leaf) }
{
    match leaf {
        Leaf::Atom(name) => Some(ClassPart::Atom(name)),
        Leaf::Var(name) => Some(ClassPart::Var(name)),
        Leaf::Any(_name) => Some(ClassPart::Any),
        other => {
            drop(other);
            None
        }
    }
}

/// The module of `fun module:function/arity`, an atom or a variable.
#[tactic(auto, using(crate::proofs::Shapes::laws))]
pub fn name_node(leaf: Leaf) -> Option<Node>
    ensures { option_map plain_node result ≡ c.name_shape (leaf_of leaf) }
{
    match leaf {
        Leaf::Atom(name) => Some(Node::Atom(name)),
        Leaf::Var(name) => Some(Node::Var(name)),
        Leaf::Any(_name) => Some(Node::Any),
        other => {
            drop(other);
            None
        }
    }
}

// The text that this is.
fn text_in_leaf(leaf: Leaf) -> Option<Chars>
    ensures { result ≡ e.text_in_leaf (leaf_of leaf) }
{
    match leaf {
        Leaf::Str(text) => Some(text),
        other => {
            drop(other);
            None
        }
    }
}

// The text that this expression is.
#[tactic(auto, using(crate::proofs::Shapes::laws))]
fn text_in(expr: Expr) -> Option<Chars>
    ensures { result ≡ e.text_in (plain expr) }
{
    match expr.node {
        Node::Str(text) => Some(text),
        other => {
            drop(other);
            None
        }
    }
}

/// A text behind a text: they are one.
#[tactic(auto, using(crate::proofs::Tops::laws, crate::proofs::Shapes::laws))]
pub fn join(read: &mut Read) -> Result<bool, AllocError>
    ensures { IfOk result (λ ok. acted ok (shown read.new) ≡ e.join (shown read.old)) }
{
    let Some((leaf, _)) = read.pop_leaf() else {
        return Ok(false);
    };
    let Some(before) = read.pop_operand() else {
        drop(leaf);
        return Ok(false);
    };
    let Some(second) = text_in_leaf(leaf) else {
        drop(before);
        return Ok(false);
    };
    let Operand { start, nest, expr } = before;
    let place = expr.place;
    let Some(mut text) = text_in(expr) else {
        return Ok(false);
    };
    match text.extend(second.as_slice()) {
        Ok(()) => {}
        Err(NoMemory) => return Err(AllocError),
    }
    let node = Node::Str(text);
    let expr = Expr { place, node };
    read.put(Value::Operand(Operand { start, nest, expr }))
}
