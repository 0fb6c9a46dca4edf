// What operators make of values.
ghost use Rattle.std.specs.Prelude.{◌≡◌};
ghost use Rattle.ef_cond.specs.Operators as o;
ghost use Rattle.ef_cond.specs.Values.{value_of};

use crate::numbers::{quotient, ranged, remainder};
use crate::shifts::{shifted_left, shifted_right};
use crate::value::{Operator, Value};
use ef_base::codes;
use std::cmp::Ordering;

// Of operands of another kind.
fn wrong<'a>() -> Value<'a>
    ensures { value_of result ≡ o.wrong }
{
    Value::Fails(codes::CONDITION_FAILS)
}

// ---- order

fn text<'a>(value: Value<'a>) -> &'a str
    ensures { result.now ≡ o.text (value_of value.entry) }
{
    match value {
        Value::Truth(true) => "true",
        Value::Truth(false) => "false",
        Value::Atom(text) => text,
        _ => "",
    }
}

fn compared(left: Value<'_>, right: Value<'_>) -> Ordering
    ensures { result ≡ o.compared (value_of left.entry) (value_of right.entry) }
{
    match (left, right) {
        (Value::Number(left), Value::Number(right)) => left.cmp(&right),
        (Value::Number(_), _) => Ordering::Less,
        (_, Value::Number(_)) => Ordering::Greater,
        _ => text(left).cmp(text(right)),
    }
}

// ---- between two operands

fn on_values<'a>(operator: Operator, left: Value<'a>, right: Value<'a>) -> Value<'a>
    ensures { value_of result ≡ o.on_values operator (value_of left.entry) (value_of right.entry) }
{
    match operator {
        Operator::Equal => Value::Truth(compared(left, right).is_eq()),
        Operator::NotEqual => Value::Truth(compared(left, right).is_ne()),
        Operator::Less => Value::Truth(compared(left, right).is_lt()),
        Operator::AtMost => Value::Truth(compared(left, right).is_le()),
        Operator::Greater => Value::Truth(compared(left, right).is_gt()),
        Operator::AtLeast => Value::Truth(compared(left, right).is_ge()),
        _ => wrong(),
    }
}

fn on_numbers<'a>(operator: Operator, left: i128, right: i128) -> Value<'a>
    ensures { value_of result ≡ o.on_numbers operator left right }
{
    match operator {
        Operator::Plus => ranged(left.checked_add(right)),
        Operator::Minus => ranged(left.checked_sub(right)),
        Operator::Times => ranged(left.checked_mul(right)),
        Operator::Div => quotient(left, right),
        Operator::Rem => remainder(left, right),
        Operator::Band => Value::Number(left & right),
        Operator::Bor => Value::Number(left | right),
        Operator::Bxor => Value::Number(left ^ right),
        Operator::Bsl => shifted_left(left, right),
        Operator::Bsr => shifted_right(left, right),
        _ => on_values(operator, Value::Number(left), Value::Number(right)),
    }
}

fn on_truths<'a>(operator: Operator, left: bool, right: bool) -> Value<'a>
    ensures { value_of result ≡ o.on_truths operator left right }
{
    match operator {
        Operator::And => Value::Truth(left && right),
        Operator::Or => Value::Truth(left || right),
        Operator::Xor => Value::Truth(left != right),
        _ => on_values(operator, Value::Truth(left), Value::Truth(right)),
    }
}

/// What an operator between these values makes of them.
pub fn between<'a>(operator: Operator, left: Value<'a>, right: Value<'a>) -> Value<'a>
    ensures { value_of result ≡ o.between operator (value_of left.entry) (value_of right.entry) }
{
    match (left, right) {
        (Value::Fails(_), _) => left,
        (_, Value::Fails(_)) => right,
        (Value::Number(left), Value::Number(right)) => on_numbers(operator, left, right),
        (Value::Truth(left), Value::Truth(right)) => on_truths(operator, left, right),
        _ => on_values(operator, left, right),
    }
}

// ---- in front of one operand

/// What an operator in front of this value makes of it.
pub fn in_front<'a>(operator: Operator, value: Value<'a>) -> Value<'a>
    ensures { value_of result ≡ o.in_front operator (value_of value.entry) }
{
    match (operator, value) {
        (_, Value::Fails(_)) => value,
        (Operator::Plus, Value::Number(_)) => value,
        (Operator::Minus, Value::Number(number)) => ranged(number.checked_neg()),
        (Operator::Bnot, Value::Number(number)) => Value::Number(!number),
        (Operator::Not, Value::Truth(truth)) => Value::Truth(!truth),
        _ => wrong(),
    }
}

// ---- where the left side may decide

/// `left andalso right`
pub fn and_also<'a>(left: Value<'a>, right: Value<'a>) -> Value<'a>
    ensures { value_of result ≡ o.and_also (value_of left.entry) (value_of right.entry) }
{
    match left {
        Value::Truth(true) => right,
        Value::Truth(false) | Value::Fails(_) => left,
        _ => wrong(),
    }
}

/// `left orelse right`
pub fn or_else<'a>(left: Value<'a>, right: Value<'a>) -> Value<'a>
    ensures { value_of result ≡ o.or_else (value_of left.entry) (value_of right.entry) }
{
    match left {
        Value::Truth(false) => right,
        Value::Truth(true) | Value::Fails(_) => left,
        _ => wrong(),
    }
}
