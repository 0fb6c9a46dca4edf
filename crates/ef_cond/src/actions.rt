// What actions make of the stack.
ghost use Rattle.std.specs.Prelude.{◌≡◌, IfOk};
ghost use Rattle.ef_grammar.specs.Shown.{acted};
ghost use Rattle.ef_cond.specs.Actions as s;
ghost use Rattle.ef_cond.specs.Values.{shown};

use crate::operators as on;
use crate::stack::Read;
use std::alloc::AllocError;

/// A value in parentheses, which are a level.
pub fn parens(read: &mut Read<'_>) -> Result<bool, AllocError>
    ensures { IfOk result (λ ok. acted ok (shown read.new) ≡ s.parens (shown read.old)) }
{
    let Some(inside) = read.pop_operand() else {
        return Ok(false);
    };
    read.made(inside.nest, inside.value)
}

/// An operator in front of its operand.
pub fn unary(read: &mut Read<'_>) -> Result<bool, AllocError>
    ensures { IfOk result (λ ok. acted ok (shown read.new) ≡ s.unary (shown read.old)) }
{
    let Some(operand) = read.pop_operand() else {
        return Ok(false);
    };
    let Some(operator) = read.pop_operator() else {
        return Ok(false);
    };
    read.made(operand.nest, on::in_front(operator, operand.value))
}

/// An operator between its operands.
pub fn binary(read: &mut Read<'_>) -> Result<bool, AllocError>
    ensures { IfOk result (λ ok. acted ok (shown read.new) ≡ s.binary (shown read.old)) }
{
    let Some(right) = read.pop_operand() else {
        return Ok(false);
    };
    let Some(operator) = read.pop_operator() else {
        return Ok(false);
    };
    let Some(left) = read.pop_operand() else {
        return Ok(false);
    };
    let parts = left.nest.max(right.nest);
    read.made(parts, on::between(operator, left.value, right.value))
}

/// `left andalso right`
pub fn and_also(read: &mut Read<'_>) -> Result<bool, AllocError>
    ensures { IfOk result (λ ok. acted ok (shown read.new) ≡ s.and_also (shown read.old)) }
{
    let Some(right) = read.pop_operand() else {
        return Ok(false);
    };
    let Some(left) = read.pop_operand() else {
        return Ok(false);
    };
    let parts = left.nest.max(right.nest);
    read.made(parts, on::and_also(left.value, right.value))
}

/// `left orelse right`
pub fn or_else(read: &mut Read<'_>) -> Result<bool, AllocError>
    ensures { IfOk result (λ ok. acted ok (shown read.new) ≡ s.or_else (shown read.old)) }
{
    let Some(right) = read.pop_operand() else {
        return Ok(false);
    };
    let Some(left) = read.pop_operand() else {
        return Ok(false);
    };
    let parts = left.nest.max(right.nest);
    read.made(parts, on::or_else(left.value, right.value))
}
