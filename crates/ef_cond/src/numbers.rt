// Numbers that may be out of range.
ghost use Rattle.std.specs.Prelude.{◌≡◌, ℤ, int_div, int_rem, FitsSigned};
ghost use Rattle.std.specs.Int.{w128};
ghost use Rattle.std.specs.Option.{SomeIff};
ghost use Rattle.ef_cond.specs.Numbers as n;
ghost use Rattle.ef_cond.specs.Values.{value_of};

use crate::value::Value;
use ef_base::codes;

/// The number, if it is in range.
pub fn ranged<'a>(number: Option<i128>) -> Value<'a>
    ensures { (i : ℤ) → SomeIff number (FitsSigned w128 i) i → value_of result ≡ n.ranged i }
{
    match number {
        Some(number) => Value::Number(number),
        None => Value::Fails(codes::OUT_OF_RANGE),
    }
}

/// The quotient, rounded toward zero.
pub fn quotient<'a>(number: i128, by: i128) -> Value<'a>
    ensures { value_of result ≡ n.divided by (n.ranged (int_div number by)) }
{
    if by == 0 {
        return Value::Fails(codes::CONDITION_FAILS);
    }
    ranged(number.checked_div(by))
}

/// The remainder, with the sign of the number.
pub fn remainder<'a>(number: i128, by: i128) -> Value<'a>
    ensures { value_of result ≡ n.divided by (n.ranged (int_rem number by)) }
{
    if by == 0 {
        return Value::Fails(codes::CONDITION_FAILS);
    }
    Value::Number(number.wrapping_rem(by))
}
