// Shifts of numbers.
ghost use Rattle.std.specs.Prelude.{◌≡◌, ◌^◌, pos, ◌*ℤ◌, FitsSigned};
ghost use Rattle.std.specs.Int.{int_shr, w128};
ghost use Rattle.std.specs.Option.{SomeIff};
ghost use Rattle.ef_cond.specs.Numbers as n;
ghost use Rattle.ef_cond.specs.Values.{value_of};

use crate::numbers::ranged;
use crate::value::Value;

// The number times so many twos.
fn times_power(number: i128, count: u128) -> Option<i128>
    ensures { SomeIff result (FitsSigned w128 (number *ℤ pos (2 ^ count))) (number *ℤ pos (2 ^ count)) }
{
    if number == 0 {
        return Some(0);
    }
    if count < 127 {
        return number.checked_mul(1 << count);
    }
    if count == 127 && number == -1 {
        return Some(i128::MIN);
    }
    None
}

// The number divided by so many twos, rounded down.
fn over_power(number: i128, count: u128) -> i128
    ensures { result ≡ int_shr number count }
{
    if count < 127 {
        return number >> count;
    }
    number >> 127
}

fn left<'a>(number: i128, count: u128) -> Value<'a>
    ensures { value_of result ≡ n.left number count }
{
    ranged(times_power(number, count))
}

fn right<'a>(number: i128, count: u128) -> Value<'a>
    ensures { value_of result ≡ n.right number count }
{
    Value::Number(over_power(number, count))
}

/// The number shifted to the left; a count below zero shifts it to the right.
pub fn shifted_left<'a>(number: i128, count: i128) -> Value<'a>
    ensures { value_of result ≡ n.shifted_left number count }
{
    if count < 0 {
        right(number, count.unsigned_abs())
    } else {
        left(number, count.unsigned_abs())
    }
}

/// The number shifted to the right; a count below zero shifts it to the left.
pub fn shifted_right<'a>(number: i128, count: i128) -> Value<'a>
    ensures { value_of result ≡ n.shifted_right number count }
{
    if count < 0 {
        left(number, count.unsigned_abs())
    } else {
        right(number, count.unsigned_abs())
    }
}
