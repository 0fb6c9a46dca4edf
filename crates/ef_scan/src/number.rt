// Numerals at the front of a text.
ghost use Rattle.std.specs.Prelude.{◌≡◌, ◌≤◌, ◌<◌, ◌*◌, ◌+◌, ℕ, chars, IfSome, IfNone};
ghost use Rattle.ef_base.specs.Characters.{Stops};
ghost use Rattle.ef_token.specs.Numerals.{is_digit_of};
ghost use Rattle.ef_scan.specs.declared.cursor.Cursor.{Cursor};
ghost use Rattle.ef_scan.specs.Cursors.{IsInText};
ghost use Rattle.ef_scan.specs.Numbers.{Halts, IsDigit, IsNext, IsNumber, IsValue};

use crate::cursor::Cursor;

/// The value of a numeral if it lies below 2^127, and the place behind it.
#[derive(Clone, Copy)]
pub(crate) struct Number<'a> {
    pub value: Option<u128>,
    pub behind: Cursor<'a>,
}

/// The value of the digit at a place, and behind it.
pub(crate) fn digit<'a>(at: Cursor<'a>, base: u32) -> Option<(u32, Cursor<'a>)>
    requires least { 2 ≤ base }
    requires most { base ≤ 36 }
    requires in_text { IsInText at }
    ensures some { IfSome result (λ d. IsDigit base at.entry d.0 d.1) }
    ensures none { IfNone result (Stops (is_digit_of base) (chars at.entry.rest.now)) }
{
    let step = at.step()?;
    let digit = step.0.to_digit(base)?;
    Some((digit, step.1))
}

// A digit behind an underscore.
fn underscored<'a>(at: Cursor<'a>, base: u32) -> Option<(u32, Cursor<'a>)>
    requires least { 2 ≤ base }
    requires most { base ≤ 36 }
    requires in_text { IsInText at }
    requires no_digit { Stops (is_digit_of base) (chars at.rest.now) }
    ensures some { IfSome result (λ d. IsNext base at.entry d.0 d.1) }
    ensures none { IfNone result (Halts base (chars at.entry.rest.now)) }
{
    let step = at.step()?;
    if step.0 != '_' {
        return None;
    }
    digit(step.1, base)
}

// What a numeral goes on with.
fn next<'a>(at: Cursor<'a>, base: u32) -> Option<(u32, Cursor<'a>)>
    requires least { 2 ≤ base }
    requires most { base ≤ 36 }
    requires in_text { IsInText at }
    ensures some { IfSome result (λ d. IsNext base at.entry d.0 d.1) }
    ensures none { IfNone result (Halts base (chars at.entry.rest.now)) }
{
    match digit(at, base) {
        Some(found) => Some(found),
        None => underscored(at, base),
    }
}

fn with_digit(value: Option<u128>, base: u32, digit: u32) -> Option<u128>
    requires within { digit < base }
    ensures { (n : ℕ) → IsValue n value → IsValue (base * n + digit) result }
{
    let value = value?
        .checked_mul(u128::from(base))?
        .checked_add(u128::from(digit))?;
    if value < 1 << 127 { Some(value) } else { None }
}

/// The longest numeral to the base at a place.
#[inline(always)]
pub(crate) fn numeral<'a>(at: Cursor<'a>, base: u32) -> Option<Number<'a>>
    requires least { 2 ≤ base }
    requires most { base ≤ 36 }
    requires in_text { IsInText at }
    ensures some { IfSome result (λ n. IsNumber base at.entry n) }
    ensures none { IfNone result (Stops (is_digit_of base) (chars at.entry.rest.now)) }
{
    let first = digit(at, base)?;
    Some(digits_behind(first.0, first.1, base))
}

// The digits behind the first one.
#[inline(never)]
fn digits_behind<'a>(first: u32, at: Cursor<'a>, base: u32) -> Number<'a>
    requires least { 2 ≤ base }
    requires most { base ≤ 36 }
    requires digit { (start : Cursor) × IsDigit base start first at }
    ensures { (start : Cursor) → IsDigit base start first at.entry → IsNumber base start result }
{
    let mut value = Some(u128::from(first));
    let mut behind = at;
    while let Some(found) = next(behind, base) {
        value = with_digit(value, base, found.0);
        behind = found.1;
    }
    Number { value, behind }
}
