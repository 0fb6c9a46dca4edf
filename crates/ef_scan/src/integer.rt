// Integers.
ghost use Rattle.std.specs.Prelude.{◌≡◌, ◌∷◌, ℕ, List, true, ◌↔◌, IsTrue, IfSome, IfNone, chars};
ghost use Rattle.ef_base.specs.Characters.{is_digit};
ghost use Rattle.ef_token.specs.Numerals.{Digits, IsBase, value_of};
ghost use Rattle.ef_scan.specs.declared.cursor.Cursor.{Cursor};
ghost use Rattle.ef_scan.specs.Cursors.{IsBehind, IsInText, IsStep};
ghost use Rattle.ef_scan.specs.Numbers.{IsNumber, IsValue};
ghost use Rattle.ef_scan.specs.Verdicts.{IsIntegerAt, IsVerdict};

use crate::cursor::Cursor;
use crate::number::{Number, digit, numeral};
use crate::verdict::{Piece, Verdict};
use ef_base::codes::{FLOAT, ILLEGAL_BASE, ILLEGAL_NUMBER, INTEGER_TOO_LARGE};

/// What begins with a decimal numeral.
pub(crate) fn integer<'a>(number: Number<'a>) -> Verdict<'a>
    requires { (first : Cursor) × IsNumber 10 first number }
    ensures { (first : Cursor) → IsNumber 10 first number.entry → IsVerdict first result }
{
    if let Some(behind) = number.behind.after('#') {
        return based(number, behind);
    }
    if begins_fraction(number.behind) {
        return Verdict::Fault(FLOAT);
    }
    valued(number.value, number.behind)
}

// Whether a dot and a digit follow.
fn begins_fraction(at: Cursor<'_>) -> bool
    requires { IsInText at }
    ensures { IsTrue result ↔ ((d : ℕ) × (more : List ℕ) × (chars at.entry.rest.now ≡ 46 ∷ d ∷ more) × (is_digit d ≡ true)) }
{
    match at.after('.') {
        Some(behind) => digit(behind, 10).is_some(),
        None => false,
    }
}

// An integer of this value up to this place.
fn valued<'a>(value: Option<u128>, behind: Cursor<'a>) -> Verdict<'a>
    ensures { (first : Cursor) (n : ℕ) → IsIntegerAt first n behind.entry → IsValue n value → IsVerdict first result }
{
    match value {
        Some(value) => Verdict::Found(Piece::Int(value), behind),
        None => Verdict::Fault(INTEGER_TOO_LARGE),
    }
}

// What begins with a decimal numeral and `#`, behind which the place is.
fn based<'a>(number: Number<'a>, behind: Cursor<'a>) -> Verdict<'a>
    requires { (first : Cursor) × IsNumber 10 first number × IsStep number.behind 35 behind }
    ensures { (first : Cursor) → IsNumber 10 first number.entry → IsStep number.entry.behind 35 behind.entry → IsVerdict first result }
{
    let Some(base) = base_of(number.value) else {
        return Verdict::Fault(ILLEGAL_BASE);
    };
    let Some(digits) = numeral(behind, base) else {
        return Verdict::Fault(ILLEGAL_NUMBER);
    };
    valued(digits.value, digits.behind)
}

fn base_of(value: Option<u128>) -> Option<u32>
    ensures some { IfSome result (λ base. IsBase base × ((n : ℕ) → IsValue n value → base ≡ n)) }
    ensures none { IfNone result ((n : ℕ) → IsValue n value → IsBase n → ⊥) }
{
    let value = value?;
    if value < 2 || value > 36 {
        return None;
    }
    Some(value as u32)
}
