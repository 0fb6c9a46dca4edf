// Characters as they are written behind `$` and in quotes.
ghost use Rattle.std.specs.Prelude.{◌≡◌, ◌<◌, ◌*◌, ◌+◌, ◌==◌, ◌||◌, ℕ, Bool, [], ◌∷◌, chars, IfSome, IfNone, unwrap_or};
ghost use Rattle.ef_base.specs.Characters.{Stops, is_within};
ghost use Rattle.ef_base.specs.Escape.{named};
ghost use Rattle.ef_scan.specs.Cursors.{IsInText, IsStep};
ghost use Rattle.ef_scan.specs.declared.cursor.Cursor.{Cursor};
ghost use Rattle.ef_scan.specs.Escapes.{HasNoEscape, IsCapped, IsEscape, IsEscaped, IsWritten};
ghost use Rattle.ef_scan.specs.Numbers.{IsDigit};
ghost use Rattle.ef_token.specs.Lexeme.{IsIllegalEscape};
ghost use Rattle.ef_token.specs.Numerals.{is_digit_of};

use crate::cursor::Cursor;
use crate::number::digit;

// The least number that is no character's.
const BEYOND: u32 = 0x11_0000;

/// A written character and the place behind it; an illegal escape, and the place behind its first two characters;
/// or the end of the text.
#[derive(Clone, Copy)]
pub(crate) enum Written<'a> {
    Legal(char, Cursor<'a>),
    Illegal(Cursor<'a>),
    Ends,
}

/// The character at a place, where its first is not special.
pub(crate) fn next_written<'a>(at: Cursor<'a>) -> Written<'a>
    requires { IsInText at }
    ensures { (special : ℕ → Bool) → Stops special (chars at.entry.rest.now) → IsWritten special at.entry result }
{
    match at.step() {
        None => Written::Ends,
        Some(step) => {
            if step.0 == '\\' {
                escaped(step.1)
            } else {
                Written::Legal(step.0, step.1)
            }
        }
    }
}

// The character at a place behind `\`.
fn escaped<'a>(at: Cursor<'a>) -> Written<'a>
    requires { IsInText at }
    ensures { IsEscaped at.entry result }
{
    if let Some(first) = digit(at, 8) {
        return octal(first.0, first.1);
    }
    let Some(step) = at.step() else {
        return Written::Ends;
    };
    match by_letter(step.0, step.1) {
        Some(found) => Written::Legal(found.0, found.1),
        None => Written::Illegal(step.1),
    }
}

// Behind `\` and a character that is no octal digit.
fn by_letter<'a>(letter: char, behind: Cursor<'a>) -> Option<(char, Cursor<'a>)>
    requires { (at : Cursor) × IsStep at letter behind }
    ensures some { IfSome result (λ f. (at : Cursor) → IsStep at letter behind.entry → Stops (is_digit_of 8) (chars at.rest.now) → IsEscape [] at f.0 f.1) }
    ensures none { IfNone result (IsIllegalEscape (letter ∷ chars behind.entry.rest.now)) }
{
    if letter == 'x' {
        return hexadecimal(behind);
    }
    if letter == '^' {
        return control(behind);
    }
    Some((named(letter), behind))
}

fn character(code: u32) -> char
    requires { code < 55296 }
    ensures { result ≡ code }
{
    match char::from_u32(code) {
        Some(c) => c,
        None => '\0',
    }
}

// As many octal digits as there are, up to three, behind the first.
fn octal<'a>(first: u32, behind: Cursor<'a>) -> Written<'a>
    requires { (at : Cursor) × IsDigit 8 at first behind }
    ensures { (at : Cursor) → IsDigit 8 at first behind.entry → IsEscaped at result }
{
    let Some(second) = digit(behind, 8) else {
        return Written::Legal(character(first), behind);
    };
    let two = 8 * first + second.0;
    let Some(third) = digit(second.1, 8) else {
        return Written::Legal(character(two), second.1);
    };
    Written::Legal(character(8 * two + third.0), third.1)
}

// Behind `x`, two digits or some in braces.
fn hexadecimal<'a>(at: Cursor<'a>) -> Option<(char, Cursor<'a>)>
    requires { IsInText at }
    ensures some { IfSome result (λ f. IsEscape (120 ∷ []) at.entry f.0 f.1) }
    ensures none { IfNone result (HasNoEscape (120 ∷ []) (chars at.entry.rest.now)) }
{
    let first = at.step()?;
    if first.0 == '{' {
        return braces(first.1);
    }
    two_digits(at)
}

// Behind `x` where no brace follows.
fn two_digits<'a>(at: Cursor<'a>) -> Option<(char, Cursor<'a>)>
    requires in_text { IsInText at }
    requires no_brace { Stops (λ c. c == 123) (chars at.rest.now) }
    ensures some { IfSome result (λ f. IsEscape (120 ∷ []) at.entry f.0 f.1) }
    ensures none { IfNone result (HasNoEscape (120 ∷ []) (chars at.entry.rest.now)) }
{
    let first = digit(at, 16)?;
    let second = digit(first.1, 16)?;
    let code = 16 * first.0 + second.0;
    Some((character(code), second.1))
}

fn with_digit(value: u32, digit: u32) -> u32
    requires { digit < 16 }
    ensures { (n : ℕ) → IsCapped n value → IsCapped (16 * n + digit) result }
{
    if value >= BEYOND {
        return BEYOND;
    }
    let next = 16 * value + digit;
    if next >= BEYOND { BEYOND } else { next }
}

// Behind `x{`.
fn braces<'a>(at: Cursor<'a>) -> Option<(char, Cursor<'a>)>
    requires { IsInText at }
    ensures some { IfSome result (λ f. IsEscape (120 ∷ 123 ∷ []) at.entry f.0 f.1) }
    ensures none { IfNone result (HasNoEscape (120 ∷ 123 ∷ []) (chars at.entry.rest.now)) }
{
    let first = digit(at, 16)?;
    let mut value = first.0;
    let mut behind = first.1;
    while let Some(found) = digit(behind, 16) {
        value = with_digit(value, found.0);
        behind = found.1;
    }
    let close = behind.step()?;
    if close.0 != '}' {
        return None;
    }
    let c = char::from_u32(value)?;
    Some((c, close.1))
}

// Behind `^`.
fn control<'a>(at: Cursor<'a>) -> Option<(char, Cursor<'a>)>
    requires { IsInText at }
    ensures some { IfSome result (λ f. IsEscape (94 ∷ []) at.entry f.0 f.1) }
    ensures none { IfNone result (HasNoEscape (94 ∷ []) (chars at.entry.rest.now)) }
{
    let first = at.step()?;
    if first.0 == '?' {
        return Some(('\u{7f}', first.1));
    }
    if !is_control(first.0) {
        return None;
    }
    Some((character(first.0 as u32 % 32), first.1))
}

// What stands for a control character behind `^`.
fn is_control(c: char) -> bool
    ensures { result ≡ (is_within 64 95 c || is_within 97 122 c) }
{
    '@' <= c && c <= '_' || 'a' <= c && c <= 'z'
}

// What a letter behind `\` stands for.
fn named(letter: char) -> char
    ensures { result ≡ unwrap_or (named letter) letter }
{
    match letter {
        'b' => '\u{8}',
        'd' => '\u{7f}',
        'e' => '\u{1b}',
        'f' => '\u{c}',
        'n' => '\n',
        'r' => '\r',
        's' => ' ',
        't' => '\t',
        'v' => '\u{b}',
        other => other,
    }
}
