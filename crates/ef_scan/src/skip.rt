// Where cutting begins again behind a fault.
ghost use Rattle.std.specs.Prelude.{List, ℕ, chars, IsTrue, ◌↔◌, ◌≡◌};
ghost use Rattle.ef_token.specs.Lexeme.{EndsForm};
ghost use Rattle.ef_token.specs.ScanFaults.{Skips};
ghost use Rattle.ef_scan.specs.Cursors.{IsBehind, IsInText};

use crate::cursor::Cursor;
use crate::lexeme::ends_form;

/// Behind the next dot that ends a form, or at the end of the text.
pub(crate) fn skip<'a>(at: Cursor<'a>) -> Cursor<'a>
    requires { IsInText at }
    ensures { (front : List ℕ) × IsBehind at.entry result front × Skips front (chars result.rest.now) }
{
    let mut behind = at;
    while let Some(step) = behind.step() {
        behind = step.1;
        if is_end(step.0, behind.rest) {
            return behind;
        }
    }
    behind
}

// Whether this character before this text ends a form.
fn is_end(c: char, rest: &str) -> bool
    ensures { IsTrue result ↔ ((c ≡ 46) × EndsForm (chars rest.now)) }
{
    c == '.' && ends_form(rest)
}
