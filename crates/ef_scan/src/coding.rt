// Comments that name Latin-1.
ghost use Rattle.std.specs.Prelude.{◌≡◌, ◌==◌, ◌<◌, ◌^◌, ◌↔◌, ◌||◌, ◌++◌, ℕ, List, IfSome, IfNone, IsTrue, length, map, chars, true};
ghost use Rattle.ef_base.specs.Characters.{Stops};
ghost use Rattle.ef_scan.specs.Coding.{cased};
ghost use Rattle.ef_scan.specs.Scan.{HasCoding, IsCodingHere};
ghost use Rattle.ef_scan.specs.Cursors.{IsBehind, IsInText, IsStep};

use crate::class::Class;
use crate::cursor::Cursor;

/// Whether a comment has `coding`, `:` or `=`, and `latin-1`.
pub(crate) fn has_coding(text: &str) -> bool
    requires { length text.now < 2 ^ 32 }
    ensures { IsTrue result ↔ HasCoding (chars text.now) }
{
    let mut at = Cursor::new(text);
    loop {
        if is_coding_here(at) {
            return true;
        }
        let Some(step) = at.step() else {
            return false;
        };
        at = step.1;
    }
}

fn is_coding_here(at: Cursor<'_>) -> bool
    requires { IsInText at }
    ensures { IsTrue result ↔ IsCodingHere (chars at.entry.rest.now) }
{
    let Some(behind) = after_word(at, &['c', 'o', 'd', 'i', 'n', 'g'], false) else {
        return false;
    };
    let before = behind.run(Class::Space);
    let Some(sign) = after_sign(before.behind) else {
        return false;
    };
    let name = sign.run(Class::Space);
    after_word(name.behind, &['l', 'a', 't', 'i', 'n', '-', '1'], true).is_some()
}

// Behind a colon or an equals sign.
fn after_sign(at: Cursor<'_>) -> Option<Cursor<'_>>
    requires { IsInText at }
    ensures some { IfSome result (λ behind. (c : ℕ) × IsStep at.entry c behind × ((c == 58 || c == 61) ≡ true)) }
    ensures none { IfNone result (Stops (λ c. c == 58 || c == 61) (chars at.entry.rest.now)) }
{
    let step = at.step()?;
    if step.0 == ':' || step.0 == '=' {
        Some(step.1)
    } else {
        None
    }
}

// Behind a word, in any case of its letters if it is so asked.
fn after_word<'a>(at: Cursor<'a>, word: &[char], in_any_case: bool) -> Option<Cursor<'a>>
    requires { IsInText at }
    ensures some { IfSome result (λ behind. (front : List ℕ) × IsBehind at.entry behind front × (map (cased in_any_case) front ≡ word.now)) }
    ensures none { IfNone result ((front rest : List ℕ) → chars at.entry.rest.now ≡ front ++ rest → map (cased in_any_case) front ≡ word.now → ⊥) }
{
    let mut behind = at;
    for c in word {
        let step = behind.step()?;
        if letter(step.0, in_any_case) != *c {
            return None;
        }
        behind = step.1;
    }
    Some(behind)
}

fn letter(c: char, in_any_case: bool) -> char
    ensures { result ≡ cased in_any_case c }
{
    if in_any_case {
        c.to_ascii_lowercase()
    } else {
        c
    }
}
