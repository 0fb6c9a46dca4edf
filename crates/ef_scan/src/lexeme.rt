// The lexeme or the fault at a place, each kind by a function of its own.
ghost use Rattle.std.specs.Prelude.{◌≡◌, ◌∷◌, ◌↔◌, List, ℕ, IfOk, IsTrue, false, chars, length, encode_utf8_all};
ghost use Rattle.ef_token.specs.Letters as letters;
ghost use Rattle.ef_token.specs.Lexeme.{EndsForm};
ghost use Rattle.ef_token.specs.declared.word.Sym.{Sym};
ghost use Rattle.ef_scan.specs.declared.cursor.Cursor.{Cursor};
ghost use Rattle.ef_scan.specs.Cursors.{IsRun, IsStep, IsInText};
ghost use Rattle.ef_token.specs.Sorts.{BeginsAs, sort};
ghost use Rattle.ef_scan.specs.Verdicts.{IsAtomAt, IsVerdict};

use crate::class::{Class, is_white};
use crate::cursor::{Cursor, Run};
use crate::escape::{Written, next_written};
use crate::integer::integer;
use crate::number::numeral;
use crate::quoted::{Inner, inner_text};
use crate::symbol::longest_symbol;
use crate::verdict::{Piece, Verdict};
use ef_base::NoMemory;
use ef_base::codes::{
    ATOM_TOO_LONG, ILLEGAL_CHARACTER, ILLEGAL_ESCAPE, LONE_DOLLAR, SIGIL, TRIPLE_QUOTES,
    UNTERMINATED,
};
use ef_token::{Sym, begins_atom, begins_variable, word_of};
use std::alloc::Global;

// The most characters of an atom.
const MAX_ATOM: usize = 255;

/// What begins at a place with this character, behind which the second place is.
pub(crate) fn lexeme<'a>(
    alloc: Global,
    at: Cursor<'a>,
    first: char,
    behind: Cursor<'a>,
) -> Result<Verdict<'a>, NoMemory>
    requires in_text { IsInText at }
    requires step { IsStep at first behind }
    requires no_gap { letters.begins_gap first ≡ false }
    ensures { IfOk result (λ verdict. IsVerdict at.entry verdict) }
{
    if begins_atom(first) {
        return Ok(atom(at, at.run(Class::Name)));
    }
    if begins_variable(first) {
        return Ok(variable(at, at.run(Class::Name)));
    }
    if first == '\'' {
        return quoted_atom(alloc, at, behind);
    }
    if first == '"' {
        return string(alloc, at, behind);
    }
    if first == '$' {
        return Ok(character(at, behind));
    }
    if let Some(number) = numeral(at, 10) {
        return Ok(integer(number));
    }
    Ok(sign(at, first))
}

// An atom or a reserved word.
fn atom<'a>(at: Cursor<'a>, run: Run<'a>) -> Verdict<'a>
    requires in_text { IsInText at }
    requires begins { BeginsAs 0 (chars at.rest.now) }
    requires run { IsRun letters.continues_name at run.behind run.count }
    ensures { IsVerdict at.entry result }
{
    let name = at.text_to(run.behind);
    if let Some(word) = word_of(name) {
        return Verdict::Found(Piece::Word(word), run.behind);
    }
    if run.count > MAX_ATOM {
        return Verdict::Fault(ATOM_TOO_LONG);
    }
    Verdict::Found(Piece::Atom(name), run.behind)
}

fn variable<'a>(at: Cursor<'a>, run: Run<'a>) -> Verdict<'a>
    requires in_text { IsInText at }
    requires begins { BeginsAs 1 (chars at.rest.now) }
    requires run { IsRun letters.continues_name at run.behind run.count }
    ensures { IsVerdict at.entry result }
{
    let name = at.text_to(run.behind);
    Verdict::Found(Piece::Var(name), run.behind)
}

fn quoted_atom<'a>(
    alloc: Global,
    at: Cursor<'a>,
    behind: Cursor<'a>,
) -> Result<Verdict<'a>, NoMemory>
    requires { IsStep at 39 behind }
    ensures { IfOk result (λ verdict. IsVerdict at.entry verdict) }
{
    match inner_text(alloc, behind, '\'')? {
        Inner::Plain(text, count, end) => Ok(plain_atom(text, count, end)),
        Inner::Legal(found, end) => Ok(atom_of(found, end)),
        Inner::Illegal => Ok(Verdict::Fault(ILLEGAL_ESCAPE)),
        Inner::Open => Ok(Verdict::Fault(UNTERMINATED)),
    }
}

// An atom of this text, of so many characters, in quotes.
fn plain_atom<'a>(text: &'a str, count: usize, end: Cursor<'a>) -> Verdict<'a>
    ensures { (first : Cursor) (cs : List ℕ) → text.now ≡ encode_utf8_all cs → count ≡ length cs → IsAtomAt first cs end.entry → IsVerdict first result }
{
    if count > MAX_ATOM {
        return Verdict::Fault(ATOM_TOO_LONG);
    }
    Verdict::Found(Piece::Atom(text), end)
}

// An atom of these characters in quotes.
fn atom_of<'a>(found: Vec<char>, end: Cursor<'a>) -> Verdict<'a>
    ensures { (first : Cursor) → IsAtomAt first found.items end.entry → IsVerdict first result }
{
    if found.len() > MAX_ATOM {
        return Verdict::Fault(ATOM_TOO_LONG);
    }
    Verdict::Found(Piece::Quoted(found), end)
}

fn string<'a>(alloc: Global, at: Cursor<'a>, behind: Cursor<'a>) -> Result<Verdict<'a>, NoMemory>
    requires { IsStep at 34 behind }
    ensures { IfOk result (λ verdict. IsVerdict at.entry verdict) }
{
    if begins_two_quotes(behind) {
        return Ok(Verdict::Fault(TRIPLE_QUOTES));
    }
    match inner_text(alloc, behind, '"')? {
        Inner::Plain(text, _, end) => Ok(Verdict::Found(Piece::Text(text), end)),
        Inner::Legal(found, end) => Ok(Verdict::Found(Piece::Str(found), end)),
        Inner::Illegal => Ok(Verdict::Fault(ILLEGAL_ESCAPE)),
        Inner::Open => Ok(Verdict::Fault(UNTERMINATED)),
    }
}

fn begins_two_quotes(at: Cursor<'_>) -> bool
    requires { IsInText at }
    ensures { IsTrue result ↔ ((more : List ℕ) × (chars at.entry.rest.now ≡ 34 ∷ 34 ∷ more)) }
{
    match at.after('"') {
        Some(behind) => behind.after('"').is_some(),
        None => false,
    }
}

fn character<'a>(at: Cursor<'a>, behind: Cursor<'a>) -> Verdict<'a>
    requires { IsStep at 36 behind }
    ensures { IsVerdict at.entry result }
{
    if behind.rest.is_empty() {
        return Verdict::Fault(LONE_DOLLAR);
    }
    match next_written(behind) {
        Written::Legal(c, end) => Verdict::Found(Piece::Char(c), end),
        Written::Illegal(_) => Verdict::Fault(ILLEGAL_ESCAPE),
        Written::Ends => Verdict::Fault(ILLEGAL_CHARACTER),
    }
}

// A symbol or the full stop.
fn sign<'a>(at: Cursor<'a>, first: char) -> Verdict<'a>
    requires in_text { IsInText at }
    requires step { (behind : Cursor) × IsStep at first behind }
    requires begins { sort first ≡ 3 }
    ensures { IsVerdict at.entry result }
{
    let Some(symbol) = longest_symbol(at.rest.as_bytes()) else {
        if first == '~' {
            return Verdict::Fault(SIGIL);
        }
        return Verdict::Fault(ILLEGAL_CHARACTER);
    };
    let behind = at.behind(symbol.width);
    if is_full_stop(symbol.sym, behind.rest) {
        return Verdict::Found(Piece::Dot, behind);
    }
    Verdict::Found(Piece::Sym(symbol.sym), behind)
}

// Whether this symbol before this text ends a form.
fn is_full_stop(sym: Sym, rest: &str) -> bool
    ensures { IsTrue result ↔ ((sym ≡ Sym.Period) × EndsForm (chars rest.now)) }
{
    match sym {
        Sym::Period => ends_form(rest),
        _ => false,
    }
}

/// Whether a dot before this text ends a form.
pub(crate) fn ends_form(rest: &str) -> bool
    ensures { IsTrue result ↔ EndsForm (chars rest.now) }
{
    match rest.chars().next() {
        Some(first) => is_white(first) || first == '%',
        None => true,
    }
}
