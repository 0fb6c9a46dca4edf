// The source text of a token.
ghost use Rattle.std.specs.Prelude.{◌≡◌, ◌<◌, ◌∷◌, [], ◌++◌, ◌↔◌, IfOk, IfSome, IfNone, IsTrue, List, ℕ, chars, length, IsUtf8};
ghost use Rattle.ef_base.specs.Characters.{BeginsAndGoesOn, Each};
ghost use Rattle.ef_token.specs.Letters as letters;
ghost use Rattle.ef_token.specs.Lexeme.{atom};
ghost use Rattle.ef_token.specs.TokenForm.{KindOf};
ghost use Rattle.ef_token.specs.Spelling.{IsBare, IsSpelling, Keeps, Spells, quoted};
ghost use Rattle.ef_token.specs.ReadsBack.{ReadsBack};

use crate::class::{begins_atom, continues_name};
use crate::put::{put, put_alone, put_escaped};
use crate::spelt::{sym_bytes, word_bytes};
use crate::{Token, TokenKind, word_of};
use ef_base::{Names, NoMemory, first_char};
use itoa::Buffer;

/// Appends the token as source text: integers in decimal, atoms in quotes where they need them, texts with escapes.
/// With a space and a full stop behind it, the text of a scanned token is scanned as that token, unless it is a dot.
/// Of a kind that no text has, as a negative integer, some text is appended.
pub fn spell(token: &Token, names: &Names, into: &mut Vec<u8>) -> Result<(), NoMemory>
    requires { KindOf names.now token.now.kind }
    ensures spells { IfOk result (λ _. Spells names.now token.now.kind into.old.items into.new.items) }
    ensures keeps { Keeps into.old.items into.new.items }
    ensures reads_back { IfOk result (λ _. ReadsBack names.now token.now.kind into.old.items into.new.items) }
{
    spell_kind(&token.kind, names, into)
}

#[tactic(auto, using(crate::proofs::Putting::keeps_then))]
fn spell_kind(kind: &TokenKind, names: &Names, into: &mut Vec<u8>) -> Result<(), NoMemory>
    requires { KindOf names.now kind.now }
    ensures spells { IfOk result (λ _. Spells names.now kind.now into.old.items into.new.items) }
    ensures keeps { Keeps into.old.items into.new.items }
{
    match kind {
        TokenKind::Atom(name) => spell_atom(names.text(*name), into),
        TokenKind::Var(name) => put(into, names.text(*name).as_bytes()),
        TokenKind::Int(value) => {
            let mut buffer = Buffer::new();
            put(into, buffer.format(*value).as_bytes())
        }
        TokenKind::Char(code) => {
            put(into, b"$")?;
            put_alone(into, *code)
        }
        TokenKind::Str(codes) => spell_string(codes.as_slice(), into),
        TokenKind::Word(word) => put(into, word_bytes(*word)),
        TokenKind::Sym(sym) => put(into, sym_bytes(*sym)),
        TokenKind::Dot => put(into, b"."),
    }
}

#[tactic(auto, using(crate::proofs::Putting::keeps_then))]
fn spell_atom(text: &str, into: &mut Vec<u8>) -> Result<(), NoMemory>
    ensures spells { IfOk result (λ _. (bytes : List ℕ) × IsSpelling (atom (chars text.now)) bytes × (into.new.items ≡ into.old.items ++ bytes)) }
    ensures keeps { Keeps into.old.items into.new.items }
{
    if is_bare(text) {
        return put(into, text.as_bytes());
    }
    put(into, b"'")?;
    let mut rest = text;
    while let Some(step) = first_char(rest) {
        put_escaped(into, b'\'', step.0 as u32)?;
        rest = step.1;
    }
    put(into, b"'")
}

#[tactic(auto, using(crate::proofs::Putting::keeps_then))]
fn spell_string(codes: &[u32], into: &mut Vec<u8>) -> Result<(), NoMemory>
    ensures spells { IfOk result (λ _. into.new.items ≡ into.old.items ++ quoted 34 codes.now) }
    ensures keeps { Keeps into.old.items into.new.items }
{
    put(into, b"\"")?;
    for code in codes {
        put_escaped(into, b'"', *code)?;
    }
    put(into, b"\"")
}

// Whether an atom needs no quotes.
fn is_bare(text: &str) -> bool
    ensures { IsTrue result ↔ IsBare (chars text.now) }
{
    if word_of(text).is_some() {
        return false;
    }
    is_name(text)
}

fn is_name(text: &str) -> bool
    ensures { IsTrue result ↔ BeginsAndGoesOn letters.begins_atom letters.continues_name (chars text.now) }
{
    match first_char(text) {
        Some(step) => begins_atom(step.0) && all_continue(step.1),
        None => false,
    }
}

fn all_continue(text: &str) -> bool
    ensures { IsTrue result ↔ Each letters.continues_name (chars text.now) }
{
    let mut rest = text;
    while let Some(step) = first_char(rest) {
        if !continues_name(step.0) {
            return false;
        }
        rest = step.1;
    }
    true
}
