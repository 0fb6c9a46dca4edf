// The kind of token that a lexeme is.
ghost use Rattle.std.specs.Prelude.{◌≡◌, IfOk, string_bytes, encode_utf8_all, chars};
ghost use Rattle.ef_base.specs.Texts.{AllDiffer, Extends, Texts};
ghost use Rattle.ef_token.specs.Lexeme.{IsKind, Lexeme};
ghost use Rattle.ef_scan.specs.Verdicts.{Holds};

use crate::verdict::Piece;
use ef_base::{Chars, Names, NoMemory};
use ef_token::TokenKind;
use std::alloc::Global;

pub(crate) fn kind_of(
    alloc: Global,
    names: &mut Names,
    piece: Piece<'_>,
) -> Result<TokenKind, NoMemory>
    requires { (l : Lexeme) × Holds piece l }
    ensures kept { Extends names.old names.new }
    ensures differ { AllDiffer names.old → AllDiffer names.new }
    ensures kind { IfOk result (λ kind. (l : Lexeme) → Holds piece.entry l → (all : Texts) → Extends names.new all → IsKind all l kind) }
{
    match piece {
        Piece::Atom(name) => Ok(TokenKind::Atom(names.intern(name)?)),
        Piece::Quoted(found) => {
            let text = text_of(alloc, &found)?;
            Ok(TokenKind::Atom(names.intern(text.as_str())?))
        }
        Piece::Var(name) => Ok(TokenKind::Var(names.intern(name)?)),
        Piece::Int(value) => Ok(TokenKind::Int(value as i128)),
        Piece::Char(c) => Ok(TokenKind::Char(c as u32)),
        Piece::Text(text) => Ok(TokenKind::Str(Chars::from_vec(codes_in(alloc, text)?))),
        Piece::Str(found) => Ok(TokenKind::Str(Chars::from_vec(codes_of(alloc, &found)?))),
        Piece::Word(word) => Ok(TokenKind::Word(word)),
        Piece::Sym(sym) => Ok(TokenKind::Sym(sym)),
        Piece::Dot => Ok(TokenKind::Dot),
    }
}

// The text of these characters.
fn text_of(alloc: Global, found: &[char]) -> Result<String, NoMemory>
    ensures { IfOk result (λ text. string_bytes text ≡ encode_utf8_all found.now) }
{
    let mut text = String::new(alloc);
    for c in found {
        text.push(*c)?;
    }
    Ok(text)
}

// The codes of a text's characters.
fn codes_in(alloc: Global, text: &str) -> Result<Vec<u32>, NoMemory>
    ensures { IfOk result (λ codes. codes.items ≡ chars text.now) }
{
    let mut codes = Vec::with_capacity(alloc, text.len())?;
    for c in text.chars() {
        codes.push(c as u32)?;
    }
    Ok(codes)
}

// The codes of these characters.
fn codes_of(alloc: Global, found: &[char]) -> Result<Vec<u32>, NoMemory>
    ensures { IfOk result (λ codes. codes.items ≡ found.now) }
{
    let mut codes = Vec::new(alloc);
    for c in found {
        codes.push(*c as u32)?;
    }
    Ok(codes)
}
