// Tokens, and forms as they are scanned.
use crate::{Sym, Word};
use ef_base::{Chars, Fault, Name, Place};

/// What a token is. Characters and texts hold code points.
#[derive(Drop)]
pub enum TokenKind {
    Atom(Name),
    Var(Name),
    Int(i128),
    Char(u32),
    Str(Chars),
    Word(Word),
    Sym(Sym),
    /// The full stop, which ends a form.
    Dot,
}

/// A token with the place of its first character.
#[derive(Drop)]
pub struct Token {
    pub kind: TokenKind,
    pub place: Place,
}

/// The tokens of a form, the full stop last, or the one fault of a form that is not made of lexemes.
#[derive(Drop)]
pub enum ScannedForm {
    Tokens(Vec<Token>),
    Faulty(Fault),
}
