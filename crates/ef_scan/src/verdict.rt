// What begins at a place.
use crate::cursor::Cursor;
use ef_token::{Sym, Word};

/// A lexeme. The texts of atoms, of variables and of strings are parts of the one that is scanned where they stand there
/// as they are, without escapes.
#[derive(Drop)]
pub(crate) enum Piece<'a> {
    Atom(&'a str),
    Quoted(Vec<char>),
    Var(&'a str),
    Int(u128),
    Char(char),
    Text(&'a str),
    Str(Vec<char>),
    Word(Word),
    Sym(Sym),
    Dot,
}

/// A lexeme and the place behind it, or the code of a fault.
#[derive(Drop)]
pub(crate) enum Verdict<'a> {
    Found(Piece<'a>, Cursor<'a>),
    Fault(u16),
}
