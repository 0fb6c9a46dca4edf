//! Tokens of Erlang source: reserved words, symbols and spellings are exactly those of the Reference Manual in this
//! profile.
#![tactic(auto)]

mod class;
mod put;
mod spelling;
mod spelt;
mod token;
mod word;

pub use class::{begins_atom, begins_variable, continues_name};
pub use spelling::spell;
pub use token::{ScannedForm, Token, TokenKind};
pub use word::{Sym, Word, word_of};
