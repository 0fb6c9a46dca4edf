//! A parser that follows the rows of a grammar. It is proved once, for every grammar whose table is sound.
#![tactic(auto)]

mod given;
mod machine;
mod moves;
mod row;
mod symbols;

pub use given::Grammar;
pub use machine::{Outcome, parse};
pub use row::{Piece, Row, Symbol};
