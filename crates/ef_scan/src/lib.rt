//! The scanner: a file's bytes to the tokens of its forms and the faults of its faulty ones, and exactly those.
#![tactic(auto)]

mod class;
mod coding;
mod cursor;
mod escape;
mod forms;
mod gathered;
mod integer;
mod kind;
mod lexeme;
mod number;
mod part;
mod quoted;
mod skip;
mod symbol;
mod verdict;

pub use forms::scan;
