//! The value of a condition: what its tokens, already expanded, come to.
#![tactic(auto)]

mod actions;
mod classes;
mod condition_rows;
mod evaluate;
mod language;
mod numbers;
mod opened_rows;
mod operators;
mod parts;
mod rows;
mod shifts;
mod stack;
mod tokens;
mod value;

pub use evaluate::{Verdict, value_of};
