//! The grammar of Erlang by rows, and what tokens make by them.
#![tactic(auto)]

mod classes;
mod construct_rows;
mod erlang;
mod expression_rows;
mod form_rows;
mod look;
mod opened_rows;
mod parts;
mod rows;
mod single;

pub use single::{Single, Start, read_whole};
