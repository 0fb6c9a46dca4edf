//! Prints a Core module, in exactly the layout that `ef_core` defines. It takes no memory.
#![tactic(auto)]

mod bytes;
mod call;
mod clause;
mod escape;
mod expr;
mod functions;
mod gap;
mod lexeme;
mod literal;
mod module;
mod pattern;
mod segment;
mod vars;

pub use module::print;
