//! Lowers a module to Core.
#![tactic(auto)]

mod clauses;
mod exports;
mod function;
mod info;
mod module;

pub use module::lower;
