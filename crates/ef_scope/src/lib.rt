//! Uses of names that are not bound on every way: exactly the faults that the rules of scope find.
#![tactic(auto)]

mod check;
mod fault;
mod marks;
mod pattern;
mod state;

pub use check::scope_faults;
