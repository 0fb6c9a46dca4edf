//! Lowers patterns to Core patterns and tests, and tests to guards.
#![tactic(auto)]

mod draws;
mod guards;
mod nodes;
mod patterns;

pub use draws::draw;
pub use guards::{guard, word};
pub use patterns::pattern;
