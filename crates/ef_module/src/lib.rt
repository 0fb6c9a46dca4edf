//! Forms and modules: the tree that the tokens spell, or the faults that refuse it.
#![tactic(auto)]

mod forms;
mod modules;
mod order;
mod refused;

pub use forms::{FormRefusal, form};
pub use modules::module;
