//! Lowers expressions and bodies to Core, in let form.
#![tactic(auto)]

mod append;
mod arms;
mod binds;
mod cases;
mod exports;
mod front;
mod last;
mod lower;
mod matches;
mod nodes;
mod steps;
mod values;

pub use front::{BindingFront, Front, binding_front};
pub use last::last_clause;
pub use lower::{LoweredExpr, body, closed_body, expression};
pub use values::{draw_variables, push_values, together};
