//! The kind of a form, and what the tree of a form may not have: floats, maps, segments and sizes outside the profile, and too
//! many arguments.
#![tactic(auto)]

mod add;
mod attributes;
mod kinds;
mod unbuilt;

pub use add::add_if;
pub use attributes::mentions;
pub use kinds::{kind_of, not_spelled};
pub use unbuilt::add_tree_faults;
