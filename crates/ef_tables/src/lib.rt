//! What a module defines, exports and imports, and whether it is one that is built.
#![tactic(auto)]

mod built;
mod function_set;
mod module_tables;

pub use built::is_built;
pub use module_tables::tables;
