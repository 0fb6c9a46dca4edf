//! The parser: it gives the one tree that tokens spell by the rows of the grammar, or says that there is none.
#![tactic(auto)]

mod spelled;

pub use spelled::{FormKind, Spelled, clauses, expression, spelled_form, start_of};
