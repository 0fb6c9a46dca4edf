//! The trees of Core Erlang, variables that were not drawn before, and the printed layout as a definition.
#![tactic(auto)]

mod depth;
mod env;
mod fresh;
mod layout;
mod let_form;
mod lexeme;
mod literal;
mod lowered;
mod module;
mod tree;
mod weight;

pub use depth::core_depth;
pub use env::{Bind, Env};
pub use fresh::Fresh;
pub use layout::Last;
pub use let_form::{is_let_form, is_simple};
pub use lexeme::{Symbol, Word};
pub use literal::{CoreLit, CoreVar, FName};
pub use lowered::{Lowered, Test};
pub use module::{CoreAttribute, CoreModule};
pub use tree::{CoreClause, CoreDef, CoreExpr, CorePat, CorePatSegment, CoreSegment, LetStep};
pub use weight::core_weight;
