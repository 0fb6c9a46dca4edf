//! The trees of Erlang source, the walk over them, what is defined over them, and how deep and how heavy they are.
#![tactic(auto)]

mod expr;
mod form;
mod measure;
mod record;
mod role;
mod tables;
mod view;
mod walk;

pub use expr::{
    BinaryOp, CatchClause, ClassPart, Clause, Expr, FieldSet, MaybeStep, Node, Qualifier, Segment,
    TypeWord, UnaryOp,
};
pub use form::{Form, Function, FunctionRef, Module, PlacedForm};
pub use measure::{depth, weight};
pub use record::{FieldDef, RecordDef};
pub use role::Role;
pub use tables::{FunctionName, Import, Tables};
pub use view::{Called, arguments, atom, call_by_name, fun_clauses, fun_name, operator, segments};
pub use walk::{Seen, form_nodes, function_nodes, nodes, record_nodes};
