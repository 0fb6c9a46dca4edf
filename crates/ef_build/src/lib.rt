//! Builders of trees: a stack of values, and the actions that take values from it and put trees there. A crate that has the
//! rows of a grammar names the actions; this one knows neither rows nor classes of tokens.
#![tactic(auto)]

mod binaries;
mod catches;
mod clauses;
mod constructs;
mod expressions;
mod forms;
mod leaf;
mod lists;
mod records;
mod stack;
mod tokens;
mod value;

pub use binaries::{
    add_segment, bin, bin_comp, filter, from, list_comp, no_qualifiers, no_segments, segment, size,
    word, word_number,
};
pub use catches::{catch_clause, caught_pattern, class, may_trace, no_catches, trace, unclassed};
pub use clauses::{
    add_guard, clause, fun_clause, function_clause, if_clause, named_clause, no_clauses, no_guard,
};
pub use constructs::{
    case_of, fun_local, fun_of, fun_remote, if_of, maybe_of, no_steps, receive_after, receive_of,
    step, step_match, try_of,
};
pub use expressions::{
    add, and_also, binary, block, call, catching, list, list_to, matching, name_arity, none,
    on_leaf, or_else, parens, remote, tuple, unary,
};
pub use forms::{
    attribute, definition, definition_with, dropped, export, forget, function, import, module_name,
    no_definitions, no_references, record_of, reference,
};
pub use leaf::join;
pub use records::{field, no_fields, record_field, record_index, record_new, record_update};
pub use stack::{MOST_NESTING, Read};
pub use tokens::{is_wildcard, push_token};
pub use value::{
    Catches, Caught, Clauses, Fields, Guard, Head, Items, Leaf, Mark, OpenSegment, Operand,
    Operator, Qualifiers, Segments, Steps, Value,
};
