// What the tree of a form may not have.
ghost use Rattle.std.specs.Borrow.{Bor};
ghost use Rattle.std.specs.Prelude.{◌≡◌, ℕ, List, OnOk, map};
ghost use Rattle.std.specs.List.{flat_map, list_any};
ghost use Rattle.ef_forms.specs.Plain.{plain, plain_form};
ghost use Rattle.ef_forms.specs.Shown.{show, show_head, show_segment, shown};
ghost use Rattle.ef_profile.specs.Adds.{Adds};
ghost use Rattle.ef_profile.specs.Unbuilt as u;

use crate::add::{add_if, add_too_many};
use crate::attributes::add_own;
use ef_base::codes::{FLOAT_OPERATION, MAP_FUNCTION, SIZE_EXPRESSION, UTF_SEGMENT};
use ef_base::{FaultList, Name, Names, NoMemory, Place};
use ef_forms::{
    BinaryOp, Called, Clause, Expr, Form, FunctionName, Node, Role, Seen, Segment, TypeWord,
    arguments, call_by_name, form_nodes, fun_clauses, fun_name, operator, segments,
};
use std::alloc::Global;

/// Adds the faults of the form that is spelled, which stands at this place. There is room for this many nodes at first: the
/// number of its tokens is a good one.
#[tactic(auto, using(crate::proofs::Adding::adds_then))]
pub fn add_tree_faults(
    alloc: Global,
    names: &Names,
    place: Place,
    form: &Form,
    room: usize,
    found: &mut FaultList,
) -> Result<(), NoMemory>
    ensures { OnOk result (Adds (u.tree_faults names.now place (plain_form form.now)) found.old found.new) }
{
    let mut nodes = Vec::with_capacity(alloc, room)?;
    form_nodes(form, &mut nodes)?;
    add_own(alloc, names, place, form, &nodes, found)?;
    add_nodes(alloc, names, &nodes, found)
}

fn add_nodes(
    alloc: Global,
    names: &Names,
    nodes: &[Seen<'_>],
    found: &mut FaultList,
) -> Result<(), NoMemory>
    ensures { OnOk result (Adds (flat_map (u.node_faults names.now) (shown nodes.now)) found.old found.new) }
{
    for seen in nodes {
        add_node(alloc, names, seen, found)?;
    }
    Ok(())
}

// Adds what the rules find at the node.
#[tactic(auto, using(crate::proofs::Adding::adds_then))]
fn add_node(
    alloc: Global,
    names: &Names,
    seen: &Seen<'_>,
    found: &mut FaultList,
) -> Result<(), NoMemory>
    ensures { OnOk result (Adds (u.node_faults names.now (show seen.now)) found.old found.new) }
{
    add_operation(alloc, names, seen.expr, found)?;
    add_map_function(alloc, names, seen.expr, found)?;
    add_segments(alloc, names, segments(seen.expr), found)?;
    add_size(alloc, seen, found)?;
    add_arguments(alloc, seen.expr, found)
}

// ---- operators and functions of floats and maps

const FLOAT_FUNCTIONS: [(&str, usize); 5] = [
    ("float", 1),
    ("round", 1),
    ("trunc", 1),
    ("ceil", 1),
    ("floor", 1),
];

const MAP_FUNCTIONS: [(&str, usize); 3] = [("map_size", 1), ("map_get", 2), ("is_map_key", 2)];

#[tactic(auto, using(crate::proofs::Places::placed))]
fn add_operation(
    alloc: Global,
    names: &Names,
    expr: &Expr,
    found: &mut FaultList,
) -> Result<(), NoMemory>
    ensures { OnOk result (Adds (u.float_faults names.now (plain expr.now)) found.old found.new) }
{
    let is_fault = is_division(operator(expr))
        || is_call_of(&FLOAT_FUNCTIONS, names, call_by_name(expr));
    add_if(alloc, is_fault, expr.place, FLOAT_OPERATION, found)
}

#[tactic(auto, using(crate::proofs::Places::placed))]
fn add_map_function(
    alloc: Global,
    names: &Names,
    expr: &Expr,
    found: &mut FaultList,
) -> Result<(), NoMemory>
    ensures { OnOk result (Adds (u.map_faults names.now (plain expr.now)) found.old found.new) }
{
    let is_fault = is_call_of(&MAP_FUNCTIONS, names, call_by_name(expr));
    add_if(alloc, is_fault, expr.place, MAP_FUNCTION, found)
}

fn is_division(operator: Option<BinaryOp>) -> bool
    ensures { result ≡ u.is_division operator }
{
    match operator {
        Some(BinaryOp::Slash) => true,
        _ => false,
    }
}

// Whether the call is of one of these functions, also with the module `erlang`.
fn is_call_of(functions: &[(&str, usize)], names: &Names, called: Option<Called>) -> bool
    ensures { result ≡ u.is_call_of (map (λ (e : Bor (List ℕ) × ℕ). (e.0.now, e.1)) functions.now) names.now called }
{
    match called {
        Some(called) => {
            is_at_home(names, called.home)
                && is_one_of(functions, names.text_of(called.name), called.arity)
        }
        None => false,
    }
}

fn is_at_home(names: &Names, home: Option<Name>) -> bool
    ensures { result ≡ u.is_at_home names.now home }
{
    match home {
        Some(home) => names.text_of(home) == "erlang",
        None => true,
    }
}

fn is_one_of(functions: &[(&str, usize)], name: &str, arity: usize) -> bool
    ensures { result ≡ u.is_function_of (map (λ (e : Bor (List ℕ) × ℕ). (e.0.now, e.1)) functions.now) name.now arity }
{
    for (text, count) in functions {
        if name == *text && arity == *count {
            return true;
        }
    }
    false
}

// ---- segments

fn add_segments(
    alloc: Global,
    names: &Names,
    segments: &[Segment],
    found: &mut FaultList,
) -> Result<(), NoMemory>
    ensures { OnOk result (Adds (flat_map (u.segment_faults names.now) (map show_segment segments.now)) found.old found.new) }
{
    for segment in segments {
        add_segment(alloc, names, segment, found)?;
    }
    Ok(())
}

fn add_segment(
    alloc: Global,
    names: &Names,
    segment: &Segment,
    found: &mut FaultList,
) -> Result<(), NoMemory>
    ensures { OnOk result (Adds (u.segment_faults names.now (show_segment segment.now)) found.old found.new) }
{
    let is_fault = has_utf(names, &segment.types);
    add_if(alloc, is_fault, segment.place, UTF_SEGMENT, found)
}

fn has_utf(names: &Names, types: &[TypeWord]) -> bool
    ensures { result ≡ list_any (u.is_utf names.now) types.now }
{
    for word in types {
        if is_utf(names.text_of(word.name)) {
            return true;
        }
    }
    false
}

fn is_utf(word: &str) -> bool
    ensures { result ≡ u.is_utf_word word.now }
{
    word == "utf8" || word == "utf16" || word == "utf32"
}

#[tactic(auto, using(crate::proofs::Places::placed))]
fn add_size(alloc: Global, seen: &Seen<'_>, found: &mut FaultList) -> Result<(), NoMemory>
    ensures { OnOk result (Adds (u.size_faults seen.now.role (plain seen.now.expr.now)) found.old found.new) }
{
    let is_fault = is_pattern_size(seen.role) && !is_plain_size(seen.expr);
    add_if(alloc, is_fault, seen.expr.place, SIZE_EXPRESSION, found)
}

fn is_pattern_size(role: Role) -> bool
    ensures { result ≡ u.is_pattern_size role }
{
    match role {
        Role::PatternSize => true,
        _ => false,
    }
}

// Whether the size is an integer or a variable.
#[tactic(auto, using(ef_forms::proofs::Plain::laws))]
fn is_plain_size(expr: &Expr) -> bool
    ensures { result ≡ u.is_plain_size (plain expr.now) }
{
    match &expr.node {
        Node::Int(_) => true,
        Node::Var(_) => true,
        _ => false,
    }
}

// ---- numbers of parameters and arguments

#[tactic(auto, using(crate::proofs::Adding::adds_then, crate::proofs::Places::placed))]
fn add_arguments(alloc: Global, expr: &Expr, found: &mut FaultList) -> Result<(), NoMemory>
    ensures { OnOk result (Adds (u.argument_faults (plain expr.now)) found.old found.new) }
{
    add_call(alloc, expr.place, arguments(expr), found)?;
    add_named(alloc, expr.place, fun_name(expr), found)?;
    add_heads(alloc, fun_clauses(expr), found)
}

#[tactic(auto, using(crate::proofs::Adding::adds_none))]
fn add_call(
    alloc: Global,
    place: Place,
    count: Option<usize>,
    found: &mut FaultList,
) -> Result<(), NoMemory>
    ensures { OnOk result (Adds (u.call_faults place count) found.old found.new) }
{
    match count {
        Some(count) => add_too_many(alloc, place, count, found),
        None => Ok(()),
    }
}

#[tactic(auto, using(crate::proofs::Adding::adds_none))]
fn add_named(
    alloc: Global,
    place: Place,
    name: Option<FunctionName>,
    found: &mut FaultList,
) -> Result<(), NoMemory>
    ensures { OnOk result (Adds (u.named_faults place name) found.old found.new) }
{
    match name {
        Some(name) => add_too_many(alloc, place, name.arity as usize, found),
        None => Ok(()),
    }
}

/// Adds the clauses that have too many parameters.
pub fn add_heads(alloc: Global, clauses: &[Clause], found: &mut FaultList) -> Result<(), NoMemory>
    ensures { OnOk result (Adds (flat_map u.head_faults (map show_head clauses.now)) found.old found.new) }
{
    for clause in clauses {
        add_head(alloc, clause, found)?;
    }
    Ok(())
}

fn add_head(alloc: Global, clause: &Clause, found: &mut FaultList) -> Result<(), NoMemory>
    ensures { OnOk result (Adds (u.head_faults (show_head clause.now)) found.old found.new) }
{
    add_too_many(alloc, clause.place, clause.patterns.len(), found)
}
