// What an attribute and the heads of a function may not have.
ghost use Rattle.std.specs.Prelude.{◌≡◌, OnOk};
ghost use Rattle.std.specs.List.{flat_map};
ghost use Rattle.ef_forms.specs.Nodes.{form_nodes};
ghost use Rattle.ef_forms.specs.Plain.{plain, plain_form};
ghost use Rattle.ef_forms.specs.Shown.{shown};
ghost use Rattle.ef_forms.specs.Views as v;
ghost use Rattle.ef_profile.specs.Adds.{Adds};
ghost use Rattle.ef_profile.specs.Unbuilt as u;

use crate::add::{add_if, add_too_many};
use crate::unbuilt::add_heads;
use ef_base::codes::NOT_IN_PROFILE;
use ef_base::{FaultList, Name, Names, NoMemory, Place};
use ef_forms::{Expr, Form, FunctionRef, Seen, atom};
use std::alloc::Global;

/// Adds the faults of the form that are none of its nodes, which are these.
#[tactic(auto, using(crate::proofs::Adding::adds_none, ef_forms::proofs::Views::shown_heads))]
pub fn add_own(
    alloc: Global,
    names: &Names,
    place: Place,
    form: &Form,
    nodes: &[Seen<'_>],
    found: &mut FaultList,
) -> Result<(), NoMemory>
    requires { shown nodes.now ≡ form_nodes (plain_form form.now) }
    ensures { OnOk result (Adds (u.own_faults names.now place (plain_form form.now)) found.old found.new) }
{
    match form {
        Form::Export(references) => add_references(alloc, references, found),
        Form::Import { functions, .. } => add_references(alloc, functions, found),
        Form::Attribute { name, .. } => add_attribute(alloc, names, place, *name, nodes, found),
        Form::FunctionOf(function) => add_heads(alloc, &function.clauses, found),
        Form::ModuleName(_) | Form::RecordOf(_) | Form::Dropped | Form::ExportAll => Ok(()),
    }
}

fn add_references(
    alloc: Global,
    references: &[FunctionRef],
    found: &mut FaultList,
) -> Result<(), NoMemory>
    ensures { OnOk result (Adds (flat_map u.reference_faults references.now) found.old found.new) }
{
    for reference in references {
        add_reference(alloc, reference, found)?;
    }
    Ok(())
}

fn add_reference(
    alloc: Global,
    reference: &FunctionRef,
    found: &mut FaultList,
) -> Result<(), NoMemory>
    ensures { OnOk result (Adds (u.reference_faults reference.now) found.old found.new) }
{
    add_too_many(alloc, reference.place, reference.arity as usize, found)
}

fn add_attribute(
    alloc: Global,
    names: &Names,
    place: Place,
    name: Name,
    nodes: &[Seen<'_>],
    found: &mut FaultList,
) -> Result<(), NoMemory>
    ensures { OnOk result (Adds (u.attribute_faults names.now place name (shown nodes.now)) found.old found.new) }
{
    let word = names.text_of(name);
    let is_fault = word == "on_load"
        || word == "compile" && mentions(names, "parse_transform", nodes);
    add_if(alloc, is_fault, place, NOT_IN_PROFILE, found)
}

/// Whether an atom of this text stands among the nodes.
pub fn mentions(names: &Names, word: &str, nodes: &[Seen<'_>]) -> bool
    ensures { result ≡ u.mentions names.now word.now (shown nodes.now) }
{
    for seen in nodes {
        if is_atom_of(names, word, seen.expr) {
            return true;
        }
    }
    false
}

fn is_atom_of(names: &Names, word: &str, expr: &Expr) -> bool
    ensures { result ≡ u.is_atom_of names.now word.now (v.atom_of (plain expr.now)) }
{
    match atom(expr) {
        Some(name) => names.text_of(name) == word,
        None => false,
    }
}
