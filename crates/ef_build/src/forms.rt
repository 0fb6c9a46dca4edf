// Forms.
ghost use Rattle.std.specs.Prelude.{◌≡◌, IfOk};
ghost use Rattle.ef_grammar.specs.Shown.{acted};
ghost use Rattle.ef_build.specs.Expressions as e;
ghost use Rattle.ef_build.specs.Forms as f;
ghost use Rattle.ef_build.specs.Values.{shown};

use crate::leaf::{arity_of, number_in};
use crate::stack::Read;
use crate::value::Value;
use ef_forms::{FieldDef, Form, Function, FunctionRef, RecordDef};
use std::alloc::{AllocError, Global};

/// Takes away what has no part in trees.
#[tactic(auto, using(crate::proofs::Tops::laws, crate::proofs::Shapes::laws))]
pub fn forget(read: &mut Read) -> Result<bool, AllocError>
    ensures { IfOk result (λ ok. acted ok (shown read.new) ≡ e.drop (shown read.old)) }
{
    match read.values.pop() {
        Some(value) => {
            drop(value);
            Ok(true)
        }
        None => Ok(false),
    }
}

/// A function, by the head of its first clause.
#[tactic(auto, using(crate::proofs::Tops::laws, crate::proofs::Shapes::laws))]
pub fn function(read: &mut Read) -> Result<bool, AllocError>
    ensures { IfOk result (λ ok. acted ok (shown read.new) ≡ f.function (shown read.old)) }
{
    let Some(clauses) = read.pop_clauses() else {
        return Ok(false);
    };
    let Some(first) = clauses.first else {
        drop(clauses);
        return Ok(false);
    };
    let Some(name) = first.name else {
        drop(clauses);
        return Ok(false);
    };
    let arity = match u32::try_from(first.arity) {
        Ok(arity) => arity,
        Err(_) => u32::MAX,
    };
    read.put(Value::Form(Form::FunctionOf(Function {
        place: first.place,
        name,
        arity,
        clauses: clauses.clauses,
    })))
}

/// No functions are mentioned yet.
#[tactic(auto, using(crate::proofs::Tops::laws, crate::proofs::Shapes::laws))]
pub fn no_references(alloc: Global, read: &mut Read) -> Result<bool, AllocError>
    ensures { IfOk result (λ ok. acted ok (shown read.new) ≡ f.no_references (shown read.old)) }
{
    read.put(Value::References(Vec::new(alloc)))
}

/// One more function that is mentioned.
#[tactic(auto, using(crate::proofs::Tops::laws, crate::proofs::Shapes::laws))]
pub fn reference(read: &mut Read) -> Result<bool, AllocError>
    ensures { IfOk result (λ ok. acted ok (shown read.new) ≡ f.reference (shown read.old)) }
{
    let Some((arity, _)) = read.pop_leaf() else {
        return Ok(false);
    };
    let Some(_slash) = read.pop_operator() else {
        drop(arity);
        return Ok(false);
    };
    let Some((name, place)) = read.pop_atom() else {
        drop(arity);
        return Ok(false);
    };
    let Some(mut references) = read.pop_references() else {
        drop(arity);
        return Ok(false);
    };
    let Some(arity) = number_in(arity) else {
        drop(references);
        return Ok(false);
    };
    let arity = arity_of(arity);
    references.push(FunctionRef { place, name, arity })?;
    read.put(Value::References(references))
}

/// No fields of a record yet.
#[tactic(auto, using(crate::proofs::Tops::laws, crate::proofs::Shapes::laws))]
pub fn no_definitions(alloc: Global, read: &mut Read) -> Result<bool, AllocError>
    ensures { IfOk result (λ ok. acted ok (shown read.new) ≡ f.no_definitions (shown read.old)) }
{
    read.put(Value::Definitions(Vec::new(alloc)))
}

/// One more field of a record.
#[tactic(auto, using(crate::proofs::Tops::laws, crate::proofs::Shapes::laws))]
pub fn definition(read: &mut Read) -> Result<bool, AllocError>
    ensures { IfOk result (λ ok. acted ok (shown read.new) ≡ f.definition (shown read.old)) }
{
    let Some((name, place)) = read.pop_atom() else {
        return Ok(false);
    };
    let Some(mut definitions) = read.pop_definitions() else {
        return Ok(false);
    };
    let default = None;
    definitions.push(FieldDef {
        place,
        name,
        default,
    })?;
    read.put(Value::Definitions(definitions))
}

/// One more field of a record, with the value that it begins with.
#[tactic(auto, using(crate::proofs::Tops::laws, crate::proofs::Shapes::laws))]
pub fn definition_with(read: &mut Read) -> Result<bool, AllocError>
    ensures { IfOk result (λ ok. acted ok (shown read.new) ≡ f.definition_with (shown read.old)) }
{
    let Some(value) = read.pop_operand() else {
        return Ok(false);
    };
    let Some((name, place)) = read.pop_atom() else {
        drop(value);
        return Ok(false);
    };
    let Some(mut definitions) = read.pop_definitions() else {
        drop(value);
        return Ok(false);
    };
    let default = Some(value.expr);
    definitions.push(FieldDef {
        place,
        name,
        default,
    })?;
    read.put(Value::Definitions(definitions))
}

/// `-module(name).`
#[tactic(auto, using(crate::proofs::Tops::laws, crate::proofs::Shapes::laws))]
pub fn module_name(read: &mut Read) -> Result<bool, AllocError>
    ensures { IfOk result (λ ok. acted ok (shown read.new) ≡ f.module_name (shown read.old)) }
{
    let Some((name, _)) = read.pop_atom() else {
        return Ok(false);
    };
    let Some(_open) = read.pop_at() else {
        return Ok(false);
    };
    let Some(_word) = read.pop_atom() else {
        return Ok(false);
    };
    let Some(_minus) = read.pop_operator() else {
        return Ok(false);
    };
    read.put(Value::Form(Form::ModuleName(name)))
}

/// `-export([functions]).`
#[tactic(auto, using(crate::proofs::Tops::laws, crate::proofs::Shapes::laws))]
pub fn export(read: &mut Read) -> Result<bool, AllocError>
    ensures { IfOk result (λ ok. acted ok (shown read.new) ≡ f.export (shown read.old)) }
{
    let Some(references) = read.pop_references() else {
        return Ok(false);
    };
    let Some(_bracket) = read.pop_at() else {
        drop(references);
        return Ok(false);
    };
    let Some(_open) = read.pop_at() else {
        drop(references);
        return Ok(false);
    };
    let Some(_word) = read.pop_atom() else {
        drop(references);
        return Ok(false);
    };
    let Some(_minus) = read.pop_operator() else {
        drop(references);
        return Ok(false);
    };
    read.put(Value::Form(Form::Export(references)))
}

/// `-import(module, [functions]).`
#[tactic(auto, using(crate::proofs::Tops::laws, crate::proofs::Shapes::laws))]
pub fn import(read: &mut Read) -> Result<bool, AllocError>
    ensures { IfOk result (λ ok. acted ok (shown read.new) ≡ f.import (shown read.old)) }
{
    let Some(functions) = read.pop_references() else {
        return Ok(false);
    };
    let Some(_bracket) = read.pop_at() else {
        drop(functions);
        return Ok(false);
    };
    let Some((module, _)) = read.pop_atom() else {
        drop(functions);
        return Ok(false);
    };
    let Some(_open) = read.pop_at() else {
        drop(functions);
        return Ok(false);
    };
    let Some(_word) = read.pop_atom() else {
        drop(functions);
        return Ok(false);
    };
    let Some(_minus) = read.pop_operator() else {
        drop(functions);
        return Ok(false);
    };
    read.put(Value::Form(Form::Import { module, functions }))
}

/// `-record(name, {fields}).`
#[tactic(auto, using(crate::proofs::Tops::laws, crate::proofs::Shapes::laws))]
pub fn record_of(read: &mut Read) -> Result<bool, AllocError>
    ensures { IfOk result (λ ok. acted ok (shown read.new) ≡ f.record_of (shown read.old)) }
{
    let Some(fields) = read.pop_definitions() else {
        return Ok(false);
    };
    let Some(_brace) = read.pop_at() else {
        drop(fields);
        return Ok(false);
    };
    let Some((name, _)) = read.pop_atom() else {
        drop(fields);
        return Ok(false);
    };
    let Some(_open) = read.pop_at() else {
        drop(fields);
        return Ok(false);
    };
    let Some(_word) = read.pop_atom() else {
        drop(fields);
        return Ok(false);
    };
    let Some((_, place)) = read.pop_operator() else {
        drop(fields);
        return Ok(false);
    };
    read.put(Value::Form(Form::RecordOf(RecordDef {
        place,
        name,
        fields,
    })))
}

/// An attribute without a meaning.
#[tactic(auto, using(crate::proofs::Tops::laws, crate::proofs::Shapes::laws))]
pub fn dropped(read: &mut Read) -> Result<bool, AllocError>
    ensures { IfOk result (λ ok. acted ok (shown read.new) ≡ f.dropped (shown read.old)) }
{
    let Some(_word) = read.pop_atom() else {
        return Ok(false);
    };
    let Some(_minus) = read.pop_operator() else {
        return Ok(false);
    };
    read.put(Value::Form(Form::Dropped))
}

/// `-name(term).`
#[tactic(auto, using(crate::proofs::Tops::laws, crate::proofs::Shapes::laws))]
pub fn attribute(read: &mut Read) -> Result<bool, AllocError>
    ensures { IfOk result (λ ok. acted ok (shown read.new) ≡ f.attribute (shown read.old)) }
{
    let Some(constant) = read.pop_operand() else {
        return Ok(false);
    };
    let Some(_open) = read.pop_at() else {
        drop(constant);
        return Ok(false);
    };
    let Some((name, _)) = read.pop_atom() else {
        drop(constant);
        return Ok(false);
    };
    let Some(_minus) = read.pop_operator() else {
        drop(constant);
        return Ok(false);
    };
    let term = constant.expr;
    read.put(Value::Form(Form::Attribute { name, term }))
}
