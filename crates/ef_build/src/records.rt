// Records and settings of their fields.
ghost use Rattle.std.specs.Prelude.{◌≡◌, IfOk};
ghost use Rattle.ef_grammar.specs.Shown.{acted};
ghost use Rattle.ef_build.specs.Expressions as e;
ghost use Rattle.ef_build.specs.Values.{shown};

use crate::leaf::field_name;
use crate::stack::Read;
use crate::value::{Fields, Value};
use ef_forms::{FieldSet, Node};
use std::alloc::{AllocError, Global};

/// `#name{fields}`
#[tactic(auto, using(crate::proofs::Tops::laws, crate::proofs::Shapes::laws))]
pub fn record_new(read: &mut Read) -> Result<bool, AllocError>
    ensures { IfOk result (λ ok. acted ok (shown read.new) ≡ e.record_new (shown read.old)) }
{
    let Some(fields) = read.pop_fields() else {
        return Ok(false);
    };
    let Some(_open) = read.pop_at() else {
        drop(fields);
        return Ok(false);
    };
    let Some((name, _)) = read.pop_atom() else {
        drop(fields);
        return Ok(false);
    };
    let Some(start) = read.pop_at() else {
        drop(fields);
        return Ok(false);
    };
    let node = Node::RecordNew {
        name,
        fields: fields.fields,
    };
    read.made(fields.nest, start, start, node)
}

/// `#name.field`
#[tactic(auto, using(crate::proofs::Tops::laws, crate::proofs::Shapes::laws))]
pub fn record_index(read: &mut Read) -> Result<bool, AllocError>
    ensures { IfOk result (λ ok. acted ok (shown read.new) ≡ e.record_index (shown read.old)) }
{
    let Some((field, _)) = read.pop_atom() else {
        return Ok(false);
    };
    let Some((name, _)) = read.pop_atom() else {
        return Ok(false);
    };
    let Some(start) = read.pop_at() else {
        return Ok(false);
    };
    read.made(0, start, start, Node::RecordIndex { name, field })
}

/// `target#name{fields}`
#[tactic(auto, using(crate::proofs::Tops::laws, crate::proofs::Shapes::laws))]
pub fn record_update(alloc: Global, read: &mut Read) -> Result<bool, AllocError>
    ensures { IfOk result (λ ok. acted ok (shown read.new) ≡ e.record_update (shown read.old)) }
{
    let Some(fields) = read.pop_fields() else {
        return Ok(false);
    };
    let Some(_open) = read.pop_at() else {
        drop(fields);
        return Ok(false);
    };
    let Some((name, _)) = read.pop_atom() else {
        drop(fields);
        return Ok(false);
    };
    let Some(_hash) = read.pop_at() else {
        drop(fields);
        return Ok(false);
    };
    let Some(target) = read.pop_operand() else {
        drop(fields);
        return Ok(false);
    };
    let parts = target.nest.max(fields.nest);
    let start = target.start;
    let node = Node::RecordUpdate {
        target: Box::new(alloc, target.expr)?,
        name,
        fields: fields.fields,
    };
    read.made(parts, start, start, node)
}

/// `target#name.field`
#[tactic(auto, using(crate::proofs::Tops::laws, crate::proofs::Shapes::laws))]
pub fn record_field(alloc: Global, read: &mut Read) -> Result<bool, AllocError>
    ensures { IfOk result (λ ok. acted ok (shown read.new) ≡ e.record_field (shown read.old)) }
{
    let Some((field, _)) = read.pop_atom() else {
        return Ok(false);
    };
    let Some((name, _)) = read.pop_atom() else {
        return Ok(false);
    };
    let Some(_hash) = read.pop_at() else {
        return Ok(false);
    };
    let Some(target) = read.pop_operand() else {
        return Ok(false);
    };
    let (nest, start) = (target.nest, target.start);
    let target = Box::new(alloc, target.expr)?;
    let node = Node::RecordField {
        target,
        name,
        field,
    };
    read.made(nest, start, start, node)
}

/// No settings yet.
#[tactic(auto, using(crate::proofs::Tops::laws, crate::proofs::Shapes::laws))]
pub fn no_fields(alloc: Global, read: &mut Read) -> Result<bool, AllocError>
    ensures { IfOk result (λ ok. acted ok (shown read.new) ≡ e.no_fields (shown read.old)) }
{
    read.put(Value::Fields(Fields {
        fields: Vec::new(alloc),
        nest: 0,
    }))
}

/// One more setting.
#[tactic(auto, using(crate::proofs::Tops::laws, crate::proofs::Shapes::laws))]
pub fn field(read: &mut Read) -> Result<bool, AllocError>
    ensures { IfOk result (λ ok. acted ok (shown read.new) ≡ e.field (shown read.old)) }
{
    let Some(value) = read.pop_operand() else {
        return Ok(false);
    };
    let Some((leaf, place)) = read.pop_leaf() else {
        drop(value);
        return Ok(false);
    };
    let Some(mut fields) = read.pop_fields() else {
        drop(value);
        drop(leaf);
        return Ok(false);
    };
    let Some(field) = field_name(leaf) else {
        drop(value);
        drop(fields);
        return Ok(false);
    };
    let nest = value.nest;
    fields.fields.push(FieldSet {
        place,
        field,
        value: value.expr,
    })?;
    fields.nest = fields.nest.max(nest);
    read.put(Value::Fields(fields))
}
