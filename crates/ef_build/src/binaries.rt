// Binaries and comprehensions.
ghost use Rattle.std.specs.Prelude.{◌≡◌, IfOk};
ghost use Rattle.ef_grammar.specs.Shown.{acted};
ghost use Rattle.std.specs.Option.{option_map};
ghost use Rattle.ef_forms.specs.Plain.{plain};
ghost use Rattle.ef_build.specs.Constructs as c;
ghost use Rattle.ef_build.specs.Values.{open_segment_of, qualifiers_of, shown};
ghost use Rattle.ef_build.specs.Parts.{qualifier_part};

use crate::leaf::number_in;
use crate::lists::put_last;
use crate::stack::{Read, deeper};
use crate::value::{OpenSegment, Operator, Qualifiers, Segments, Value};
use ef_forms::{Expr, Node, Qualifier, Segment, TypeWord};
use std::alloc::{AllocError, Global};

/// No segments yet.
#[tactic(auto, using(crate::proofs::Tops::laws, crate::proofs::Shapes::laws))]
pub fn no_segments(alloc: Global, read: &mut Read) -> Result<bool, AllocError>
    ensures { IfOk result (λ ok. acted ok (shown read.new) ≡ c.no_segments (shown read.old)) }
{
    read.put(Value::Segments(Segments {
        segments: Vec::new(alloc),
        nest: 0,
    }))
}

/// `<<segments>>`
#[tactic(auto, using(crate::proofs::Tops::laws, crate::proofs::Shapes::laws))]
pub fn bin(read: &mut Read) -> Result<bool, AllocError>
    ensures { IfOk result (λ ok. acted ok (shown read.new) ≡ c.bin (shown read.old)) }
{
    let Some(segments) = read.pop_segments() else {
        return Ok(false);
    };
    let Some(start) = read.pop_at() else {
        drop(segments);
        return Ok(false);
    };
    let node = Node::Bin(segments.segments);
    read.made(segments.nest, start, start, node)
}

/// A segment begins with its value.
#[tactic(auto, using(crate::proofs::Tops::laws, crate::proofs::Shapes::laws))]
pub fn segment(alloc: Global, read: &mut Read) -> Result<bool, AllocError>
    ensures { IfOk result (λ ok. acted ok (shown read.new) ≡ c.segment (shown read.old)) }
{
    let Some(value) = read.pop_operand() else {
        return Ok(false);
    };
    read.put(Value::OpenSegment(OpenSegment {
        place: value.start,
        value: Box::new(alloc, value.expr)?,
        size: None,
        types: Vec::new(alloc),
        nest: value.nest,
    }))
}

/// The size of the segment.
#[tactic(auto, using(crate::proofs::Tops::laws, crate::proofs::Shapes::laws))]
pub fn size(alloc: Global, read: &mut Read) -> Result<bool, AllocError>
    ensures { IfOk result (λ ok. acted ok (shown read.new) ≡ c.size (shown read.old)) }
{
    let Some(size) = read.pop_operand() else {
        return Ok(false);
    };
    let Some(mut segment) = read.pop_open_segment() else {
        drop(size);
        return Ok(false);
    };
    segment.nest = segment.nest.max(size.nest);
    segment.size = Some(Box::new(alloc, size.expr)?);
    read.put(Value::OpenSegment(segment))
}

#[tactic(auto, using(crate::proofs::Tops::laws, crate::proofs::Shapes::laws))]
fn typed(read: &mut Read, mut segment: OpenSegment, word: TypeWord) -> Result<bool, AllocError>
    ensures { IfOk result (λ ok. acted ok (shown read.new) ≡ c.typed (open_segment_of segment) word (shown read.old)) }
{
    match segment.types.push(word) {
        Ok(()) => read.put(Value::OpenSegment(segment)),
        Err(_) => {
            drop(segment);
            Err(AllocError)
        }
    }
}

/// One more word of the type.
#[tactic(auto, using(crate::proofs::Tops::laws, crate::proofs::Shapes::laws))]
pub fn word(read: &mut Read) -> Result<bool, AllocError>
    ensures { IfOk result (λ ok. acted ok (shown read.new) ≡ c.word (shown read.old)) }
{
    let Some((name, _)) = read.pop_atom() else {
        return Ok(false);
    };
    let Some(_sign) = read.pop_operator() else {
        return Ok(false);
    };
    let Some(segment) = read.pop_open_segment() else {
        return Ok(false);
    };
    typed(read, segment, TypeWord { name, number: None })
}

/// One more word of the type, with a number.
#[tactic(auto, using(crate::proofs::Tops::laws, crate::proofs::Shapes::laws))]
pub fn word_number(read: &mut Read) -> Result<bool, AllocError>
    ensures { IfOk result (λ ok. acted ok (shown read.new) ≡ c.word_number (shown read.old)) }
{
    let Some((number, _)) = read.pop_leaf() else {
        return Ok(false);
    };
    let Some((name, _)) = read.pop_atom() else {
        drop(number);
        return Ok(false);
    };
    let Some(_sign) = read.pop_operator() else {
        drop(number);
        return Ok(false);
    };
    let Some(segment) = read.pop_open_segment() else {
        drop(number);
        return Ok(false);
    };
    let Some(number) = number_in(number) else {
        drop(segment);
        return Ok(false);
    };
    let number = Some(number);
    typed(read, segment, TypeWord { name, number })
}

// What stands in the box, if there is one.
fn unboxed(held: Option<Box<Expr>>) -> Option<Expr>
    ensures { option_map plain result ≡ option_map (λ b. plain b.value) held }
{
    match held {
        Some(held) => Some(Box::into_inner(held)),
        None => None,
    }
}

/// One more segment.
#[tactic(auto, using(crate::proofs::Tops::laws, crate::proofs::Shapes::laws))]
pub fn add_segment(read: &mut Read) -> Result<bool, AllocError>
    ensures { IfOk result (λ ok. acted ok (shown read.new) ≡ c.add_segment (shown read.old)) }
{
    let Some(last) = read.pop_open_segment() else {
        return Ok(false);
    };
    let Some(mut segments) = read.pop_segments() else {
        drop(last);
        return Ok(false);
    };
    let nest = segments.nest.max(last.nest);
    let OpenSegment {
        place,
        value,
        size,
        types,
        ..
    } = last;
    let segment = Segment {
        place,
        value: Box::into_inner(value),
        size: unboxed(size),
        types,
    };
    put_last(&mut segments.segments, segment)?;
    segments.nest = nest;
    read.put(Value::Segments(segments))
}

/// No qualifiers yet.
#[tactic(auto, using(crate::proofs::Tops::laws, crate::proofs::Shapes::laws))]
pub fn no_qualifiers(alloc: Global, read: &mut Read) -> Result<bool, AllocError>
    ensures { IfOk result (λ ok. acted ok (shown read.new) ≡ c.no_qualifiers (shown read.old)) }
{
    read.put(Value::Qualifiers(Qualifiers {
        qualifiers: Vec::new(alloc),
        levels: 0,
        nest: 0,
    }))
}

#[tactic(auto, using(crate::proofs::Tops::laws, crate::proofs::Shapes::laws))]
fn qualified(
    read: &mut Read,
    mut before: Qualifiers,
    qualifier: Qualifier,
    nest: u32,
) -> Result<bool, AllocError>
    ensures { IfOk result (λ ok. acted ok (shown read.new) ≡ c.qualified (qualifiers_of before) (qualifier_part qualifier) nest (shown read.old)) }
{
    put_last(&mut before.qualifiers, qualifier)?;
    before.nest = before.nest.max(deeper(before.levels, nest));
    before.levels = deeper(before.levels, 1);
    read.put(Value::Qualifiers(before))
}

// What an arrow says of its generator.
#[derive(Clone, Copy)]
struct Arrow {
    is_bits: bool,
    strict: bool,
}

fn arrow_of(operator: Operator) -> Option<Arrow>
    ensures { option_map c.generator_of result ≡ c.arrow operator }
{
    let (is_bits, strict) = match operator {
        Operator::ListArrow => (false, false),
        Operator::StrictListArrow => (false, true),
        Operator::BitsArrow => (true, false),
        Operator::StrictBitsArrow => (true, true),
        _ => return None,
    };
    Some(Arrow { is_bits, strict })
}

#[tactic(auto, using(crate::proofs::Parts::laws))]
fn generator(arrow: Arrow, pattern: Expr, source: Expr) -> Qualifier
    ensures { qualifier_part result ≡ c.generator_of arrow (plain pattern) (plain source) }
{
    let strict = arrow.strict;
    if arrow.is_bits {
        Qualifier::BitsFrom {
            pattern,
            source,
            strict,
        }
    } else {
        Qualifier::ListFrom {
            pattern,
            source,
            strict,
        }
    }
}

/// One more generator.
#[tactic(auto, using(crate::proofs::Tops::laws, crate::proofs::Shapes::laws))]
pub fn from(read: &mut Read) -> Result<bool, AllocError>
    ensures { IfOk result (λ ok. acted ok (shown read.new) ≡ c.from (shown read.old)) }
{
    let Some(source) = read.pop_operand() else {
        return Ok(false);
    };
    let Some((operator, _)) = read.pop_operator() else {
        drop(source);
        return Ok(false);
    };
    let Some(pattern) = read.pop_operand() else {
        drop(source);
        return Ok(false);
    };
    let Some(before) = read.pop_qualifiers() else {
        drop(source);
        drop(pattern);
        return Ok(false);
    };
    let Some(arrow) = arrow_of(operator) else {
        drop(source);
        drop(pattern);
        drop(before);
        return Ok(false);
    };
    let nest = pattern.nest.max(source.nest);
    let qualifier = generator(arrow, pattern.expr, source.expr);
    qualified(read, before, qualifier, nest)
}

/// One more filter.
#[tactic(auto, using(crate::proofs::Tops::laws, crate::proofs::Shapes::laws))]
pub fn filter(read: &mut Read) -> Result<bool, AllocError>
    ensures { IfOk result (λ ok. acted ok (shown read.new) ≡ c.filter (shown read.old)) }
{
    let Some(test) = read.pop_operand() else {
        return Ok(false);
    };
    let Some(before) = read.pop_qualifiers() else {
        drop(test);
        return Ok(false);
    };
    qualified(read, before, Qualifier::Filter(test.expr), test.nest)
}

/// `[head || qualifiers]`
#[tactic(auto, using(crate::proofs::Tops::laws, crate::proofs::Shapes::laws))]
pub fn list_comp(alloc: Global, read: &mut Read) -> Result<bool, AllocError>
    ensures { IfOk result (λ ok. acted ok (shown read.new) ≡ c.list_comp (shown read.old)) }
{
    let Some(last) = read.pop_qualifiers() else {
        return Ok(false);
    };
    let Some(head) = read.pop_operand() else {
        drop(last);
        return Ok(false);
    };
    let Some(none) = read.pop_items() else {
        drop(last);
        drop(head);
        return Ok(false);
    };
    let Some(start) = read.pop_at() else {
        drop(last);
        drop(head);
        drop(none);
        return Ok(false);
    };
    let parts = last.nest.max(deeper(last.levels, head.nest));
    let node = Node::ListComp {
        head: Box::new(alloc, head.expr)?,
        qualifiers: last.qualifiers,
    };
    read.made(parts, start, start, node)
}

/// `<<head || qualifiers>>`
#[tactic(auto, using(crate::proofs::Tops::laws, crate::proofs::Shapes::laws))]
pub fn bin_comp(alloc: Global, read: &mut Read) -> Result<bool, AllocError>
    ensures { IfOk result (λ ok. acted ok (shown read.new) ≡ c.bin_comp (shown read.old)) }
{
    let Some(last) = read.pop_qualifiers() else {
        return Ok(false);
    };
    let Some(head) = read.pop_operand() else {
        drop(last);
        return Ok(false);
    };
    let Some(none) = read.pop_segments() else {
        drop(last);
        drop(head);
        return Ok(false);
    };
    let Some(start) = read.pop_at() else {
        drop(last);
        drop(head);
        drop(none);
        return Ok(false);
    };
    let parts = last.nest.max(deeper(last.levels, head.nest));
    let node = Node::BinComp {
        head: Box::new(alloc, head.expr)?,
        qualifiers: last.qualifiers,
    };
    read.made(parts, start, start, node)
}
