// The stack of values: taking the last one, and putting one there.
ghost use Rattle.std.specs.Prelude.{◌≡◌, [], IfOk, map};
ghost use Rattle.ef_forms.specs.Plain.{plain_field_def, plain_form, plain_node};
ghost use Rattle.std.specs.Option.{option_map};
ghost use Rattle.ef_grammar.specs.Shown.{acted};
ghost use Rattle.ef_build.specs.Expressions.{top_atom};
ghost use Rattle.ef_build.specs.Stack as s;
ghost use Rattle.ef_build.specs.Stack.{under};
ghost use Rattle.ef_build.specs.Values as v;
ghost use Rattle.ef_build.specs.Values.{shown};

use crate::value::{
    Catches, Caught, Clauses, Fields, Guard, Items, Leaf, Mark, OpenSegment, Operand, Operator,
    Qualifiers, Segments, Steps, Value,
};
use ef_base::{Fault, Name, Place};
use ef_forms::{Expr, FieldDef, Form, FunctionRef, Node};
use std::alloc::{AllocError, Global};

// The greatest nesting.
pub const MOST_NESTING: u32 = 128;

/// What has been read: the values, the last one at the end; the faults of heads that differ from the first of their
/// function or fun; the name of the stack trace, from where it is read to the end of its pattern; and whether something was
/// nested too deep, of which nothing is kept.
#[derive(Drop)]
pub struct Read {
    pub values: Vec<Value>,
    pub faults: Vec<Fault>,
    pub trace: Option<Name>,
    pub deep: bool,
}

// A stack with room for the values of most forms, where memory is there for it.
fn room(alloc: Global) -> Vec<Value>
    ensures { result.items ≡ [] }
{
    match Vec::with_capacity(alloc, 24) {
        Ok(values) => values,
        Err(_) => Vec::new(alloc),
    }
}

#[tactic(auto, using(crate::proofs::Tops::laws, crate::proofs::Shapes::laws))]
impl Read {
    /// Nothing yet.
    pub fn new(alloc: Global) -> Read
        ensures { shown result ≡ s.nothing }
    {
        Read {
            values: room(alloc),
            faults: Vec::new(alloc),
            trace: None,
            deep: false,
        }
    }

    /// The last value, if it is of this kind.
    pub fn pop_at(&mut self) -> Option<Place>
        ensures top { result ≡ s.top_at (shown self.old).values }
        ensures rest { shown self.new ≡ under (shown self.old) }
    {
        match self.values.pop() {
            Some(Value::At(place)) => Some(place),
            Some(other) => {
                drop(other);
                None
            }
            None => None,
        }
    }

    /// The last value, if it is of this kind.
    pub fn pop_operator(&mut self) -> Option<(Operator, Place)>
        ensures top { result ≡ s.top_operator (shown self.old).values }
        ensures rest { shown self.new ≡ under (shown self.old) }
    {
        match self.values.pop() {
            Some(Value::Operator(operator, place)) => Some((operator, place)),
            Some(other) => {
                drop(other);
                None
            }
            None => None,
        }
    }

    /// The last value, if it is of this kind.
    pub fn pop_leaf(&mut self) -> Option<(Leaf, Place)>
        ensures top { option_map (λ l. (v.leaf_of l.0, l.1)) result ≡ s.top_leaf (shown self.old).values }
        ensures rest { shown self.new ≡ under (shown self.old) }
    {
        match self.values.pop() {
            Some(Value::Leaf(leaf, place)) => Some((leaf, place)),
            Some(other) => {
                drop(other);
                None
            }
            None => None,
        }
    }

    /// The last value, if it is of this kind.
    pub fn pop_operand(&mut self) -> Option<Operand>
        ensures top { option_map v.operand_of result ≡ s.top_operand (shown self.old).values }
        ensures rest { shown self.new ≡ under (shown self.old) }
    {
        match self.values.pop() {
            Some(Value::Operand(operand)) => Some(operand),
            Some(other) => {
                drop(other);
                None
            }
            None => None,
        }
    }

    /// The last value, if it is of this kind.
    pub fn pop_items(&mut self) -> Option<Items>
        ensures top { option_map v.items_of result ≡ s.top_items (shown self.old).values }
        ensures rest { shown self.new ≡ under (shown self.old) }
    {
        match self.values.pop() {
            Some(Value::Items(items)) => Some(items),
            Some(other) => {
                drop(other);
                None
            }
            None => None,
        }
    }

    /// The last value, if it is of this kind.
    pub fn pop_guard(&mut self) -> Option<Guard>
        ensures top { option_map v.guard_of result ≡ s.top_guard (shown self.old).values }
        ensures rest { shown self.new ≡ under (shown self.old) }
    {
        match self.values.pop() {
            Some(Value::Guard(guard)) => Some(guard),
            Some(other) => {
                drop(other);
                None
            }
            None => None,
        }
    }

    /// The last value, if it is of this kind.
    pub fn pop_clauses(&mut self) -> Option<Clauses>
        ensures top { option_map v.clauses_of result ≡ s.top_clauses (shown self.old).values }
        ensures rest { shown self.new ≡ under (shown self.old) }
    {
        match self.values.pop() {
            Some(Value::Clauses(clauses)) => Some(clauses),
            Some(other) => {
                drop(other);
                None
            }
            None => None,
        }
    }

    /// The last value, if it is of this kind.
    pub fn pop_mark(&mut self) -> Option<Mark>
        ensures top { result ≡ s.top_mark (shown self.old).values }
        ensures rest { shown self.new ≡ under (shown self.old) }
    {
        match self.values.pop() {
            Some(Value::Mark(mark)) => Some(mark),
            Some(other) => {
                drop(other);
                None
            }
            None => None,
        }
    }

    /// The last value, if it is of this kind.
    pub fn pop_caught(&mut self) -> Option<Caught>
        ensures top { option_map v.caught_of result ≡ s.top_caught (shown self.old).values }
        ensures rest { shown self.new ≡ under (shown self.old) }
    {
        match self.values.pop() {
            Some(Value::Caught(caught)) => Some(caught),
            Some(other) => {
                drop(other);
                None
            }
            None => None,
        }
    }

    /// The last value, if it is of this kind.
    pub fn pop_catches(&mut self) -> Option<Catches>
        ensures top { option_map v.catches_of result ≡ s.top_catches (shown self.old).values }
        ensures rest { shown self.new ≡ under (shown self.old) }
    {
        match self.values.pop() {
            Some(Value::Catches(catches)) => Some(catches),
            Some(other) => {
                drop(other);
                None
            }
            None => None,
        }
    }

    /// The last value, if it is of this kind.
    pub fn pop_open_segment(&mut self) -> Option<OpenSegment>
        ensures top { option_map v.open_segment_of result ≡ s.top_open_segment (shown self.old).values }
        ensures rest { shown self.new ≡ under (shown self.old) }
    {
        match self.values.pop() {
            Some(Value::OpenSegment(open_segment)) => Some(open_segment),
            Some(other) => {
                drop(other);
                None
            }
            None => None,
        }
    }

    /// The last value, if it is of this kind.
    pub fn pop_segments(&mut self) -> Option<Segments>
        ensures top { option_map v.segments_of result ≡ s.top_segments (shown self.old).values }
        ensures rest { shown self.new ≡ under (shown self.old) }
    {
        match self.values.pop() {
            Some(Value::Segments(segments)) => Some(segments),
            Some(other) => {
                drop(other);
                None
            }
            None => None,
        }
    }

    /// The last value, if it is of this kind.
    pub fn pop_qualifiers(&mut self) -> Option<Qualifiers>
        ensures top { option_map v.qualifiers_of result ≡ s.top_qualifiers (shown self.old).values }
        ensures rest { shown self.new ≡ under (shown self.old) }
    {
        match self.values.pop() {
            Some(Value::Qualifiers(qualifiers)) => Some(qualifiers),
            Some(other) => {
                drop(other);
                None
            }
            None => None,
        }
    }

    /// The last value, if it is of this kind.
    pub fn pop_steps(&mut self) -> Option<Steps>
        ensures top { option_map v.steps_of result ≡ s.top_steps (shown self.old).values }
        ensures rest { shown self.new ≡ under (shown self.old) }
    {
        match self.values.pop() {
            Some(Value::Steps(steps)) => Some(steps),
            Some(other) => {
                drop(other);
                None
            }
            None => None,
        }
    }

    /// The last value, if it is of this kind.
    pub fn pop_fields(&mut self) -> Option<Fields>
        ensures top { option_map v.fields_of result ≡ s.top_fields (shown self.old).values }
        ensures rest { shown self.new ≡ under (shown self.old) }
    {
        match self.values.pop() {
            Some(Value::Fields(fields)) => Some(fields),
            Some(other) => {
                drop(other);
                None
            }
            None => None,
        }
    }

    /// The last value, if it is of this kind.
    pub fn pop_definitions(&mut self) -> Option<Vec<FieldDef>>
        ensures top { option_map (λ ds. map plain_field_def ds.items) result ≡ s.top_definitions (shown self.old).values }
        ensures rest { shown self.new ≡ under (shown self.old) }
    {
        match self.values.pop() {
            Some(Value::Definitions(definitions)) => Some(definitions),
            Some(other) => {
                drop(other);
                None
            }
            None => None,
        }
    }

    /// The last value, if it is of this kind.
    pub fn pop_references(&mut self) -> Option<Vec<FunctionRef>>
        ensures top { option_map (λ rs. rs.items) result ≡ s.top_references (shown self.old).values }
        ensures rest { shown self.new ≡ under (shown self.old) }
    {
        match self.values.pop() {
            Some(Value::References(references)) => Some(references),
            Some(other) => {
                drop(other);
                None
            }
            None => None,
        }
    }

    /// The last value, if it is of this kind.
    pub fn pop_form(&mut self) -> Option<Form>
        ensures top { option_map plain_form result ≡ s.top_form (shown self.old).values }
        ensures rest { shown self.new ≡ under (shown self.old) }
    {
        match self.values.pop() {
            Some(Value::Form(form)) => Some(form),
            Some(other) => {
                drop(other);
                None
            }
            None => None,
        }
    }

    /// The last value, if it is an atom: its name and place.
    pub fn pop_atom(&mut self) -> Option<(Name, Place)>
        ensures top { result ≡ top_atom (shown self.old).values }
        ensures rest { shown self.new ≡ under (shown self.old) }
    {
        match self.values.pop() {
            Some(Value::Leaf(Leaf::Atom(name), place)) => Some((name, place)),
            Some(other) => {
                drop(other);
                None
            }
            None => None,
        }
    }

    /// Puts a value on top.
    pub fn put(&mut self, value: Value) -> Result<bool, AllocError>
        ensures { IfOk result (λ ok. acted ok (shown self.new) ≡ s.put (v.value value) (shown self.old)) }
    {
        self.values.push(value)?;
        Ok(true)
    }

    /// Puts an expression on top whose parts have this nesting. Of one that is nested too deep nothing is kept.
    pub fn made(
        &mut self,
        parts: u32,
        start: Place,
        place: Place,
        node: Node,
    ) -> Result<bool, AllocError>
        ensures { IfOk result (λ ok. acted ok (shown self.new) ≡ s.made parts start place (plain_node node) (shown self.old)) }
    {
        if parts < MOST_NESTING {
            let expr = Expr { place, node };
            let nest = parts + 1;
            return self.put(Value::Operand(Operand { start, nest, expr }));
        }
        drop(node);
        self.deep = true;
        let node = Node::Any;
        let expr = Expr { place, node };
        self.put(Value::Operand(Operand {
            start,
            nest: 0,
            expr,
        }))
    }
}

/// Two expressions in boxes.
pub fn boxed(alloc: Global, first: Expr, second: Expr) -> Result<(Box<Expr>, Box<Expr>), AllocError>
    ensures { IfOk result (λ both. (both.0.value ≡ first) × (both.1.value ≡ second)) }
{
    let first = match Box::new(alloc, first) {
        Ok(first) => first,
        Err(failed) => {
            drop(failed);
            drop(second);
            return Err(AllocError);
        }
    };
    match Box::new(alloc, second) {
        Ok(second) => Ok((first, second)),
        Err(failed) => {
            drop(failed);
            drop(first);
            Err(AllocError)
        }
    }
}

/// What stands behind so many levels, as far as nestings are counted.
pub fn deeper(levels: u32, nest: u32) -> u32
    ensures { result ≡ s.deeper levels nest }
{
    levels.saturating_add(nest).min(MOST_NESTING)
}
