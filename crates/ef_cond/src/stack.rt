// The stack of operands and operators: taking the last one, and putting one there.
ghost use Rattle.std.specs.Prelude.{◌≡◌, IfOk};
ghost use Rattle.std.specs.Option.{option_map};
ghost use Rattle.ef_grammar.specs.Shown.{acted};
ghost use Rattle.ef_cond.specs.Actions as s;
ghost use Rattle.ef_cond.specs.Actions.{under};
ghost use Rattle.ef_cond.specs.Values as v;
ghost use Rattle.ef_cond.specs.Values.{shown};

use crate::value::{Item, Operand, Operator, Value};
use std::alloc::{AllocError, Global};

// The greatest nesting.
const MOST_NESTING: u32 = 128;

/// What has been read: the items, the last one at the end, and whether something was nested too deep.
#[derive(Drop)]
pub struct Read<'a> {
    pub items: Vec<Item<'a>>,
    pub deep: bool,
}

#[tactic(auto, using(crate::proofs::Tops::laws))]
impl<'a> Read<'a> {
    /// Nothing yet.
    pub fn new(alloc: Global) -> Read<'a>
        ensures { shown result ≡ s.nothing }
    {
        Read {
            items: Vec::new(alloc),
            deep: false,
        }
    }

    /// The last item, if it is of this kind.
    pub fn pop_operand(&mut self) -> Option<Operand<'a>>
        ensures top { option_map v.operand_of result ≡ s.top_operand (shown self.old).items }
        ensures rest { shown self.new ≡ under (shown self.old) }
    {
        match self.items.pop() {
            Some(Item::Operand(operand)) => Some(operand),
            _ => None,
        }
    }

    /// The last item, if it is of this kind.
    pub fn pop_operator(&mut self) -> Option<Operator>
        ensures top { result ≡ s.top_operator (shown self.old).items }
        ensures rest { shown self.new ≡ under (shown self.old) }
    {
        match self.items.pop() {
            Some(Item::Operator(operator)) => Some(operator),
            _ => None,
        }
    }

    /// Puts a value on top whose parts have this nesting.
    pub fn made(&mut self, parts: u32, value: Value<'a>) -> Result<bool, AllocError>
        ensures { IfOk result (λ ok. acted ok (shown self.new) ≡ s.made parts (v.value_of value.entry) (shown self.old)) }
    {
        if parts < MOST_NESTING {
            let nest = parts + 1;
            self.items.push(Item::Operand(Operand { value, nest }))?;
            return Ok(true);
        }
        self.deep = true;
        let nest = MOST_NESTING;
        self.items.push(Item::Operand(Operand { value, nest }))?;
        Ok(true)
    }
}
