// Sets of functions.
ghost use Rattle.std.specs.Prelude.{◌≡◌, ◌∷◌, ◌++◌, [], IsTrue, ◌↔◌, OnErr, IfOk};
ghost use Rattle.ef_forms.specs.Built.{IsAmong};
ghost use Rattle.ef_tables.specs.Sets.{Inserts, function};

use ef_base::{Name, NoMemory};
use ef_forms::FunctionName;
use indexmap::IndexSet;
use std::alloc::Global;
use std::marker::Model;

/// A set of functions. Contracts see it as the list of its functions, in order of their first insertion.
#[derive(Drop)]
pub struct FunctionSet {
    keys: IndexSet<(usize, usize)>,
}

impl Model for FunctionSet {
    ghost use Rattle.std.specs.Prelude.{List, map};
    ghost use Rattle.ef_forms.specs.declared.tables.FunctionName.{FunctionName};
    ghost use Rattle.ef_tables.specs.Sets.{function_of};

    ghost Value = { List FunctionName };

    ghost view = { λ s. map function_of s.keys.keys };
}

impl FunctionSet {
    /// No functions.
    pub fn new(alloc: Global) -> FunctionSet
        ensures { result ≡ [] }
    {
        FunctionSet {
            keys: IndexSet::new(alloc),
        }
    }

    /// Puts the function into the set, and tells whether it is new there.
    pub fn insert(&mut self, function: FunctionName) -> Result<bool, NoMemory>
        ensures inserts { IfOk result (Inserts function self.old self.new) }
        ensures err { OnErr result (self.new ≡ self.old) }
    {
        let (_, is_new) = self
            .keys
            .insert_full((function.name.index, function.arity as usize))?;
        Ok(is_new)
    }

    /// Whether the set has the function of this name and arity.
    pub fn has(&self, name: Name, arity: usize) -> bool
        ensures { IsTrue result ↔ IsAmong (function name arity) self.now }
    {
        self.keys.contains(&(name.index, arity))
    }
}
