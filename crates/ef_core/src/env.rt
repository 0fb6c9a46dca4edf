// Which variable holds the value of a name.
ghost use Rattle.std.specs.Prelude.{◌≡◌, ◌++◌, [], ◌∷◌, ◌≤◌, None, IfOk, OnOk, OnErr, drop, length, take};
ghost use Rattle.ef_core.specs.Env.{NamesDiffer, bind, held};

use crate::CoreVar;
use ef_base::{Name, NoMemory};
use indexmap::IndexMap;
use std::alloc::Global;
use std::marker::Model;

/// A name, and the variable that holds its value.
#[derive(Clone, Copy, Debug, PartialEq, Eq)]
pub struct Bind {
    pub name: Name,
    pub var: CoreVar,
}

/// The names that are bound, the oldest first; none stands twice. Contracts see it as a list.
#[derive(Drop)]
pub struct Env {
    vars: IndexMap<usize, CoreVar>,
}

impl Model for Env {
    ghost use Rattle.std.specs.Prelude.{List, map};
    ghost use Rattle.ef_core.specs.declared.env.Bind.{Bind};
    ghost use Rattle.ef_core.specs.Env.{NamesDiffer, bind_of};

    ghost Value = { List Bind };

    ghost view = { λ e. map bind_of e.vars.entries };

    ghost invariant = { λ e. NamesDiffer (map bind_of e.vars.entries) };
}

impl Env {
    /// No names.
    pub fn new(alloc: Global) -> Env
        ensures { result ≡ [] }
    {
        Env {
            vars: IndexMap::new(alloc),
        }
    }

    /// Puts a name that isn't held behind the others.
    pub fn push(&mut self, name: Name, var: CoreVar) -> Result<(), NoMemory>
        requires { held self.old name ≡ None }
        ensures ok { OnOk result (self.new ≡ self.old ++ bind name var ∷ []) }
        ensures differ { NamesDiffer self.new }
        ensures err { OnErr result (self.new ≡ self.old) }
    {
        self.vars.insert(name.index, var)?;
        Ok(())
    }

    /// The variable of a name.
    pub fn var_of(&self, name: Name) -> Option<CoreVar>
        ensures { result ≡ held self.now name }
    {
        self.vars.get(&name.index).copied()
    }

    /// How many names are bound.
    pub fn len(&self) -> usize
        ensures { result ≡ length self.now }
    {
        self.vars.len()
    }

    /// The names from this place on, the oldest first, with their variables.
    pub fn binds_from(&self, alloc: Global, start: usize) -> Result<Vec<Bind>, NoMemory>
        ensures binds { IfOk result (λ v. v.items ≡ drop start self.now) }
        ensures differ { NamesDiffer self.now }
    {
        let mut binds = Vec::new(alloc);
        for place in start..self.vars.len() {
            let Some((index, var)) = self.vars.get_index(place) else {
                unreachable!()
            };
            let name = Name { index: *index };
            binds.push(Bind { name, var: *var })?;
        }
        Ok(binds)
    }

    /// Takes the names off from this place on. They are answered as an environment of their own.
    pub fn split_off(&mut self, start: usize) -> Result<Env, NoMemory>
        requires { start ≤ length self.old }
        ensures kept { OnOk result (self.new ≡ take start self.old) }
        ensures tail { IfOk result (λ e. e ≡ drop start self.old) }
        ensures differ { NamesDiffer self.new }
        ensures tail_differs { IfOk result NamesDiffer }
        ensures all_differ { NamesDiffer self.old }
        ensures err { OnErr result (self.new ≡ self.old) }
    {
        let vars = self.vars.split_off(start)?;
        Ok(Env { vars })
    }

    /// The same names, with the same variables.
    pub fn copy(&self, alloc: Global) -> Result<Env, NoMemory>
        ensures { IfOk result (λ e. e ≡ self.now) }
    {
        let mut copy = Env::new(alloc);
        for bind in &self.binds_from(alloc, 0)? {
            copy.push(bind.name, bind.var)?;
        }
        Ok(copy)
    }
}
