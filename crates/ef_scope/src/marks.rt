// How each name is bound.
ghost use Rattle.std.specs.Prelude.{◌≡◌, ℕ, OnOk, if◌then◌else◌, ◌==◌};
ghost use Rattle.ef_scope.specs.Marks.{is_at_least, mark_of};
ghost use Rattle.ef_scope.specs.declared.marks.Mark.TheVariants.{Unbound};

use ef_base::NoMemory;
use indexmap::IndexMap;
use std::alloc::Global;
use std::marker::Model;

/// A name is bound on no way to a place, on some ways and not on all, or on all.
#[derive(Clone, Copy, Debug, PartialEq, Eq)]
pub enum Mark {
    Unbound,
    Unsafe,
    Safe,
}

impl Mark {
    /// Whether a name with this mark is bound on as many ways as the other says.
    pub fn is_at_least(self, least: Mark) -> bool
        ensures { result ≡ is_at_least self least }
    {
        match (self, least) {
            (_, Mark::Unbound) | (Mark::Safe, _) | (Mark::Unsafe, Mark::Unsafe) => true,
            (Mark::Unbound, _) | (Mark::Unsafe, Mark::Safe) => false,
        }
    }
}

/// The marks of names, each name by its number. Contracts see a list of numbers, each with its mark.
#[derive(Drop)]
pub struct Marks {
    marks: IndexMap<usize, Mark>,
}

impl Model for Marks {
    ghost use Rattle.std.specs.Prelude.{List, ℕ};
    ghost use Rattle.ef_scope.specs.declared.marks.Mark.{Mark};

    ghost Value = { List (ℕ × Mark) };

    ghost view = { λ m. m.marks.entries };
}

impl Marks {
    /// No name is bound.
    pub fn new(alloc: Global) -> Marks
        ensures { (m : ℕ) → mark_of result m ≡ Unbound }
    {
        Marks {
            marks: IndexMap::new(alloc),
        }
    }

    /// The mark of a name.
    pub fn get(&self, name: usize) -> Mark
        ensures { result ≡ mark_of self.now name }
    {
        self.marks.get(&name).copied().unwrap_or(Mark::Unbound)
    }

    /// Gives a name another mark.
    pub fn set(&mut self, name: usize, mark: Mark) -> Result<(), NoMemory>
        ensures { OnOk result ((m : ℕ) → mark_of self.new m ≡ (if name == m then mark else mark_of self.old m)) }
    {
        self.marks.insert(name, mark)?;
        Ok(())
    }
}
