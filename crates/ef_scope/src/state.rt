// The state of the walk: how names are bound, and what changed.
ghost use Rattle.std.specs.Prelude.{◌≡◌, ℕ, [], length, OnOk, ◌==◌};
ghost use Rattle.ef_scope.specs.Marks.{mark_of};
ghost use Rattle.ef_scope.specs.Trail.{Gathers, GoesBack, Keeps, Puts, Raises, Since, has};
ghost use Rattle.ef_scope.specs.declared.marks.Mark.TheVariants as mark;

use crate::marks::{Mark, Marks};
use ef_base::NoMemory;
use std::alloc::Global;

/// A name, by its number, and a mark.
#[derive(Clone, Copy, Debug, PartialEq, Eq)]
pub struct Marked {
    pub name: usize,
    pub mark: Mark,
}

/// How names are bound at a place of the walk, and each change on the way to it, with the mark before.
#[derive(Drop)]
pub struct State {
    pub marks: Marks,
    pub trail: Vec<Marked>,
}

/// The names that parts bind whose changes were taken back: on some way, and on every way.
#[derive(Drop)]
pub struct Aside {
    pub some: Vec<usize>,
    pub all: Vec<usize>,
}

impl Aside {
    /// No names.
    pub fn new(alloc: Global) -> Aside
        ensures some { result.some.items ≡ [] }
        ensures all { result.all.items ≡ [] }
    {
        Aside {
            some: Vec::new(alloc),
            all: Vec::new(alloc),
        }
    }
}

impl State {
    /// No name is bound, and nothing changed.
    pub fn new(alloc: Global) -> State
        ensures { (m : ℕ) → mark_of result.marks m ≡ mark.Unbound }
    {
        State {
            marks: Marks::new(alloc),
            trail: Vec::new(alloc),
        }
    }

    /// How many changes there are.
    pub fn len(&self) -> usize
        ensures { result ≡ length self.now.trail.items }
    {
        self.trail.len()
    }

    /// The name is bound on as many ways as the mark says, or more.
    pub fn raise(&mut self, name: usize, mark: Mark) -> Result<(), NoMemory>
        ensures raises { OnOk result (Raises (λ m. name == m) mark self.old self.new) }
        ensures since { OnOk result (Since self.old self.new) }
    {
        let before = self.marks.get(name);
        if before.is_at_least(mark) {
            return Ok(());
        }
        self.trail.push(Marked { name, mark: before })?;
        self.marks.set(name, mark)
    }

    /// So are these names.
    pub fn raise_all(&mut self, names: &[usize], mark: Mark) -> Result<(), NoMemory>
        ensures raises { OnOk result (Raises (has names.now) mark self.old self.new) }
        ensures since { OnOk result (Since self.old self.new) }
    {
        for name in names {
            self.raise(*name, mark)?;
        }
        Ok(())
    }

    /// All changes but the first so many are taken back.
    pub fn take_back(&mut self, start: usize) -> Result<(), NoMemory>
        ensures { OnOk result (GoesBack start self.old self.new) }
    {
        while self.trail.len() > start {
            let Some(change) = self.trail.pop() else {
                unreachable!()
            };
            self.marks.set(change.name, change.mark)?;
        }
        Ok(())
    }

    // Adds the names that changed behind the first so many changes and have such a mark or more.
    fn gather(&self, start: usize, least: Mark, names: &mut Vec<usize>) -> Result<(), NoMemory>
        ensures { OnOk result (Gathers start least self.now names.old.items names.new.items) }
    {
        for place in start..self.trail.len() {
            let name = self.trail[place].name;
            if self.marks.get(name).is_at_least(least) {
                names.push(name)?;
            }
        }
        Ok(())
    }

    // Keeps the names that are bound on every way.
    fn keep_safe(&self, names: &mut Vec<usize>)
        ensures { Keeps mark.Safe self.now names.old.items names.new.items }
    {
        names.retain(|name| self.marks.get(*name).is_at_least(Mark::Safe));
    }

    /// The changes of a part are taken back, and what it binds is noted beside what others bind.
    pub fn set_aside(&mut self, start: usize, aside: &mut Aside) -> Result<(), NoMemory>
        ensures back { OnOk result (GoesBack start self.old self.new) }
        ensures some { OnOk result (Gathers start mark.Unsafe self.old aside.old.some.items aside.new.some.items) }
        ensures all { OnOk result (Gathers start mark.Safe self.old aside.old.all.items aside.new.all.items) }
    {
        self.gather(start, Mark::Unsafe, &mut aside.some)?;
        self.gather(start, Mark::Safe, &mut aside.all)?;
        self.take_back(start)
    }

    /// The same of one more of several parts of which one is gone through.
    pub fn set_aside_choice(&mut self, start: usize, aside: &mut Aside) -> Result<(), NoMemory>
        ensures back { OnOk result (GoesBack start self.old self.new) }
        ensures some { OnOk result (Gathers start mark.Unsafe self.old aside.old.some.items aside.new.some.items) }
        ensures all { OnOk result (Keeps mark.Safe self.old aside.old.all.items aside.new.all.items) }
    {
        self.gather(start, Mark::Unsafe, &mut aside.some)?;
        self.keep_safe(&mut aside.all);
        self.take_back(start)
    }

    /// What was set aside is bound.
    pub fn put(&mut self, aside: &Aside) -> Result<(), NoMemory>
        ensures puts { OnOk result (Puts aside.now self.old self.new) }
        ensures since { OnOk result (Since self.old self.new) }
    {
        self.raise_all(&aside.all, Mark::Safe)?;
        self.raise_all(&aside.some, Mark::Unsafe)
    }
}
