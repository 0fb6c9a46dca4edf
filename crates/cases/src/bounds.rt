// The weight and the depth of what functions are lowered to, against those of the source.
ghost use Rattle.std.specs.Prelude.{◌≤◌, length};
ghost use Rattle.ef_front.specs.Input.{limit};

use crate::case::Case;
use ef_base::{Names, NoMemory};
use ef_core::{CoreDef, core_depth, core_weight};
use ef_forms::{Clause, Expr, Form, Function, Module, depth, weight};
use ef_front::{Compiled, compile_text, take_forms};
use ef_module::module;
use ef_scan::scan;
use std::alloc::Global;

/// The most bytes of a file.
pub const LIMIT: usize = 4_194_304;

// The weight and the depth of a function.
#[derive(Drop)]
struct Size {
    weight: u64,
    depth: u32,
}

fn size_of(function: &Function) -> Size {
    let mut size = Size {
        weight: 0,
        depth: 0,
    };
    for clause in &function.clauses {
        size.add(clause);
    }
    size
}

impl Size {
    fn add(&mut self, clause: &Clause) {
        for part in &clause.patterns {
            self.add_part(part);
        }
        for part in &clause.body {
            self.add_part(part);
        }
    }

    fn add_part(&mut self, part: &Expr)
        ensures heavier { self.old.weight ≤ self.new.weight }
        ensures deeper { self.old.depth ≤ self.new.depth }
    {
        self.weight = self.weight.saturating_add(weight(part, &[]));
        self.depth = self.depth.max(depth(part));
    }

    // At most 64 times the weight, for each level and one more, and 16 times so many levels.
    fn allows(&self, def: &CoreDef) -> bool {
        let levels = u64::from(self.depth).saturating_add(1);
        let weight = core_weight(&def.body)
            .saturating_add(def.params.len() as u64)
            .saturating_add(1);
        weight <= self.weight.saturating_mul(64).saturating_mul(levels)
            && u64::from(core_depth(&def.body)) <= levels.saturating_mul(16)
    }
}

/// The module that the source spells and the table of its names, if no form of it is faulty.
pub fn read(alloc: Global, source: &[u8]) -> Result<Option<(Names, Module)>, NoMemory>
    requires { length source.now ≤ limit }
{
    let mut names = Names::new(alloc);
    let scanned = scan(alloc, &mut names, source, 0)?;
    let taken = take_forms(alloc, scanned)?;
    if !taken.faults.is_empty() {
        return Ok(None);
    }
    match module(alloc, &mut names, &taken.forms) {
        Ok(module) => Ok(Some((names, module))),
        Err(refusal) => {
            drop(refusal);
            Ok(None)
        }
    }
}

/// Whether every function that the first file of the case defines is written within the bounds.
pub fn are_bounded(alloc: Global, case: &Case) -> bool {
    let Some(file) = case.files.first() else {
        return false;
    };
    let source = file.bytes.as_slice();
    if source.len() > LIMIT {
        return false;
    }
    let Ok(Some((_names, module))) = read(alloc, source) else {
        return false;
    };
    match compile_text(alloc, source) {
        Ok(Compiled::Module(lowered)) => allow(&module, &lowered.module.defs),
        _ => false,
    }
}

// Whether each function of the module has its definition, in order, within its bounds.
fn allow(module: &Module, defs: &[CoreDef]) -> bool {
    let mut defs = defs.iter();
    for placed in &module.forms {
        if let Form::FunctionOf(function) = &placed.form {
            match defs.next() {
                Some(def) if size_of(function).allows(def) => {}
                _ => return false,
            }
        }
    }
    true
}
