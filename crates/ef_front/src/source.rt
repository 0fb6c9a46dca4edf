// From a source to its module in Core, or to its faults.
ghost use Rattle.std.specs.Prelude.{◌≤◌, ◌∷◌, ◌++◌, [], List, IfOk, OnOk, length};
ghost use Rattle.ef_token.specs.TokenForm.{AllTokensOf, AreForms};
ghost use Rattle.ef_token.specs.declared.token.ScannedForm.{ScannedForm as TheForm};
ghost use Rattle.ef_forms.specs.Built.{Each, IsBuilt, functions_in};
ghost use Rattle.ef_forms.specs.OfTable.{ModuleOf};
ghost use Rattle.ef_forms.specs.Plain.{plain_module};
ghost use Rattle.ef_module.specs.Modules.{lists};
ghost use Rattle.ef_lowmod.specs.Function.{IsNarrowFunction, IsWhole};
ghost use Rattle.ef_front.specs.Compiles.{AreTaken, IsCompiledForms, IsCompiledModule, IsSet};
ghost use Rattle.ef_front.specs.Input.{limit};
ghost use Rattle.ef_front.specs.Compiled.{IsCompiledText};

use crate::compiling::{Compiled, Lowered};
use crate::faults::rule_faults;
use crate::left_out::split;
use crate::refused::not_built;
use ef_base::{FaultList, Names, NoMemory};
use ef_forms::Module;
use ef_lowmod::lower;
use ef_module::{FormRefusal, module};
use ef_scan::scan;
use ef_tables::{is_built, tables};
use ef_token::{ScannedForm, Token};
use std::alloc::Global;

// The bytes of text that are gathered before a write.
const PIECE: usize = 65_536;

/// The module in Core that is made of a source, or the faults of the source.
pub fn compile_text(alloc: Global, source: &[u8]) -> Result<Compiled, NoMemory>
    requires { length source.now ≤ limit }
    ensures { IfOk result (IsCompiledText source.now) }
{
    let mut names = Names::new(alloc);
    let scanned = scan(alloc, &mut names, source, 0)?;
    let taken = take_forms(alloc, scanned)?;
    let mut found = taken.faults;
    let kept = split(alloc, &names, taken.forms, &mut found)?;
    compile_forms(alloc, names, kept, found)
}

/// The faults of the faulty forms, and the tokens of the others.
#[derive(Drop)]
pub struct Taken {
    pub faults: FaultList,
    pub forms: Vec<Vec<Token>>,
}

/// Parts the forms into those with a fault and the others.
pub fn take_forms(alloc: Global, scanned: Vec<ScannedForm>) -> Result<Taken, NoMemory>
    ensures { IfOk result (λ taken. AreTaken scanned.items taken.faults (lists taken.forms.items)) }
{
    let mut taken = Taken {
        faults: FaultList::new(alloc),
        forms: Vec::new(alloc),
    };
    for form in scanned {
        taken.add(form)?;
    }
    Ok(taken)
}

impl Taken {
    // One more form.
    fn add(&mut self, form: ScannedForm) -> Result<(), NoMemory>
        ensures { OnOk result ((before : List TheForm) → AreTaken before self.old.faults (lists self.old.forms.items) → AreTaken (before ++ form ∷ []) self.new.faults (lists self.new.forms.items)) }
    {
        match form {
            ScannedForm::Tokens(tokens) => self.forms.push(tokens)?,
            ScannedForm::Faulty(fault) => self.faults.push(fault)?,
        }
        Ok(())
    }
}

// What is made of the forms that are kept, where these faults were found before.
fn compile_forms(
    alloc: Global,
    mut names: Names,
    forms: Vec<Vec<Token>>,
    mut found: FaultList,
) -> Result<Compiled, NoMemory>
    requires ends { AreForms (lists forms.items) }
    requires named { AllTokensOf names (lists forms.items) }
    requires set { IsSet found }
    ensures { IfOk result (IsCompiledForms names (lists forms.items) found) }
{
    let read = module(alloc, &mut names, &forms);
    // The tokens go before the module is lowered, which takes their memory again.
    drop(forms);
    match read {
        Ok(module) => {
            if !found.is_empty() {
                drop(module);
                return Ok(Compiled::Faulty(found));
            }
            compile_module(alloc, names, &module)
        }
        Err(FormRefusal::Faulty(faults)) => {
            found.append(faults)?;
            Ok(Compiled::Faulty(found))
        }
        Err(FormRefusal::NoMemory) => Err(NoMemory),
    }
}

fn compile_module(alloc: Global, mut names: Names, module: &Module) -> Result<Compiled, NoMemory>
    requires of_table { ModuleOf names (plain_module «module».now) }
    requires narrow { IsBuilt names (plain_module «module».now) → Each IsNarrowFunction (functions_in (plain_module «module».now).forms) }
    requires whole { Each IsWhole (functions_in (plain_module «module».now).forms) }
    ensures { IfOk result (IsCompiledModule names (plain_module «module».now)) }
{
    let tables = tables(alloc, &names, module)?;
    if !is_built(alloc, &names, module, &tables)? {
        return Ok(Compiled::Faulty(not_built(alloc)?));
    }
    let faults = rule_faults(alloc, &names, module, &tables)?;
    if !faults.is_empty() {
        return Ok(Compiled::Faulty(faults));
    }
    let module = lower(alloc, &mut names, module, &tables)?;
    let buffer = Vec::with_capacity(alloc, PIECE)?;
    Ok(Compiled::Module(Lowered {
        names,
        module,
        buffer,
    }))
}
