// The faults of a module, function by function.
ghost use Rattle.std.specs.Prelude.{◌≡◌, IfOk, OnOk, map};
ghost use Rattle.ef_base.specs.Faults.{set_of};
ghost use Rattle.ef_base.specs.Texts.{Extends, Texts};
ghost use Rattle.ef_forms.specs.OfTable.{FormOf, FormsOf, ModuleOf};
ghost use Rattle.ef_forms.specs.Plain.{plain_form, plain_function, plain_module, plain_placed};
ghost use Rattle.ef_profile.specs.Adds.{Adds};
ghost use Rattle.ef_front.specs.Source.{form_faults, forms_faults, module_faults, size_faults};

use crate::sizes::is_too_large;
use ef_base::codes::FUNCTION_TOO_LARGE;
use ef_base::{Fault, FaultList, Names, NoMemory, Place};
use ef_forms::{Form, Function, Module, PlacedForm, Tables};
use ef_scope::scope_faults;
use std::alloc::Global;

/// The faults of the module's functions: those of names, and that a function is too large.
pub fn rule_faults(
    alloc: Global,
    names: &Names,
    module: &Module,
    tables: &Tables,
) -> Result<FaultList, NoMemory>
    requires { ModuleOf names.now (plain_module «module».now) }
    ensures { IfOk result (λ found. (all : Texts) → Extends names.now all → found ≡ set_of (module_faults all (plain_module «module».now))) }
{
    let mut found = FaultList::new(alloc);
    add_forms(alloc, names, &module.forms, tables, &mut found)?;
    Ok(found)
}

// Adds the faults of these forms.
fn add_forms(
    alloc: Global,
    names: &Names,
    forms: &[PlacedForm],
    tables: &Tables,
    found: &mut FaultList,
) -> Result<(), NoMemory>
    requires { FormsOf names.now (map plain_placed forms.now) }
    ensures { OnOk result ((all : Texts) → Extends names.now all → Adds (forms_faults all (map plain_placed forms.now)) found.old found.new) }
{
    for placed in forms {
        add_form(alloc, names, placed, tables, found)?;
    }
    Ok(())
}

fn add_form(
    alloc: Global,
    names: &Names,
    placed: &PlacedForm,
    tables: &Tables,
    found: &mut FaultList,
) -> Result<(), NoMemory>
    requires { FormOf names.now (plain_form placed.now.form) }
    ensures { OnOk result ((all : Texts) → Extends names.now all → Adds (form_faults all (plain_placed placed.now) (plain_form placed.now.form)) found.old found.new) }
{
    let Form::FunctionOf(function) = &placed.form else {
        return Ok(());
    };
    let faults = scope_faults(alloc, names, function, tables)?;
    found.append(faults)?;
    add_size_fault(alloc, placed.place, function, found)?;
    Ok(())
}

#[tactic(auto, using(crate::proofs::Added::size_none))]
fn add_size_fault(
    alloc: Global,
    place: Place,
    function: &Function,
    found: &mut FaultList,
) -> Result<(), NoMemory>
    ensures { OnOk result (Adds (size_faults place (plain_function function.now)) found.old found.new) }
{
    if is_too_large(function) {
        found.push(Fault::plain(alloc, place, FUNCTION_TOO_LARGE))?;
    }
    Ok(())
}
