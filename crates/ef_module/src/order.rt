// The order and the number of the forms of a module.
ghost use Rattle.std.specs.Prelude.{◌≡◌, false, OnOk, Some, map};
ghost use Rattle.std.specs.List.{list_any};
ghost use Rattle.ef_forms.specs.Plain.{plain_form, plain_placed};
ghost use Rattle.ef_profile.specs.Adds.{Adds};
ghost use Rattle.ef_module.specs.Modules as m;
ghost use Rattle.ef_module.specs.Modules.{lists};

use ef_base::codes::{AFTER_FUNCTIONS, FORM_BEFORE_MODULE, SECOND_MODULE, TOO_MANY_FUNCTIONS};
use ef_base::{Fault, FaultList, Name, Names, NoMemory, Place};
use ef_forms::{Form, PlacedForm};
use ef_parse::FormKind;
use ef_profile::{add_if, kind_of};
use ef_token::Token;
use std::alloc::Global;

// The most functions of a module.
const MOST_FUNCTIONS: usize = 65_536;

/// Adds the faults of the order and the number of forms. These are read; what was found before are the faults of the others.
#[tactic(auto, using(ef_profile::proofs::Adding::adds_then))]
pub fn add_order_faults(
    alloc: Global,
    names: &Names,
    tokens: &[Vec<Token>],
    forms: &[PlacedForm],
    found: &mut FaultList,
) -> Result<(), NoMemory>
    ensures { OnOk result (Adds (m.order_faults names.now (lists tokens.now) (map plain_placed forms.now) found.old) found.old found.new) }
{
    add_attribute_faults(alloc, names, tokens, forms, found)?;
    add_late(alloc, forms, found)?;
    add_number(alloc, forms, found)
}

// ---- the module attribute

fn add_attribute_faults(
    alloc: Global,
    names: &Names,
    tokens: &[Vec<Token>],
    forms: &[PlacedForm],
    found: &mut FaultList,
) -> Result<(), NoMemory>
    ensures { OnOk result (Adds (m.attribute_faults names.now (lists tokens.now) (map plain_placed forms.now) found.old) found.old found.new) }
{
    if found.is_empty() {
        add_module_faults(alloc, forms, found)
    } else {
        add_no_module(alloc, any_begins_module(names, tokens), found)
    }
}

fn add_module_faults(
    alloc: Global,
    forms: &[PlacedForm],
    found: &mut FaultList,
) -> Result<(), NoMemory>
    ensures { OnOk result (Adds (m.module_faults (map plain_placed forms.now)) found.old found.new) }
{
    if has_module(forms) {
        add_before(alloc, forms, found)?;
        add_seconds(alloc, forms, found)
    } else {
        add_no_module(alloc, false, found)
    }
}

// Adds the fault of a module without an attribute, where it has none.
#[tactic(auto, using(ef_profile::proofs::Adding::adds_none))]
fn add_no_module(alloc: Global, has: bool, found: &mut FaultList) -> Result<(), NoMemory>
    ensures { OnOk result (Adds (m.no_module_faults has) found.old found.new) }
{
    if !has {
        found.push(Fault::no_module(alloc))?;
    }
    Ok(())
}

fn any_begins_module(names: &Names, tokens: &[Vec<Token>]) -> bool
    ensures { result ≡ list_any (m.begins_module names.now) (lists tokens.now) }
{
    for form in tokens {
        if begins_module(names, form) {
            return true;
        }
    }
    false
}

fn begins_module(names: &Names, tokens: &[Token]) -> bool
    ensures { result ≡ m.begins_module names.now tokens.now }
{
    match kind_of(names, tokens) {
        FormKind::Module => true,
        _ => false,
    }
}

/// The name in a module attribute.
pub fn module_named(form: &Form) -> Option<Name>
    ensures { result ≡ m.module_named (plain_form form.now) }
{
    match form {
        Form::ModuleName(name) => Some(*name),
        _ => None,
    }
}

fn is_module(form: &Form) -> bool
    ensures { result ≡ m.is_module (plain_form form.now) }
{
    match form {
        Form::ModuleName(_) => true,
        _ => false,
    }
}

fn has_module(forms: &[PlacedForm]) -> bool
    ensures { result ≡ m.has_module (map plain_placed forms.now) }
{
    for placed in forms {
        if is_module(&placed.form) {
            return true;
        }
    }
    false
}

#[tactic(auto, using(ef_profile::proofs::Adding::adds_none))]
fn add_before(alloc: Global, forms: &[PlacedForm], found: &mut FaultList) -> Result<(), NoMemory>
    ensures { OnOk result (Adds (m.before_module (map plain_placed forms.now)) found.old found.new) }
{
    match forms {
        [first, ..] => add_if(
            alloc,
            !is_module(&first.form),
            first.place,
            FORM_BEFORE_MODULE,
            found,
        ),
        [] => Ok(()),
    }
}

fn add_seconds(alloc: Global, forms: &[PlacedForm], found: &mut FaultList) -> Result<(), NoMemory>
    ensures { OnOk result (Adds (m.seconds false (map plain_placed forms.now)) found.old found.new) }
{
    let mut seen = false;
    let mut rest = forms;
    while let [first, others @ ..] = rest {
        add_second(alloc, seen, first, found)?;
        seen = seen || is_module(&first.form);
        rest = others;
    }
    Ok(())
}

// Adds the fault of a module attribute behind another one.
fn add_second(
    alloc: Global,
    seen: bool,
    placed: &PlacedForm,
    found: &mut FaultList,
) -> Result<(), NoMemory>
    ensures { OnOk result (Adds (m.second_form seen (plain_placed placed.now)) found.old found.new) }
{
    let is_second = is_module(&placed.form) && seen;
    add_if(alloc, is_second, placed.place, SECOND_MODULE, found)
}

// ---- exports and imports behind functions, and the number of functions

fn is_function(form: &Form) -> bool
    ensures { result ≡ m.is_function (plain_form form.now) }
{
    match form {
        Form::FunctionOf(_) => true,
        _ => false,
    }
}

fn add_late(alloc: Global, forms: &[PlacedForm], found: &mut FaultList) -> Result<(), NoMemory>
    ensures { OnOk result (Adds (m.late_faults false (map plain_placed forms.now)) found.old found.new) }
{
    let mut seen = false;
    let mut rest = forms;
    while let [first, others @ ..] = rest {
        add_late_form(alloc, seen, first, found)?;
        seen = seen || is_function(&first.form);
        rest = others;
    }
    Ok(())
}

// Adds the fault of the form where it stands behind a function.
#[tactic(auto, using(ef_profile::proofs::Adding::adds_none))]
fn add_late_form(
    alloc: Global,
    seen: bool,
    placed: &PlacedForm,
    found: &mut FaultList,
) -> Result<(), NoMemory>
    ensures { OnOk result (Adds (m.late_form seen (plain_placed placed.now)) found.old found.new) }
{
    if !seen {
        return Ok(());
    }
    match &placed.form {
        Form::Export(_) => add_late_word(alloc, placed.place, b"export", found),
        Form::Import { .. } => add_late_word(alloc, placed.place, b"import", found),
        _ => Ok(()),
    }
}

#[tactic(auto, using(ef_profile::proofs::Adding::adds_one))]
fn add_late_word(
    alloc: Global,
    place: Place,
    word: &[u8],
    found: &mut FaultList,
) -> Result<(), NoMemory>
    ensures { OnOk result (Adds (m.late_fault place (Some word.now)) found.old found.new) }
{
    let fault = Fault::naming(alloc, place, AFTER_FUNCTIONS, word)?;
    found.push(fault)
}

// Adds the fault of the first function past the limit.
fn add_number(alloc: Global, forms: &[PlacedForm], found: &mut FaultList) -> Result<(), NoMemory>
    ensures { OnOk result (Adds (m.number_faults m.most_functions (map plain_placed forms.now)) found.old found.new) }
{
    let mut left = MOST_FUNCTIONS;
    for placed in forms {
        if is_function(&placed.form) {
            if left == 0 {
                return found.push(Fault::plain(alloc, placed.place, TOO_MANY_FUNCTIONS));
            }
            left -= 1;
        }
    }
    Ok(())
}
