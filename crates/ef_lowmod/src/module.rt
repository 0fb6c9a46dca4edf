// Modules.
ghost use Rattle.std.specs.Prelude.{◌≡◌, [], ◌∷◌, IfOk, List, OnOk, map};
ghost use Rattle.ef_base.specs.Texts.{AllDiffer, AllUtf8, Extends, Texts};
ghost use Rattle.ef_core.specs.declared.literal.FName.{FName};
ghost use Rattle.ef_core.specs.OfTable.{CoreModuleOf};
ghost use Rattle.ef_core.specs.Plain.{plain_def};
ghost use Rattle.ef_core.specs.Plain as core;
ghost use Rattle.ef_core.specs.Readable.{IsReadable};
ghost use Rattle.ef_forms.specs.Built.{Each, IsBuilt, defined_in, exports_in, functions_in};
ghost use Rattle.ef_forms.specs.OfTable.{ModuleOf};
ghost use Rattle.ef_forms.specs.Plain.{plain_module, plain_placed};
ghost use Rattle.ef_lower.specs.Scope.{HasFunctions};
ghost use Rattle.ef_lowmod.specs.Function.{AreLowered, HasNoFault, HasWords, IsLight, IsNarrowFunction, IsLoweredForm, IsReadyFunction, IsWhole, KeepsForm};
ghost use Rattle.ef_lowmod.specs.Form.{HasLetForm, IsShallowFor};
ghost use Rattle.ef_lowmod.specs.Outline.{Outline};
ghost use Rattle.ef_lowmod.specs.Whole.{IsLoweredModule};
ghost use Rattle.ef_meaning.specs.Lowers.{KeepDefinitions};
ghost use Rattle.ef_meaning.specs.Runs.{KeepsMeaning};

use crate::exports::exports;
use crate::function::lower_function;
use crate::info::{fixed_names, info, item};
use ef_base::{Names, NoMemory};
use ef_core::{CoreDef, CoreModule};
use ef_forms::{Form, Module, PlacedForm, Tables};
use std::alloc::Global;

/// Lowers a module, whose functions and exports the tables list.
pub fn lower(
    alloc: Global,
    names: &mut Names,
    module: &Module,
    tables: &Tables,
) -> Result<CoreModule, NoMemory>
    requires functions { tables.now.functions.items ≡ defined_in (plain_module «module».now).forms }
    requires exports { tables.now.exports.items ≡ exports_in (plain_module «module».now).forms }
    requires built { (all : Texts) → Extends names.old all → IsBuilt all (plain_module «module».now) }
    requires narrow { Each IsNarrowFunction (functions_in (plain_module «module».now).forms) }
    requires whole { Each IsWhole (functions_in (plain_module «module».now).forms) }
    requires light { Each IsLight (functions_in (plain_module «module».now).forms) }
    requires of_table { ModuleOf names.old (plain_module «module».now) }
    requires no_fault { (all : Texts) → Extends names.old all → Each (HasNoFault all) (functions_in (plain_module «module».now).forms) }
    ensures kept { Extends names.old names.new }

    // Name, exports and functions are those of the source, in order.
    ensures outlined { IfOk result (λ m. (all : Texts) → Extends names.new all → Outline all (plain_module «module».now) (core.plain_module m)) }

    ensures let_form { IfOk result (λ m. HasLetForm (core.plain_module m)) }
    ensures shallow { IfOk result (λ m. IsShallowFor (plain_module «module».now) (core.plain_module m)) }

    // A text says the module, and no text stands at two names of its table.
    ensures of_table { IfOk result (λ m. (all : Texts) → Extends names.new all → CoreModuleOf all (core.plain_module m)) }
    ensures readable { IfOk result (λ m. (all : Texts) → Extends names.new all → IsReadable all (core.plain_module m)) }
    ensures differ { OnOk result (AllDiffer names.new) }
    ensures utf8 { OnOk result (AllUtf8 names.new) }

    // On every run it does what the source does.
    ensures means { IfOk result (λ m. (all : Texts) → Extends names.new all → KeepsMeaning all (plain_module «module».now) (core.plain_module m)) }
{
    Ok(lower_whole(alloc, names, module, tables)?)
}

fn lower_whole(
    alloc: Global,
    names: &mut Names,
    module: &Module,
    tables: &Tables,
) -> Result<CoreModule, NoMemory>
    requires functions { tables.now.functions.items ≡ defined_in (plain_module «module».now).forms }
    requires exports { tables.now.exports.items ≡ exports_in (plain_module «module».now).forms }
    requires built { (all : Texts) → Extends names.old all → IsBuilt all (plain_module «module».now) }
    requires narrow { Each IsNarrowFunction (functions_in (plain_module «module».now).forms) }
    requires whole { Each IsWhole (functions_in (plain_module «module».now).forms) }
    requires light { Each IsLight (functions_in (plain_module «module».now).forms) }
    requires of_table { ModuleOf names.old (plain_module «module».now) }
    requires no_fault { (all : Texts) → Extends names.old all → Each (HasNoFault all) (functions_in (plain_module «module».now).forms) }
    ensures kept { Extends names.old names.new }
    ensures whole { IfOk result (λ m. (all : Texts) → Extends names.new all → IsLoweredModule all (plain_module «module».now) (core.plain_module m)) }
    ensures of_table { IfOk result (λ m. (all : Texts) → Extends names.new all → CoreModuleOf all (core.plain_module m)) }
    ensures readable { IfOk result (λ m. (all : Texts) → Extends names.new all → IsReadable all (core.plain_module m)) }
    ensures differ { OnOk result (AllDiffer names.new) }
    ensures utf8 { OnOk result (AllUtf8 names.new) }
    ensures means { IfOk result (λ m. (all : Texts) → Extends names.new all → KeepsMeaning all (plain_module «module».now) (core.plain_module m)) }
{
    keep_words(names)?;
    let fixed = fixed_names(names)?;
    let exports = exports(alloc, fixed, &tables.exports)?;
    let mut defs = lower_functions(alloc, names, tables, &module.forms)?;
    defs.push(info(alloc, fixed, module.name)?)?;
    defs.push(item(alloc, fixed, module.name)?)?;
    Ok(CoreModule {
        name: module.name,
        exports,
        attributes: Vec::new(alloc),
        defs,
    })
}

/// The table has the words that lowered functions name.
pub fn keep_words(names: &mut Names) -> Result<(), NoMemory>
    ensures words { OnOk result (HasWords names.new) }
    ensures kept { Extends names.old names.new }
{
    Ok(names.keep_words()?)
}

// The functions among forms, in order.
fn lower_functions(
    alloc: Global,
    names: &mut Names,
    tables: &Tables,
    forms: &[PlacedForm],
) -> Result<Vec<CoreDef>, NoMemory>
    requires words { HasWords names.old }
    requires ready { (all : Texts) → Extends names.old all → Each (IsReadyFunction all tables.now.functions.items) (functions_in (map plain_placed forms.now)) }
    ensures kept { Extends names.old names.new }
    ensures differ { AllDiffer names.old → AllDiffer names.new }
    ensures utf8 { AllUtf8 names.old → AllUtf8 names.new }
    ensures lowered { IfOk result (λ ds. (fs : List FName) → HasFunctions names.new tables.now.functions.items fs → AreLowered names.new fs (functions_in (map plain_placed forms.now)) (map plain_def ds.items)) }
    ensures means { IfOk result (λ ds. KeepDefinitions names.new (functions_in (map plain_placed forms.now)) (map plain_def ds.items)) }
{
    let mut defs = Vec::new(alloc);
    for placed in forms {
        lower_form(alloc, names, tables, placed, &mut defs)?;
    }
    Ok(defs)
}

// The function of a form, if it has one, goes behind the others.
fn lower_form(
    alloc: Global,
    names: &mut Names,
    tables: &Tables,
    placed: &PlacedForm,
    defs: &mut Vec<CoreDef>,
) -> Result<(), NoMemory>
    requires words { HasWords names.old }
    requires ready { (all : Texts) → Extends names.old all → Each (IsReadyFunction all tables.now.functions.items) (functions_in (plain_placed placed.now ∷ [])) }
    ensures kept { Extends names.old names.new }
    ensures differ { AllDiffer names.old → AllDiffer names.new }
    ensures utf8 { AllUtf8 names.old → AllUtf8 names.new }
    ensures lowered { OnOk result ((fs : List FName) → HasFunctions names.new tables.now.functions.items fs → IsLoweredForm names.new fs (plain_placed placed.now) (map plain_def defs.old.items) (map plain_def defs.new.items)) }
    ensures means { OnOk result (KeepsForm names.new (plain_placed placed.now) (map plain_def defs.old.items) (map plain_def defs.new.items)) }
{
    if let Form::FunctionOf(function) = &placed.form {
        defs.push(lower_function(alloc, names, tables, function)?)?;
    }
    Ok(())
}
