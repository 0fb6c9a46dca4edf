// The tables of a module.
ghost use Rattle.std.specs.Prelude.{◌≡◌, ◌++◌, [], map, IfOk, OnOk};
ghost use Rattle.ef_base.specs.Texts.{Extends, Texts};
ghost use Rattle.ef_forms.specs.Built.{IsBuilt, defined_in, exports_in, exports_of};
ghost use Rattle.ef_forms.specs.Plain.{plain_module, plain_placed};

use ef_base::{FaultList, Names, NoMemory};
use ef_forms::{Form, FunctionName, Module, PlacedForm, Tables};
use std::alloc::Global;

/// The functions and the exports of the module, in order. As far as modules are built, there are no imports and no
/// records, and no text is looked at.
pub fn tables(alloc: Global, names: &Names, module: &Module) -> Result<Tables, NoMemory>
    ensures functions { IfOk result (λ t. t.functions.items ≡ defined_in (plain_module «module».now).forms) }
    ensures exports { IfOk result (λ t. t.exports.items ≡ exports_in (plain_module «module».now).forms) }
    ensures imports { IfOk result (λ t. t.imports.items ≡ []) }
    ensures records { IfOk result (λ t. t.records.items ≡ []) }
    ensures faults { IfOk result (λ t. (all : Texts) → Extends names.now all → IsBuilt all (plain_module «module».now) → t.faults ≡ []) }
{
    Ok(Tables {
        functions: functions(alloc, &module.forms)?,
        exports: exports(alloc, &module.forms)?,
        imports: Vec::new(alloc),
        records: Vec::new(alloc),
        faults: FaultList::new(alloc),
    })
}

fn functions(alloc: Global, forms: &[PlacedForm]) -> Result<Vec<FunctionName>, NoMemory>
    ensures { IfOk result (λ v. v.items ≡ defined_in (map plain_placed forms.now)) }
{
    let mut found = Vec::new(alloc);
    for placed in forms {
        if let Form::FunctionOf(function) = &placed.form {
            found.push(FunctionName {
                name: function.name,
                arity: function.arity,
            })?;
        }
    }
    Ok(found)
}

fn exports(alloc: Global, forms: &[PlacedForm]) -> Result<Vec<FunctionName>, NoMemory>
    ensures { IfOk result (λ v. v.items ≡ exports_in (map plain_placed forms.now)) }
{
    let mut found = Vec::new(alloc);
    for placed in forms {
        add_exports(placed, &mut found)?;
    }
    Ok(found)
}

fn add_exports(placed: &PlacedForm, found: &mut Vec<FunctionName>) -> Result<(), NoMemory>
    ensures { OnOk result (found.new.items ≡ found.old.items ++ exports_of (plain_placed placed.now).form) }
{
    if let Form::Export(entries) = &placed.form {
        for entry in entries {
            found.push(FunctionName {
                name: entry.name,
                arity: entry.arity,
            })?;
        }
    }
    Ok(())
}
