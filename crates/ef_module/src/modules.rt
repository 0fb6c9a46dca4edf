// Modules.
ghost use Rattle.std.specs.Prelude.{◌≡◌, List, [], ◌∷◌, ◌++◌, IfOk, IfErr, OnOk, map};
ghost use Rattle.ef_base.specs.Texts.{Extends, Texts};
ghost use Rattle.ef_forms.specs.OfTable.{ModuleOf};
ghost use Rattle.ef_forms.specs.Plain.{plain_form, plain_module, plain_placed};
ghost use Rattle.ef_token.specs.TokenForm.{AllTokensOf, AreForms, TokensOf};
ghost use Rattle.ef_token.specs.declared.token.Token.{Token as TheToken};
ghost use Rattle.ef_profile.specs.Adds.{Adds};
ghost use Rattle.ef_module.specs.Found.{AreFound, IsModuleFound};
ghost use Rattle.ef_module.specs.Modules as m;
ghost use Rattle.ef_module.specs.Modules.{lists};

use crate::forms::{FormRefusal, read_form};
use crate::order::{add_order_faults, module_named};
use ef_base::{FaultList, Name, Names, NoMemory};
use ef_forms::{Module, PlacedForm};
use ef_parse::start_of;
use ef_token::Token;
use std::alloc::Global;

/// The module that the forms spell, or the faults of all forms and those of their order and number.
pub fn module(alloc: Global, names: &mut Names, forms: &[Vec<Token>]) -> Result<Module, FormRefusal>
    requires ends { AreForms (lists forms.now) }
    requires named { AllTokensOf names.old (lists forms.now) }
    ensures kept { names.new ≡ names.old }
    ensures read { IfOk result (λ made. (all : Texts) → Extends names.new all → m.IsModule all (plain_module made) (lists forms.now)) }
    ensures of_table { IfOk result (λ made. (all : Texts) → Extends names.new all → ModuleOf all (plain_module made)) }
    ensures refused { IfErr result (λ refusal. (all : Texts) → Extends names.new all → m.IsModuleRefused all (lists forms.now) refusal) }
{
    let mut found = FaultList::new(alloc);
    match find_module(alloc, names, forms, &mut found) {
        Ok(Some(module)) => Ok(module),
        Ok(None) => Err(FormRefusal::Faulty(found)),
        Err(NoMemory) => Err(FormRefusal::NoMemory),
    }
}

// The module, or its faults.
fn find_module(
    alloc: Global,
    names: &Names,
    forms: &[Vec<Token>],
    found: &mut FaultList,
) -> Result<Option<Module>, NoMemory>
    requires named { AllTokensOf names.now (lists forms.now) }
    requires none { found.old ≡ [] }
    ensures { IfOk result (λ made. (all : Texts) → Extends names.now all → IsModuleFound all (lists forms.now) made found.new) }
{
    let placed = find_forms(alloc, names, forms, found)?;
    add_order_faults(alloc, names, forms, &placed, found)?;
    if !found.is_empty() {
        drop(placed);
        return Ok(None);
    }
    let Some(name) = first_name(&placed) else {
        unreachable!()
    };
    Ok(Some(Module {
        name,
        forms: placed,
    }))
}

// The forms that are read, and the faults of the others.
fn find_forms(
    alloc: Global,
    names: &Names,
    forms: &[Vec<Token>],
    found: &mut FaultList,
) -> Result<Vec<PlacedForm>, NoMemory>
    requires named { AllTokensOf names.now (lists forms.now) }
    requires none { found.old ≡ [] }
    ensures { IfOk result (λ placed. (all : Texts) → Extends names.now all → AreFound all (lists forms.now) (map plain_placed placed.items) found.new) }
{
    let mut placed = Vec::new(alloc);
    for tokens in forms {
        find_next(alloc, names, tokens, &mut placed, found)?;
    }
    Ok(placed)
}

// Reads one more form, or adds its faults.
fn find_next(
    alloc: Global,
    names: &Names,
    tokens: &[Token],
    placed: &mut Vec<PlacedForm>,
    found: &mut FaultList,
) -> Result<(), NoMemory>
    requires { TokensOf names.now tokens.now }
    ensures { OnOk result ((all : Texts) → Extends names.now all → (before : List (List TheToken)) → AreFound all before (map plain_placed placed.old.items) found.old → AreFound all (before ++ tokens.now ∷ []) (map plain_placed placed.new.items) found.new) }
{
    match read_form(alloc, names, tokens) {
        Ok(form) => {
            let place = start_of(tokens);
            placed.push(PlacedForm { place, form })?;
            Ok(())
        }
        Err(FormRefusal::Faulty(faults)) => found.append(faults),
        Err(FormRefusal::NoMemory) => Err(NoMemory),
    }
}

// The name of the module whose attribute stands first.
fn first_name(forms: &[PlacedForm]) -> Option<Name>
    ensures { result ≡ m.first_name (map plain_placed forms.now) }
{
    match forms {
        [first, ..] => module_named(&first.form),
        [] => None,
    }
}
