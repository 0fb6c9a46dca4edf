// Forms.
ghost use Rattle.std.specs.Prelude.{◌≡◌, [], codes, IfOk, IfErr, OnOk};
ghost use Rattle.ef_base.specs.Texts.{Extends, Texts};
ghost use Rattle.ef_forms.specs.Nodes.{form_nodes};
ghost use Rattle.ef_forms.specs.OfTable.{FormOf};
ghost use Rattle.ef_forms.specs.Plain.{plain_form};
ghost use Rattle.ef_parse.specs.Spelled as s;
ghost use Rattle.ef_token.specs.TokenForm.{IsForm, TokensOf};
ghost use Rattle.ef_profile.specs.Adds.{Adds};
ghost use Rattle.ef_module.specs.Forms as f;
ghost use Rattle.ef_module.specs.Found.{IsFound};
ghost use Rattle.ef_profile.specs.Kinds as k;
ghost use Rattle.ef_module.specs.Refused.{token_faults};
ghost use Rattle.ef_profile.specs.Unbuilt as u;

use crate::refused::add_token_faults;
use ef_base::{Fault, FaultList, Names, NoMemory};
use ef_forms::{Form, form_nodes};
use ef_parse::{Spelled, spelled_form, start_of};
use ef_profile::{add_tree_faults, kind_of, mentions, not_spelled};
use ef_token::Token;
use std::alloc::Global;

/// Why there is no form or module: the faults of the tokens, sorted, or want of memory.
#[derive(Drop)]
pub enum FormRefusal {
    Faulty(FaultList),
    NoMemory,
}

/// The form that the tokens spell, the full stop among them, or its faults.
pub fn form(alloc: Global, names: &mut Names, tokens: &[Token]) -> Result<Form, FormRefusal>
    requires ends { IsForm tokens.now }
    requires named { TokensOf names.old tokens.now }
    ensures kept { names.new ≡ names.old }
    ensures read { IfOk result (λ made. (all : Texts) → Extends names.new all → f.IsForm all (plain_form made) tokens.now) }
    ensures of_table { IfOk result (λ made. (all : Texts) → Extends names.new all → FormOf all (plain_form made)) }
    ensures refused { IfErr result (λ refusal. (all : Texts) → Extends names.new all → f.IsFormRefused all tokens.now refusal) }
{
    read_form(alloc, names, tokens)
}

/// The form that the tokens spell, the full stop among them, or its faults.
pub fn read_form(alloc: Global, names: &Names, tokens: &[Token]) -> Result<Form, FormRefusal>
    requires { TokensOf names.now tokens.now }
    ensures read { IfOk result (λ made. (all : Texts) → Extends names.now all → f.IsForm all (plain_form made) tokens.now) }
    ensures of_table { IfOk result (λ made. (all : Texts) → Extends names.now all → FormOf all (plain_form made)) }
    ensures refused { IfErr result (λ refusal. (all : Texts) → Extends names.now all → f.IsFormRefused all tokens.now refusal) }
{
    let mut found = FaultList::new(alloc);
    match find_form(alloc, names, tokens, &mut found) {
        Ok(Some(form)) => Ok(form),
        Ok(None) => Err(FormRefusal::Faulty(found)),
        Err(NoMemory) => Err(FormRefusal::NoMemory),
    }
}

// The form, or its faults. They are looked for in this order, and no further behind the first that has some: in the tokens,
// in what they spell, in the tree.
fn find_form(
    alloc: Global,
    names: &Names,
    tokens: &[Token],
    found: &mut FaultList,
) -> Result<Option<Form>, NoMemory>
    requires named { TokensOf names.now tokens.now }
    requires none { found.old ≡ [] }
    ensures { IfOk result (λ made. (all : Texts) → Extends names.now all → IsFound all tokens.now made found.new) }
{
    add_token_faults(alloc, names, tokens, found)?;
    if !found.is_empty() {
        return Ok(None);
    }
    find_spelled(alloc, names, tokens, found)
}

fn find_spelled(
    alloc: Global,
    names: &Names,
    tokens: &[Token],
    found: &mut FaultList,
) -> Result<Option<Form>, NoMemory>
    requires named { TokensOf names.now tokens.now }
    requires none { found.old ≡ [] }
    requires faultless { token_faults names.now tokens.now ≡ [] }
    ensures { IfOk result (λ made. (all : Texts) → Extends names.now all → IsFound all tokens.now made found.new) }
{
    match spelled_form(alloc, names, kind_of(names, tokens), tokens)? {
        Spelled::No => {
            found.push(not_spelled(alloc, names, tokens)?)?;
            Ok(None)
        }
        Spelled::Deep => {
            found.push(Fault::too_deep(alloc, start_of(tokens)))?;
            Ok(None)
        }
        Spelled::Form { form, faults } => find_kept(alloc, names, tokens, form, faults, found),
    }
}

// The form that is spelled, as far as it has a meaning, or its faults.
fn find_kept(
    alloc: Global,
    names: &Names,
    tokens: &[Token],
    form: Form,
    heads: Vec<Fault>,
    found: &mut FaultList,
) -> Result<Option<Form>, NoMemory>
    requires named { TokensOf names.now tokens.now }
    requires none { found.old ≡ [] }
    requires faultless { token_faults names.now tokens.now ≡ [] }
    requires spelled { (all : Texts) → Extends names.now all → s.IsForm all (k.kind_of names.now tokens.now) (plain_form form) heads.items tokens.now }
    requires of_table { (all : Texts) → Extends names.now all → FormOf all (plain_form form) }
    ensures { IfOk result (λ made. (all : Texts) → Extends names.now all → IsFound all tokens.now made found.new) }
{
    add_heads(heads, found)?;
    let place = start_of(tokens);
    add_tree_faults(alloc, names, place, &form, tokens.len(), found)?;
    if !found.is_empty() {
        drop(form);
        return Ok(None);
    }
    Ok(Some(kept(alloc, names, form)?))
}

fn add_heads(heads: Vec<Fault>, found: &mut FaultList) -> Result<(), NoMemory>
    ensures { OnOk result (Adds heads.items found.old found.new) }
{
    for fault in heads {
        found.push(fault)?;
    }
    Ok(())
}

// The form, as far as it has a meaning.
fn kept(alloc: Global, names: &Names, form: Form) -> Result<Form, NoMemory>
    ensures { IfOk result (λ made. plain_form made ≡ f.kept names.now (plain_form form)) }
{
    if !is_compile(names, &form) {
        return Ok(form);
    }
    let exports_all = says_export_all(alloc, names, &form)?;
    drop(form);
    Ok(if exports_all {
        Form::ExportAll
    } else {
        Form::Dropped
    })
}

fn is_compile(names: &Names, form: &Form) -> bool
    ensures { result ≡ f.is_compile names.now (plain_form form.now) }
{
    match form {
        Form::Attribute { name, .. } => names.text_of(*name) == "compile",
        _ => false,
    }
}

fn says_export_all(alloc: Global, names: &Names, form: &Form) -> Result<bool, NoMemory>
    ensures { IfOk result (λ says. says ≡ u.mentions names.now (codes "export_all") (form_nodes (plain_form form.now))) }
{
    let mut nodes = Vec::new(alloc);
    form_nodes(form, &mut nodes)?;
    Ok(mentions(names, "export_all", &nodes))
}
