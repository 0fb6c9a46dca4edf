// What tokens spell.
ghost use Rattle.std.specs.Prelude.{◌≡◌, IfOk, IfErr};
ghost use Rattle.ef_base.specs.declared.fault.Refusal.TheVariants.{Faulty};
ghost use Rattle.ef_base.specs.NamedFaults as f;
ghost use Rattle.ef_base.specs.Texts.{Extends, Texts};
ghost use Rattle.ef_token.specs.TokenForm.{TokensOf};
ghost use Rattle.ef_forms.specs.OfTable.{ClausesOf, TreeOf};
ghost use Rattle.ef_forms.specs.Plain.{plain, plain_clauses, plain_form};
ghost use Rattle.std.specs.Option.{option_map};
ghost use Rattle.ef_build.specs.Values.{clauses_of, operand_of, value as value_of};
ghost use Rattle.ef_parse.specs.Spelled as s;

use ef_base::{Fault, Names, NoMemory, Place, Refusal};
use ef_build::{Clauses, Operand, Value};
use ef_forms::{Clause, Expr, Form};
use ef_rows::{Single, Start, read_whole};
use ef_token::Token;
use std::alloc::Global;

/// The kind of a form, which its first two tokens tell: a function, or an attribute of one of these names or of another
/// one. `Dropped` is an attribute without a meaning, of which any tokens are taken.
#[derive(Clone, Copy, Debug, PartialEq, Eq)]
pub enum FormKind {
    Function,
    Module,
    Export,
    Import,
    Record,
    Dropped,
    Other,
}

/// A form, with the faults of clauses whose head differs from the first one of their function or fun; or that none is
/// spelled, or one that is nested too deep.
#[derive(Drop)]
pub enum Spelled {
    No,
    Deep,
    Form { form: Form, faults: Vec<Fault> },
}

/// Where the first token stands, and the start of the first file if there is none.
pub fn start_of(tokens: &[Token]) -> Place
    ensures { result ≡ s.start_of tokens.now }
{
    match tokens.first() {
        Some(token) => token.place,
        None => Place {
            file: 0,
            line: 1,
            column: 1,
        },
    }
}

/// The one expression that all the tokens spell, with nesting at most 128.
pub fn expression(alloc: Global, names: &Names, tokens: &[Token]) -> Result<Expr, Refusal>
    requires { TokensOf names.now tokens.now }
    ensures read { IfOk result (λ e. (all : Texts) → Extends names.now all → s.IsExpression all (plain e) tokens.now) }
    ensures of_table { IfOk result (λ e. (all : Texts) → Extends names.now all → TreeOf all (plain e)) }
    ensures refused { IfErr result (λ r. (all : Texts) → Extends names.now all → s.IsExpressionRefused all tokens.now r) }
{
    let single = match read_whole(alloc, names, Start::Expression, tokens) {
        Ok(Some(single)) => single,
        Ok(None) => return Err(syntax_error(alloc, tokens)),
        Err(NoMemory) => return Err(Refusal::NoMemory),
    };
    let Some(operand) = as_operand(single.value) else {
        return Err(syntax_error(alloc, tokens));
    };
    if single.deep {
        drop(operand);
        return Err(too_deep(alloc, tokens));
    }
    Ok(operand.expr)
}

/// The clauses that all the tokens spell, with nesting at most 128, whatever their names and the numbers of their patterns
/// are.
pub fn clauses(alloc: Global, names: &Names, tokens: &[Token]) -> Result<Vec<Clause>, Refusal>
    requires { TokensOf names.now tokens.now }
    ensures read { IfOk result (λ cs. (all : Texts) → Extends names.now all → s.AreClauses all (plain_clauses cs.items) tokens.now) }
    ensures of_table { IfOk result (λ cs. (all : Texts) → Extends names.now all → ClausesOf all (plain_clauses cs.items)) }
    ensures refused { IfErr result (λ r. (all : Texts) → Extends names.now all → s.AreClausesRefused all tokens.now r) }
{
    let single = match read_whole(alloc, names, Start::Clauses, tokens) {
        Ok(Some(single)) => single,
        Ok(None) => return Err(syntax_error(alloc, tokens)),
        Err(NoMemory) => return Err(Refusal::NoMemory),
    };
    let Some(group) = as_clauses(single.value) else {
        return Err(syntax_error(alloc, tokens));
    };
    if single.deep {
        drop(group);
        return Err(too_deep(alloc, tokens));
    }
    Ok(group.clauses)
}

/// What the tokens of a form spell, the full stop among them.
pub fn spelled_form(
    alloc: Global,
    names: &Names,
    kind: FormKind,
    tokens: &[Token],
) -> Result<Spelled, NoMemory>
    requires { TokensOf names.now tokens.now }
    ensures { IfOk result (λ made. (all : Texts) → Extends names.now all → s.IsSpelledForm all kind tokens.now made) }
{
    let Some(single) = read_whole(alloc, names, start_for(kind), tokens)? else {
        return Ok(Spelled::No);
    };
    let Single {
        value,
        faults,
        deep,
    } = single;
    let Some(form) = as_form(value) else {
        return Ok(Spelled::No);
    };
    if deep {
        drop(form);
        return Ok(Spelled::Deep);
    }
    Ok(Spelled::Form { form, faults })
}

fn as_operand(value: Value) -> Option<Operand>
    ensures { option_map operand_of result ≡ s.as_operand (value_of value) }
{
    match value {
        Value::Operand(operand) => Some(operand),
        other => {
            drop(other);
            None
        }
    }
}

fn as_clauses(value: Value) -> Option<Clauses>
    ensures { option_map clauses_of result ≡ s.as_clauses (value_of value) }
{
    match value {
        Value::Clauses(clauses) => Some(clauses),
        other => {
            drop(other);
            None
        }
    }
}

fn as_form(value: Value) -> Option<Form>
    ensures { option_map plain_form result ≡ s.as_form (value_of value) }
{
    match value {
        Value::Form(form) => Some(form),
        other => {
            drop(other);
            None
        }
    }
}

fn syntax_error(alloc: Global, tokens: &[Token]) -> Refusal
    ensures { result ≡ Faulty (f.syntax_error (s.start_of tokens.now)) }
{
    Refusal::Faulty(Fault::syntax_error(alloc, start_of(tokens)))
}

fn too_deep(alloc: Global, tokens: &[Token]) -> Refusal
    ensures { result ≡ Faulty (f.too_deep (s.start_of tokens.now)) }
{
    Refusal::Faulty(Fault::too_deep(alloc, start_of(tokens)))
}

fn start_for(kind: FormKind) -> Start
    ensures { result ≡ s.start_for kind }
{
    match kind {
        FormKind::Function => Start::Function,
        FormKind::Module => Start::Module,
        FormKind::Export => Start::Export,
        FormKind::Import => Start::Import,
        FormKind::Record => Start::Record,
        FormKind::Dropped => Start::Dropped,
        FormKind::Other => Start::Other,
    }
}
