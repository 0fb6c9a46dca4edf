// The value that tokens make.
ghost use Rattle.std.specs.Prelude.{◌≡◌, IfOk, true};
ghost use Rattle.ef_base.specs.Texts.{Extends, Texts};
ghost use Rattle.ef_token.specs.TokenForm.{TokensOf};
ghost use Rattle.ef_grammar.specs.Answers.{IsOutcome};
ghost use Rattle.ef_grammar.specs.Grammar.{has};
ghost use Rattle.ef_build.specs.Stack.{nothing};
ghost use Rattle.ef_build.specs.Values.{shown};
ghost use Rattle.ef_rows.specs.Classes as class;
ghost use Rattle.ef_rows.specs.Erlang.{grammar};
ghost use Rattle.ef_rows.specs.Makes.{IsSingle, IsTaken, rule_of};
ghost use Rattle.ef_rows.specs.Tables.{behind};

use crate::erlang::Erlang;
use crate::rows::RuleName;
use ef_base::{Fault, Names, NoMemory};
use ef_build::{Read, Value};
use ef_grammar::{Outcome, parse};
use ef_token::Token;
use std::alloc::{AllocError, Global};

/// What whole inputs are: an expression, the clauses of a function, or a form with its full stop. A form is a function, or an
/// attribute of one of these names or of another one; `Dropped` is an attribute without a meaning, of which any tokens are
/// taken.
#[derive(Clone, Copy, Debug, PartialEq, Eq)]
pub enum Start {
    Expression,
    Clauses,
    Function,
    Module,
    Export,
    Import,
    Record,
    Dropped,
    Other,
}

/// The one value that tokens make; the faults of clauses whose head differs from the first one of their function or fun; and
/// whether something is nested too deep, of which the value has nothing.
#[derive(Drop)]
pub struct Single {
    pub value: Value,
    pub faults: Vec<Fault>,
    pub deep: bool,
}

/// The one value that all the tokens make, if they make one.
pub fn read_whole(
    alloc: Global,
    names: &Names,
    start: Start,
    tokens: &[Token],
) -> Result<Option<Single>, NoMemory>
    requires { TokensOf names.now tokens.now }
    ensures { IfOk result (λ made. (all : Texts) → Extends names.now all → IsSingle all start tokens.now made) }
{
    match run(alloc, names, rule_of(start), tokens)? {
        Outcome::Read(read) => Ok(taken(read)),
        Outcome::Refused(_at) => Ok(None),
    }
}

fn rule_of(start: Start) -> RuleName
    ensures rule { result ≡ rule_of start }
    ensures whole { has (behind result) class.Nothing ≡ true }
{
    match start {
        Start::Expression => RuleName::Expression,
        Start::Clauses => RuleName::Function,
        Start::Function => RuleName::FormFunction,
        Start::Module => RuleName::FormModule,
        Start::Export => RuleName::FormExport,
        Start::Import => RuleName::FormImport,
        Start::Record => RuleName::FormRecord,
        Start::Dropped => RuleName::FormDropped,
        Start::Other => RuleName::FormOther,
    }
}

// The value that is alone on the stack.
fn taken(mut read: Read) -> Option<Single>
    ensures { IsTaken (shown read) result }
{
    let value = read.values.pop()?;
    if !read.values.is_empty() {
        drop(value);
        return None;
    }
    Some(Single {
        value,
        faults: read.faults,
        deep: read.deep,
    })
}

// What the rows make of the tokens.
fn run(
    alloc: Global,
    names: &Names,
    start: RuleName,
    tokens: &[Token],
) -> Result<Outcome<Read>, AllocError>
    requires { has (behind start) class.Nothing ≡ true }
    ensures { IfOk result (λ o. IsOutcome (grammar names.now) shown start nothing tokens.now o) }
{
    parse(alloc, &Erlang { names }, start, tokens, Read::new(alloc))
}
