// What is said of a condition.
ghost use Rattle.std.specs.Prelude.{◌≡◌, IfOk, true};
ghost use Rattle.ef_base.specs.Texts.{Extends, Texts};
ghost use Rattle.ef_token.specs.TokenForm.{TokensOf};
ghost use Rattle.ef_grammar.specs.Answers.{IsOutcome};
ghost use Rattle.ef_cond.specs.Actions.{nothing};
ghost use Rattle.ef_cond.specs.Condition.{grammar};
ghost use Rattle.ef_cond.specs.declared.rows.RuleName.TheVariants as rule;
ghost use Rattle.ef_cond.specs.Values.{shown, value_of as value};
ghost use Rattle.ef_cond.specs.Verdict.{IsSaid, IsVerdict, verdict};

use crate::language::Conditions;
use crate::rows::RuleName;
use crate::stack::Read;
use crate::value::Value;
use ef_base::codes::{self, TOO_DEEP};
use ef_base::{Names, NoMemory};
use ef_grammar::{Outcome, parse};
use ef_token::Token;
use std::alloc::{AllocError, Global};

/// The truth of a condition, or the code of its fault.
#[derive(Clone, Copy, Debug, PartialEq, Eq)]
pub enum Verdict {
    Holds(bool),
    Faulty(u16),
}

/// What is said of the condition of these tokens, in which macros are expanded.
pub fn value_of(alloc: Global, names: &Names, tokens: &[Token]) -> Result<Verdict, NoMemory>
    requires { TokensOf names.now tokens.now }
    ensures { IfOk result (λ said. (all : Texts) → Extends names.now all → IsVerdict all tokens.now said) }
{
    match run(alloc, names, tokens)? {
        Outcome::Read(read) => Ok(said(read)),
        Outcome::Refused(_at) => Ok(Verdict::Faulty(codes::ILLEGAL_CONDITION)),
    }
}

// What is said of the one operand on the stack.
fn said(mut read: Read<'_>) -> Verdict
    ensures { IsSaid (shown read.entry) result }
{
    let Some(operand) = read.pop_operand() else {
        return Verdict::Faulty(codes::ILLEGAL_CONDITION);
    };
    if !read.items.is_empty() {
        return Verdict::Faulty(codes::ILLEGAL_CONDITION);
    }
    judged(operand.value, read.deep)
}

fn judged(outcome: Value<'_>, deep: bool) -> Verdict
    ensures { result ≡ verdict (value outcome.entry) deep }
{
    if deep {
        return Verdict::Faulty(TOO_DEEP);
    }
    match outcome {
        Value::Truth(truth) => Verdict::Holds(truth),
        Value::Fails(code) => Verdict::Faulty(code),
        _ => Verdict::Faulty(codes::NO_BOOLEAN),
    }
}

// What the rows make of the tokens.
fn run<'a>(
    alloc: Global,
    names: &'a Names,
    tokens: &[Token],
) -> Result<Outcome<Read<'a>>, AllocError>
    ensures { IfOk result (λ o. IsOutcome (grammar names.now) shown rule.Orelse nothing tokens.now o) }
{
    parse(
        alloc,
        &Conditions { names },
        RuleName::Orelse,
        tokens,
        Read::new(alloc),
    )
}
