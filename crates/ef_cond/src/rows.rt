// The rows of each rule of the grammar.
ghost use Rattle.std.specs.Prelude.{◌≡◌, map, true};
ghost use Rattle.ef_grammar.specs.Shown.{pass_all, row};
ghost use Rattle.ef_grammar.specs.Table.{opened_rows};
ghost use Rattle.ef_cond.specs.Tables as tables;

use crate::{condition_rows as condition, opened_rows as opened};
use ef_grammar::Row;

/// A rule of the grammar.
#[derive(Clone, Copy)]
pub enum RuleName {
    Orelse,
    OrelseTail,
    Andalso,
    AndalsoTail,
    Comparison,
    ComparisonTail,
    Add,
    AddTail,
    Mul,
    MulTail,
    Unary,
    Max,
}

/// What builds from what has been read.
#[derive(Clone, Copy)]
pub enum Action {
    OrElse,
    AndAlso,
    Binary,
    Unary,
    Parens,
}

/// The right sides of the rule, those of some rules opened ahead.
pub fn rows(rule: RuleName) -> &'static [Row<RuleName, Action>]
    ensures rows { map row result.now ≡ opened_rows tables.table rule }
    ensures passed { pass_all tables.table result.now ≡ true }
{
    match rule {
        RuleName::Orelse => opened::ORELSE,
        RuleName::OrelseTail => condition::ORELSE_TAIL,
        RuleName::Andalso => opened::ANDALSO,
        RuleName::AndalsoTail => condition::ANDALSO_TAIL,
        RuleName::Comparison => opened::COMPARISON,
        RuleName::ComparisonTail => condition::COMPARISON_TAIL,
        RuleName::Add => opened::ADD,
        RuleName::AddTail => condition::ADD_TAIL,
        RuleName::Mul => opened::MUL,
        RuleName::MulTail => condition::MUL_TAIL,
        RuleName::Unary => opened::UNARY,
        RuleName::Max => condition::MAX,
    }
}
