// The grammar of conditions, as the parser of the rows takes it.
ghost use Rattle.std.specs.Prelude.{◌≡◌, ◌<◌, ◌≤◌, IfOk, length, drop, map};
ghost use Rattle.ef_grammar.specs.Shown.{acted, row};
ghost use Rattle.ef_cond.specs.Condition as c;
ghost use Rattle.ef_cond.specs.Sound as laws;
ghost use Rattle.ef_cond.specs.Tables as tables;
ghost use Rattle.ef_cond.specs.Values as v;

use crate::actions as on;
use crate::rows::{Action, RuleName, rows};
use crate::stack::Read;
use crate::tokens::{look, push};
use ef_base::Names;
use ef_grammar::{Grammar, Row};
use ef_token::Token;
use std::alloc::{AllocError, Global};

/// The grammar over the names of a table, by which the texts of atoms are told.
#[derive(Clone, Copy)]
pub struct Conditions<'a> {
    pub names: &'a Names,
}

impl<'a> Grammar for Conditions<'a> {
    type Token = Token;

    type State = Read<'a>;

    type Rule = RuleName;

    type Action = Action;

    ghost Value = { v.Read };

    ghost value = { v.shown };

    ghost grammar = { λ s. c.grammar s.names.now };

    ghost table = { tables.table };

    fn look(&self, tokens: &[Token], at: usize) -> u8 {
        look(tokens, at)
    }

    fn push(&self, alloc: Global, token: &Token, read: &mut Read<'a>) -> Result<(), AllocError> {
        push(self.names, token, read)
    }

    fn act(&self, alloc: Global, action: Action, read: &mut Read<'a>) -> Result<bool, AllocError> {
        act(action, read)
    }

    fn rows(&self, rule: RuleName) -> &'static [Row<RuleName, Action>] {
        rows(rule)
    }

    ghost sound = { laws.sound };

    ghost rows_are = { λ s. laws.rows_are };
}

fn act(action: Action, read: &mut Read<'_>) -> Result<bool, AllocError>
    ensures { IfOk result (λ ok. acted ok (v.shown read.new) ≡ c.act action (v.shown read.old)) }
{
    match action {
        Action::Parens => on::parens(read),
        Action::Unary => on::unary(read),
        Action::Binary => on::binary(read),
        Action::AndAlso => on::and_also(read),
        Action::OrElse => on::or_else(read),
    }
}
