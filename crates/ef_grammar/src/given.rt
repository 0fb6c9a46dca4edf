// What a grammar gives to its parser.
ghost use Rattle.std.specs.Prelude.{◌≡◌, ◌<◌, ◌≤◌, IfOk, length, drop, map, true};
ghost use Rattle.ef_grammar.specs.Grammar as g;
ghost use Rattle.ef_grammar.specs.Table as t;
ghost use Rattle.ef_grammar.specs.Shown.{acted, pass_all, row};

use crate::row::Row;
use std::alloc::{AllocError, Global};

/// A grammar, and the table by which its rows are chosen.
pub trait Grammar {
    type Token;

    type State: Drop;

    type Rule: Copy + 'static;

    type Action: Copy + 'static;

    ghost Value: { Type 0 };

    /// What a state stands for.
    ghost value: { Self.State → Value };

    ghost grammar: { Self → g.Grammar Self.Token Value Self.Rule Self.Action };

    ghost table: { t.Table Self.Rule Self.Action };

    /// The class of the next token, by the tokens from there on.
    fn look(&self, tokens: &[Self::Token], at: usize) -> u8
        requires { at ≤ length tokens.now }
        ensures class { result ≡ (grammar self.now).look (drop at tokens.now) }
        ensures below { result < 64 };

    /// Keeps of a token that is taken what actions need of it.
    fn push(
        &self,
        alloc: Global,
        token: &Self::Token,
        state: &mut Self::State,
    ) -> Result<(), AllocError>
        ensures { IfOk result (λ done. value state.new ≡ (grammar self.now).push token.now (value state.old)) };

    /// Does an action. It answers `false` where the action refuses; nothing is said of the state then.
    fn act(
        &self,
        alloc: Global,
        action: Self::Action,
        state: &mut Self::State,
    ) -> Result<bool, AllocError>
        ensures { IfOk result (λ ok. acted ok (value state.new) ≡ (grammar self.now).act action (value state.old)) };

    /// The right sides of the rule, opened ahead.
    fn rows(&self, rule: Self::Rule) -> &'static [Row<Self::Rule, Self::Action>]
        ensures rows { map row result.now ≡ t.opened_rows table rule }
        ensures passed { pass_all table result.now ≡ true };

    ghost sound: { t.IsSound table };

    ghost rows_are: { (s : Self) (n : Self.Rule) → t.rights (table.rows n) ≡ (grammar s).rules n };
}
