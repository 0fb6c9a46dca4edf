// The moves of the parser before a token is taken.
ghost use Rattle.std.specs.Prelude.{◌≡◌, ◌<◌, [], IfOk, IfSome, map, option_map, true};
ghost use Rattle.ef_grammar.specs.Grammar as g;
ghost use Rattle.ef_grammar.specs.Table as t;
ghost use Rattle.ef_grammar.specs.Reads.{Fits, IsNext};
ghost use Rattle.ef_grammar.specs.Shown.{Passes, row, symbol, symbols as shown};

use crate::given::Grammar;
use crate::row::{Row, Symbol};
use crate::symbols::{Symbols, is_in, next, put};
use std::alloc::{AllocError, Global};

/// What is to be done with the next token.
#[derive(Clone, Copy)]
pub enum Next {
    Take,
    Refuse,
    Finish,
}

/// The row of the rule before a token of this class.
fn choose<G: Grammar>(
    language: &G,
    rule: G::Rule,
    class: u8,
) -> Option<&'static Row<G::Rule, G::Action>>
    requires { class < 64 }
    ensures chosen { option_map (λ r. (row r.now).right) result ≡ t.chosen (t.opened_rows G.table rule) class }
    ensures passed { IfSome result (λ r. t.vanish G.table r.now.then.pass (map symbol r.now.then.symbols.now) ≡ true) }
{
    for row in language.rows(rule) {
        if is_in(row.at, class) {
            return Some(row);
        }
    }
    None
}

/// Does all that is to be done before the next token, which is of this class.
pub fn advance<'a, G: Grammar>(
    alloc: Global,
    language: &G,
    symbols: &mut Symbols<'a, G::Rule, G::Action>,
    state: &mut G::State,
    class: u8,
) -> Result<Next, AllocError>
    requires small { class < 64 }
    requires fits { Fits G.table (shown symbols.old) (g.one ((G.grammar language.now).look [])) }
    requires passes { Passes G.table symbols.old }
    ensures next { IfOk result (λ r. IsNext (G.grammar language.now) G.table class (shown symbols.old) (G.value state.old) r (shown symbols.new) (G.value state.new)) }
    ensures passed { IfOk result (λ r. Passes G.table symbols.new) }
{
    'moves: loop {
        match next(symbols, class) {
            None => return Ok(Next::Finish),
            Some(Symbol::Token(set)) => {
                return if is_in(set, class) {
                    Ok(Next::Take)
                } else {
                    Ok(Next::Refuse)
                };
            }
            Some(Symbol::Act(action)) => {
                if !language.act(alloc, action, state)? {
                    return Ok(Next::Refuse);
                }
            }
            Some(Symbol::Rule(rule)) => {
                let Some(row) = choose(language, rule, class) else {
                    return Ok(Next::Refuse);
                };
                let right: &'a [Symbol<G::Rule, G::Action>] = row.right;
                let then: &'a [Symbol<G::Rule, G::Action>] = row.then.symbols;
                put(symbols, right, then, row.then.pass)?;
            }
        }
    }
}
