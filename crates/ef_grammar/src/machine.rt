// The parser: a run of moves over the tokens.
ghost use Rattle.std.specs.Prelude.{◌≡◌, [], IfOk, true};
ghost use Rattle.ef_grammar.specs.Grammar as g;
ghost use Rattle.ef_grammar.specs.Answers.{IsOutcome};

use crate::given::Grammar;
use crate::moves::{Next, advance};
use crate::symbols::{Symbols, only};
use std::alloc::{AllocError, Global};

/// What all the tokens make, or the index of the token that is refused; it is the number of tokens where one is wanted.
#[derive(Drop)]
pub enum Outcome<S> {
    Read(S),
    Refused(usize),
}

/// What the rule makes of all the tokens, from this state on.
pub fn parse<G: Grammar>(
    alloc: Global,
    language: &G,
    start: G::Rule,
    tokens: &[G::Token],
    mut state: G::State,
) -> Result<Outcome<G::State>, AllocError>
    requires ends { g.has (G.table.behind start) ((G.grammar language.now).look []) ≡ true }
    ensures { IfOk result (λ o. IsOutcome (G.grammar language.now) G.value start (G.value state) tokens.now o) }
{
    let mut symbols: Symbols<'static, G::Rule, G::Action> = only(alloc, start);
    let mut at = 0;
    'tokens: loop {
        let class = language.look(tokens, at);
        match advance(alloc, language, &mut symbols, &mut state, class)? {
            Next::Refuse => return Ok(Outcome::Refused(at)),
            Next::Finish => {
                if at < tokens.len() {
                    return Ok(Outcome::Refused(at));
                }
                return Ok(Outcome::Read(state));
            }
            Next::Take => match tokens.get(at) {
                Some(token) => {
                    language.push(alloc, token, &mut state)?;
                    at += 1;
                }
                None => return Ok(Outcome::Refused(at)),
            },
        }
    }
}
