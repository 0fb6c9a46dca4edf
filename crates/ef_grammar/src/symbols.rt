// The symbols that are still to be read: a stack of parts of rows.
ghost use Rattle.std.specs.Prelude.{◌≡◌, ◌<◌, [], ◌∷◌, ◌++◌, IfOk, IfSome, IfNone, map, reverse, option_map, true};
ghost use Rattle.ef_grammar.specs.Grammar.{Rule, has};
ghost use Rattle.ef_grammar.specs.Reads.{Over};
ghost use Rattle.ef_grammar.specs.Shown.{AllPass, Passes, joined, symbol, symbols as shown, with_next};
ghost use Rattle.ef_grammar.specs.Table.{Table, vanish};

use crate::row::{Piece, Symbol};
use std::alloc::{AllocError, Global};

/// Symbols: those of `front`, which come to nothing at the classes of `pass`; behind them those of the pieces, the last piece
/// first; and at the end a rule, if there is one.
#[derive(Drop)]
pub struct Symbols<'a, R, A> {
    pub front: &'a [Symbol<R, A>],
    pub pass: u64,
    pub behind: Vec<Piece<'a, R, A>>,
    pub last: Option<R>,
}

/// Whether the class is in the set.
pub fn is_in(set: u64, class: u8) -> bool
    requires { class < 64 }
    ensures { result ≡ has set class }
{
    (set >> class) & 1 == 1
}

// A stack with room for the pieces of most forms, where memory is there for it.
fn room<'a, R: Copy, A: Copy>(alloc: Global) -> Vec<Piece<'a, R, A>>
    ensures { result.items ≡ [] }
{
    match Vec::with_capacity(alloc, 32) {
        Ok(behind) => behind,
        Err(_) => Vec::new(alloc),
    }
}

/// One rule.
pub fn only<'a, R: Copy, A: Copy>(alloc: Global, rule: R) -> Symbols<'a, R, A>
    ensures one { shown result ≡ Rule rule ∷ [] }
    ensures passes { (t : Table R A) → Passes t result }
{
    let behind: Vec<Piece<'a, R, A>> = room(alloc);
    Symbols {
        front: &[],
        pass: 0,
        behind,
        last: Some(rule),
    }
}

// The first symbol, and the others.
fn split<'a, R: Copy, A: Copy>(
    symbols: &'a [Symbol<R, A>],
) -> Option<(Symbol<R, A>, &'a [Symbol<R, A>])>
    ensures some { IfSome result (λ s. symbols.now ≡ s.0 ∷ s.1.now) }
    ensures none { IfNone result (symbols.now ≡ []) }
{
    match symbols {
        [first, rest @ ..] => Some((*first, rest)),
        [] => None,
    }
}

/// Takes the next symbol before a token of this class. Pieces that come to nothing there are passed over.
pub fn next<'a, R: Copy, A: Copy>(
    symbols: &mut Symbols<'a, R, A>,
    class: u8,
) -> Option<Symbol<R, A>>
    requires { class < 64 }
    ensures over { (t : Table R A) → Passes t symbols.old → Over t class (shown symbols.old) (with_next (option_map symbol result) (shown symbols.new)) }
    ensures passes { (t : Table R A) → Passes t symbols.old → Passes t symbols.new }
{
    'pieces: loop {
        if let Some((first, rest)) = split(symbols.front) {
            symbols.front = rest;
            return Some(first);
        }
        match symbols.behind.pop() {
            Some(piece) => if !is_in(piece.pass, class) {
                symbols.front = piece.symbols;
                symbols.pass = piece.pass;
            },
            None => {
                let last = symbols.last?;
                symbols.last = None;
                return Some(Symbol::Rule(last));
            }
        }
    }
}

// Puts the piece on top, if it has symbols.
#[tactic(auto, using(crate::proofs::Tops::laws))]
fn wait<'a, R: Copy, A: Copy>(
    behind: &mut Vec<Piece<'a, R, A>>,
    piece: Piece<'a, R, A>,
) -> Result<(), AllocError>
    ensures before { IfOk result (λ done. joined (reverse behind.new.items) ≡ map symbol piece.entry.symbols.now ++ joined (reverse behind.old.items)) }
    ensures passes { IfOk result (λ done. (t : Table R A) → AllPass t behind.old.items → vanish t piece.entry.pass (map symbol piece.entry.symbols.now) ≡ true → AllPass t behind.new.items) }
{
    if !piece.symbols.is_empty() {
        behind.push(piece)?;
    }
    Ok(())
}

/// Puts the two parts of a row before the others; at the classes of `pass` the second part comes to nothing.
#[tactic(auto, using(crate::proofs::Tops::laws))]
pub fn put<'a, R: Copy, A: Copy>(
    symbols: &mut Symbols<'a, R, A>,
    right: &'a [Symbol<R, A>],
    then: &'a [Symbol<R, A>],
    pass: u64,
) -> Result<(), AllocError>
    ensures before { IfOk result (λ done. shown symbols.new ≡ (map symbol right.now ++ map symbol then.now) ++ shown symbols.old) }
    ensures passes { IfOk result (λ done. (t : Table R A) → Passes t symbols.old → vanish t pass (map symbol then.now) ≡ true → Passes t symbols.new) }
{
    if right.is_empty() && then.is_empty() {
        return Ok(());
    }
    let front = Piece {
        symbols: symbols.front,
        pass: symbols.pass,
    };
    wait(&mut symbols.behind, front)?;
    let then = Piece {
        symbols: then,
        pass,
    };
    wait(&mut symbols.behind, then)?;
    symbols.front = right;
    symbols.pass = 0;
    Ok(())
}
