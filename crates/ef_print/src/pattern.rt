// Patterns behind what was printed so far.
ghost use Rattle.std.specs.Prelude.{◌≡◌, true};
ghost use Rattle.ef_core.specs.Everywhere.{PatHolds, PatsHold};
ghost use Rattle.ef_core.specs.Layout.{all_pat_pieces, pat_pieces, pats_pieces};
ghost use Rattle.ef_core.specs.OfTable.{of_table};
ghost use Rattle.ef_core.specs.Plain.{plain_pat, plain_pats};
ghost use Rattle.ef_print.specs.Prints.{Prints};

use crate::lexeme::print_symbol;
use crate::literal::print_lit;
use crate::segment::print_pat_segments;
use crate::vars::print_var;
use ef_base::Names;
use ef_core::{CorePat, Last, Symbol};
use ef_io::{Failed, Sink};

/// Prints a pattern.
#[cycle(expr)]
pub fn print_pat<G: Sink>(
    names: &Names,
    sink: &mut G,
    so_far: Result<Last, Failed>,
    pat: &CorePat,
) -> Result<Last, Failed>
    requires is_open { (G.seen sink.old).is_open ≡ true }
    requires named { PatHolds (of_table names.now) (plain_pat pat.now) }
    ensures is_open { (G.seen sink.new).is_open ≡ true }
    ensures prints { Prints (G.seen sink.old) so_far (pat_pieces names.now (plain_pat pat.now)) (G.seen sink.new) result }
{
    match pat {
        CorePat::Var(var) => print_var(names, sink, so_far, *var),
        CorePat::Lit(literal) => print_lit(names, sink, so_far, literal),
        CorePat::Tuple(items) => {
            let so_far = print_symbol(sink, so_far, Symbol::LeftBrace);
            let so_far = print_all_pats(names, sink, so_far, items);
            print_symbol(sink, so_far, Symbol::RightBrace)
        }
        CorePat::List { items, tail } => {
            let so_far = print_symbol(sink, so_far, Symbol::LeftBracket);
            let so_far = print_all_pats(names, sink, so_far, items);
            match tail {
                None => print_symbol(sink, so_far, Symbol::RightBracket),
                Some(tail) => {
                    let so_far = print_symbol(sink, so_far, Symbol::Bar);
                    let so_far = print_pat(names, sink, so_far, tail);
                    print_symbol(sink, so_far, Symbol::RightBracket)
                }
            }
        }
        CorePat::Alias { var, pat } => {
            let so_far = print_var(names, sink, so_far, *var);
            let so_far = print_symbol(sink, so_far, Symbol::Equals);
            print_pat(names, sink, so_far, pat)
        }
        CorePat::Bin(segments) => {
            let so_far = print_symbol(sink, so_far, Symbol::BinBegin);
            let so_far = print_pat_segments(names, sink, so_far, segments);
            print_symbol(sink, so_far, Symbol::BinEnd)
        }
    }
}

/// Prints one pattern alone, any other number between `<` and `>`.
#[cycle(expr)]
pub fn print_pats<G: Sink>(
    names: &Names,
    sink: &mut G,
    so_far: Result<Last, Failed>,
    pats: &[CorePat],
) -> Result<Last, Failed>
    requires is_open { (G.seen sink.old).is_open ≡ true }
    requires named { PatsHold (of_table names.now) (plain_pats pats.now) }
    ensures is_open { (G.seen sink.new).is_open ≡ true }
    ensures prints { Prints (G.seen sink.old) so_far (pats_pieces names.now (plain_pats pats.now)) (G.seen sink.new) result }
{
    if pats.len() == 1 {
        return print_pat(names, sink, so_far, &pats[0]);
    }
    let so_far = print_symbol(sink, so_far, Symbol::Less);
    let so_far = print_all_pats(names, sink, so_far, pats);
    print_symbol(sink, so_far, Symbol::Greater)
}

// Patterns with commas between.
#[cycle(expr)]
fn print_all_pats<G: Sink>(
    names: &Names,
    sink: &mut G,
    so_far: Result<Last, Failed>,
    pats: &[CorePat],
) -> Result<Last, Failed>
    requires is_open { (G.seen sink.old).is_open ≡ true }
    requires named { PatsHold (of_table names.now) (plain_pats pats.now) }
    ensures is_open { (G.seen sink.new).is_open ≡ true }
    ensures prints { Prints (G.seen sink.old) so_far (all_pat_pieces names.now (plain_pats pats.now)) (G.seen sink.new) result }
{
    match pats {
        [] => so_far,
        [first, rest @ ..] => {
            let mut so_far = print_pat(names, sink, so_far, first);
            for pat in rest {
                so_far = print_symbol(sink, so_far, Symbol::Comma);
                so_far = print_pat(names, sink, so_far, pat);
            }
            so_far
        }
    }
}
