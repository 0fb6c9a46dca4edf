// Literals behind what was printed so far.
ghost use Rattle.std.specs.Prelude.{◌≡◌, true};
ghost use Rattle.ef_core.specs.Layout.{lit_pieces, lits_pieces};
ghost use Rattle.ef_core.specs.OfTable.{LitOf, of_table};
ghost use Rattle.ef_core.specs.Everywhere.{LitsHold};
ghost use Rattle.ef_core.specs.Plain.{plain_lit, plain_lits};
ghost use Rattle.ef_print.specs.Prints.{Prints};

use crate::lexeme::{print_atom, print_int, print_symbol};
use ef_base::Names;
use ef_core::{CoreLit, Last, Symbol};
use ef_io::{Failed, Sink};

/// Prints a literal.
#[cycle(literal)]
pub fn print_lit<G: Sink>(
    names: &Names,
    sink: &mut G,
    so_far: Result<Last, Failed>,
    literal: &CoreLit,
) -> Result<Last, Failed>
    requires is_open { (G.seen sink.old).is_open ≡ true }
    requires named { LitOf names.now (plain_lit literal.now) }
    ensures is_open { (G.seen sink.new).is_open ≡ true }
    ensures prints { Prints (G.seen sink.old) so_far (lit_pieces names.now (plain_lit literal.now)) (G.seen sink.new) result }
{
    match literal {
        CoreLit::Int(value) => print_int(sink, so_far, *value),
        CoreLit::Atom(name) => print_atom(names, sink, so_far, *name),
        CoreLit::List { items, tail } => {
            let so_far = print_symbol(sink, so_far, Symbol::LeftBracket);
            let so_far = print_lits(names, sink, so_far, items);
            match tail {
                None => print_symbol(sink, so_far, Symbol::RightBracket),
                Some(tail) => {
                    let so_far = print_symbol(sink, so_far, Symbol::Bar);
                    let so_far = print_lit(names, sink, so_far, tail);
                    print_symbol(sink, so_far, Symbol::RightBracket)
                }
            }
        }
        CoreLit::Tuple(items) => {
            let so_far = print_symbol(sink, so_far, Symbol::LeftBrace);
            let so_far = print_lits(names, sink, so_far, items);
            print_symbol(sink, so_far, Symbol::RightBrace)
        }
    }
}

// Literals with commas between.
#[cycle(literal)]
fn print_lits<G: Sink>(
    names: &Names,
    sink: &mut G,
    so_far: Result<Last, Failed>,
    literals: &[CoreLit],
) -> Result<Last, Failed>
    requires is_open { (G.seen sink.old).is_open ≡ true }
    requires named { LitsHold (of_table names.now) (plain_lits literals.now) }
    ensures is_open { (G.seen sink.new).is_open ≡ true }
    ensures prints { Prints (G.seen sink.old) so_far (lits_pieces names.now (plain_lits literals.now)) (G.seen sink.new) result }
{
    match literals {
        [] => so_far,
        [first, rest @ ..] => {
            let mut so_far = print_lit(names, sink, so_far, first);
            for literal in rest {
                so_far = print_symbol(sink, so_far, Symbol::Comma);
                so_far = print_lit(names, sink, so_far, literal);
            }
            so_far
        }
    }
}
