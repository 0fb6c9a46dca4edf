// Names of functions behind what was printed so far.
ghost use Rattle.std.specs.Prelude.{◌≡◌, true};
ghost use Rattle.ef_core.specs.Layout.{fname_list, fname_pieces};
ghost use Rattle.ef_core.specs.OfTable.{Each, FNameOf};
ghost use Rattle.ef_print.specs.Prints.{Prints};

use crate::lexeme::{print_atom, print_int, print_symbol};
use ef_base::Names;
use ef_core::{FName, Last, Symbol};
use ef_io::{Failed, Sink};

/// Prints the name of a function, `Atom/Arity`.
pub fn print_fname<G: Sink>(
    names: &Names,
    sink: &mut G,
    so_far: Result<Last, Failed>,
    function: FName,
) -> Result<Last, Failed>
    requires is_open { (G.seen sink.old).is_open ≡ true }
    requires named { FNameOf names.now function }
    ensures is_open { (G.seen sink.new).is_open ≡ true }
    ensures prints { Prints (G.seen sink.old) so_far (fname_pieces names.now function) (G.seen sink.new) result }
{
    let so_far = print_atom(names, sink, so_far, function.name);
    let so_far = print_symbol(sink, so_far, Symbol::Slash);
    print_int(sink, so_far, i128::from(function.arity))
}

/// Names of functions with commas between.
pub fn print_fname_list<G: Sink>(
    names: &Names,
    sink: &mut G,
    so_far: Result<Last, Failed>,
    functions: &[FName],
) -> Result<Last, Failed>
    requires is_open { (G.seen sink.old).is_open ≡ true }
    requires named { Each (FNameOf names.now) functions.now }
    ensures is_open { (G.seen sink.new).is_open ≡ true }
    ensures prints { Prints (G.seen sink.old) so_far (fname_list names.now functions.now) (G.seen sink.new) result }
{
    match functions {
        [] => so_far,
        [first, rest @ ..] => {
            let mut so_far = print_fname(names, sink, so_far, *first);
            for function in rest {
                so_far = print_symbol(sink, so_far, Symbol::Comma);
                so_far = print_fname(names, sink, so_far, *function);
            }
            so_far
        }
    }
}
