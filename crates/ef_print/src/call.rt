// Calls behind what was printed so far.
ghost use Rattle.std.specs.Prelude.{◌≡◌, true};
ghost use Rattle.ef_core.specs.Layout.{all_pieces, in_parentheses, pieces};
ghost use Rattle.ef_core.specs.OfTable.{CoreOf, CoresOf};
ghost use Rattle.ef_core.specs.Plain.{plain, plain_all};
ghost use Rattle.ef_core.specs.Tree.{apply, call, primop};
ghost use Rattle.ef_print.specs.Prints.{Prints};

use crate::expr::{print_all, print_expr};
use crate::lexeme::{print_atom, print_symbol, print_word};
use ef_base::{Name, Names};
use ef_core::{CoreExpr, Last, Symbol, Word};
use ef_io::{Failed, Sink};

/// Prints `apply Target(Arg, ..)`.
#[cycle(expr)]
pub fn print_apply<G: Sink>(
    names: &Names,
    sink: &mut G,
    so_far: Result<Last, Failed>,
    target: &CoreExpr,
    args: &[CoreExpr],
) -> Result<Last, Failed>
    requires is_open { (G.seen sink.old).is_open ≡ true }
    requires named { CoreOf names.now (apply (plain target.now) (plain_all args.now)) }
    ensures is_open { (G.seen sink.new).is_open ≡ true }
    ensures prints { Prints (G.seen sink.old) so_far (pieces names.now (apply (plain target.now) (plain_all args.now))) (G.seen sink.new) result }
{
    let so_far = print_word(sink, so_far, Word::Apply);
    let so_far = print_expr(names, sink, so_far, target);
    print_args(names, sink, so_far, args)
}

/// Prints `call Module:Function(Arg, ..)`.
#[cycle(expr)]
pub fn print_call<G: Sink>(
    names: &Names,
    sink: &mut G,
    so_far: Result<Last, Failed>,
    module: &CoreExpr,
    function: &CoreExpr,
    args: &[CoreExpr],
) -> Result<Last, Failed>
    requires is_open { (G.seen sink.old).is_open ≡ true }
    requires named { CoreOf names.now (call (plain «module».now) (plain function.now) (plain_all args.now)) }
    ensures is_open { (G.seen sink.new).is_open ≡ true }
    ensures prints { Prints (G.seen sink.old) so_far (pieces names.now (call (plain «module».now) (plain function.now) (plain_all args.now))) (G.seen sink.new) result }
{
    let so_far = print_word(sink, so_far, Word::Call);
    let so_far = print_expr(names, sink, so_far, module);
    let so_far = print_symbol(sink, so_far, Symbol::Colon);
    let so_far = print_expr(names, sink, so_far, function);
    print_args(names, sink, so_far, args)
}

/// Prints `primop Name(Arg, ..)`.
#[cycle(expr)]
pub fn print_primop<G: Sink>(
    names: &Names,
    sink: &mut G,
    so_far: Result<Last, Failed>,
    name: Name,
    args: &[CoreExpr],
) -> Result<Last, Failed>
    requires is_open { (G.seen sink.old).is_open ≡ true }
    requires named { CoreOf names.now (primop name (plain_all args.now)) }
    ensures is_open { (G.seen sink.new).is_open ≡ true }
    ensures prints { Prints (G.seen sink.old) so_far (pieces names.now (primop name (plain_all args.now))) (G.seen sink.new) result }
{
    let so_far = print_word(sink, so_far, Word::Primop);
    let so_far = print_atom(names, sink, so_far, name);
    print_args(names, sink, so_far, args)
}

// Arguments, in parentheses.
#[cycle(expr)]
fn print_args<G: Sink>(
    names: &Names,
    sink: &mut G,
    so_far: Result<Last, Failed>,
    args: &[CoreExpr],
) -> Result<Last, Failed>
    requires is_open { (G.seen sink.old).is_open ≡ true }
    requires named { CoresOf names.now (plain_all args.now) }
    ensures is_open { (G.seen sink.new).is_open ≡ true }
    ensures prints { Prints (G.seen sink.old) so_far (in_parentheses (all_pieces names.now (plain_all args.now))) (G.seen sink.new) result }
{
    let so_far = print_symbol(sink, so_far, Symbol::LeftParen);
    let so_far = print_all(names, sink, so_far, args);
    print_symbol(sink, so_far, Symbol::RightParen)
}
