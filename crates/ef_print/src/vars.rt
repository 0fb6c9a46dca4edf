// Variables behind what was printed so far.
ghost use Rattle.std.specs.Prelude.{◌≡◌, [], ◌∷◌, true, decimal};
ghost use Rattle.ef_base.specs.Texts.{HasName, text};
ghost use Rattle.ef_core.specs.Layout.{params_pieces, var_list, var_pieces, vars_pieces};
ghost use Rattle.ef_core.specs.Lexeme as spec;
ghost use Rattle.ef_core.specs.OfTable.{Each, VarOf};
ghost use Rattle.ef_core.specs.Pieces.{Put};
ghost use Rattle.ef_print.specs.Prints.{Prints};

use crate::bytes::write;
use crate::gap::plain_gap;
use crate::lexeme::{ended, print_symbol, print_word};
use ef_base::{Name, Names};
use ef_core::{CoreVar, Last, Symbol, Word};
use ef_io::{Failed, Sink};
use itoa::Buffer;

fn print_numbered<G: Sink>(
    sink: &mut G,
    so_far: Result<Last, Failed>,
    number: u32,
) -> Result<Last, Failed>
    requires { (G.seen sink.old).is_open ≡ true }
    ensures is_open { (G.seen sink.new).is_open ≡ true }
    ensures prints { Prints (G.seen sink.old) so_far (Put (spec.Var (95 ∷ decimal number)) ∷ []) (G.seen sink.new) result }
{
    let last = so_far?;
    let mut buffer = Buffer::new();
    let written = write(sink, Ok(()), plain_gap(last));
    let written = write(sink, written, b"_");
    let written = write(sink, written, buffer.format(number).as_bytes());
    ended(written, Last::Callable)
}

fn print_named<G: Sink>(
    names: &Names,
    sink: &mut G,
    so_far: Result<Last, Failed>,
    name: Name,
) -> Result<Last, Failed>
    requires is_open { (G.seen sink.old).is_open ≡ true }
    requires named { HasName names.now name }
    ensures is_open { (G.seen sink.new).is_open ≡ true }
    ensures prints { Prints (G.seen sink.old) so_far (Put (spec.Var (text names.now name)) ∷ []) (G.seen sink.new) result }
{
    let last = so_far?;
    let written = write(sink, Ok(()), plain_gap(last));
    let written = write(sink, written, names.text(name).as_bytes());
    ended(written, Last::Callable)
}

/// Prints a variable: its name, or `_` and its number.
pub fn print_var<G: Sink>(
    names: &Names,
    sink: &mut G,
    so_far: Result<Last, Failed>,
    var: CoreVar,
) -> Result<Last, Failed>
    requires is_open { (G.seen sink.old).is_open ≡ true }
    requires named { VarOf names.now var }
    ensures is_open { (G.seen sink.new).is_open ≡ true }
    ensures prints { Prints (G.seen sink.old) so_far (var_pieces names.now var) (G.seen sink.new) result }
{
    match var {
        CoreVar::Numbered(number) => print_numbered(sink, so_far, number),
        CoreVar::Named(name) => print_named(names, sink, so_far, name),
    }
}

/// Variables with commas between.
pub fn print_var_list<G: Sink>(
    names: &Names,
    sink: &mut G,
    so_far: Result<Last, Failed>,
    vars: &[CoreVar],
) -> Result<Last, Failed>
    requires is_open { (G.seen sink.old).is_open ≡ true }
    requires named { Each (VarOf names.now) vars.now }
    ensures is_open { (G.seen sink.new).is_open ≡ true }
    ensures prints { Prints (G.seen sink.old) so_far (var_list names.now vars.now) (G.seen sink.new) result }
{
    match vars {
        [] => so_far,
        [first, rest @ ..] => {
            let mut so_far = print_var(names, sink, so_far, *first);
            for var in rest {
                so_far = print_symbol(sink, so_far, Symbol::Comma);
                so_far = print_var(names, sink, so_far, *var);
            }
            so_far
        }
    }
}

/// One variable alone, any other number between `<` and `>`.
pub fn print_vars<G: Sink>(
    names: &Names,
    sink: &mut G,
    so_far: Result<Last, Failed>,
    vars: &[CoreVar],
) -> Result<Last, Failed>
    requires is_open { (G.seen sink.old).is_open ≡ true }
    requires named { Each (VarOf names.now) vars.now }
    ensures is_open { (G.seen sink.new).is_open ≡ true }
    ensures prints { Prints (G.seen sink.old) so_far (vars_pieces names.now vars.now) (G.seen sink.new) result }
{
    if vars.len() == 1 {
        return print_var(names, sink, so_far, vars[0]);
    }
    let so_far = print_symbol(sink, so_far, Symbol::Less);
    let so_far = print_var_list(names, sink, so_far, vars);
    print_symbol(sink, so_far, Symbol::Greater)
}

/// The head of a function, up to its body: `fun (V, ..) ->`.
pub fn print_params<G: Sink>(
    names: &Names,
    sink: &mut G,
    so_far: Result<Last, Failed>,
    params: &[CoreVar],
) -> Result<Last, Failed>
    requires is_open { (G.seen sink.old).is_open ≡ true }
    requires named { Each (VarOf names.now) params.now }
    ensures is_open { (G.seen sink.new).is_open ≡ true }
    ensures prints { Prints (G.seen sink.old) so_far (params_pieces names.now params.now) (G.seen sink.new) result }
{
    let so_far = print_word(sink, so_far, Word::Fun);
    let so_far = print_symbol(sink, so_far, Symbol::LeftParen);
    let so_far = print_var_list(names, sink, so_far, params);
    let so_far = print_symbol(sink, so_far, Symbol::RightParen);
    print_symbol(sink, so_far, Symbol::Arrow)
}
