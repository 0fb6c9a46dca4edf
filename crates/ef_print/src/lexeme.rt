// Lexemes behind what was printed so far.
ghost use Rattle.std.specs.Prelude.{◌≡◌, [], ◌∷◌, true};
ghost use Rattle.ef_base.specs.Texts.{HasName};
ghost use Rattle.ef_core.specs.Layout.{atom_pieces};
ghost use Rattle.ef_core.specs.Lexeme as spec;
ghost use Rattle.ef_core.specs.Pieces.{Break, Put, put_word, put_sym};
ghost use Rattle.ef_io.specs.Sink.{SinkView};
ghost use Rattle.ef_print.specs.Prints.{Ended, Prints};

use crate::bytes::write;
use crate::escape::write_escaped;
use crate::gap::{after_symbol, plain_gap, symbol_gap, symbol_text, word_text};
use ef_base::{Name, Names};
use ef_core::{Last, Symbol, Word};
use ef_io::{Failed, Sink};
use itoa::Buffer;

/// What follows, where the text of a lexeme was written.
pub fn ended(written: Result<(), Failed>, next: Last) -> Result<Last, Failed>
    ensures { Ended written next result }
{
    match written {
        Ok(()) => Ok(next),
        Err(failed) => Err(failed),
    }
}

/// The next lexeme begins a line.
pub fn print_break(so_far: Result<Last, Failed>) -> Result<Last, Failed>
    ensures { (seen : SinkView) → Prints seen so_far (Break ∷ []) seen result }
{
    match so_far {
        Ok(_) => Ok(Last::Newline),
        Err(failed) => Err(failed),
    }
}

/// Prints a word, unless a write failed before.
pub fn print_word<G: Sink>(
    sink: &mut G,
    so_far: Result<Last, Failed>,
    word: Word,
) -> Result<Last, Failed>
    requires { (G.seen sink.old).is_open ≡ true }
    ensures is_open { (G.seen sink.new).is_open ≡ true }
    ensures prints { Prints (G.seen sink.old) so_far (put_word word) (G.seen sink.new) result }
{
    let last = so_far?;
    let written = write(sink, Ok(()), plain_gap(last));
    let written = write(sink, written, word_text(word));
    ended(written, Last::Other)
}

/// Prints a symbol.
pub fn print_symbol<G: Sink>(
    sink: &mut G,
    so_far: Result<Last, Failed>,
    symbol: Symbol,
) -> Result<Last, Failed>
    requires { (G.seen sink.old).is_open ≡ true }
    ensures is_open { (G.seen sink.new).is_open ≡ true }
    ensures prints { Prints (G.seen sink.old) so_far (put_sym symbol) (G.seen sink.new) result }
{
    let last = so_far?;
    let written = write(sink, Ok(()), symbol_gap(last, symbol));
    let written = write(sink, written, symbol_text(symbol));
    ended(written, after_symbol(symbol))
}

/// Prints an integer in decimal, with its sign.
pub fn print_int<G: Sink>(
    sink: &mut G,
    so_far: Result<Last, Failed>,
    value: i128,
) -> Result<Last, Failed>
    requires { (G.seen sink.old).is_open ≡ true }
    ensures is_open { (G.seen sink.new).is_open ≡ true }
    ensures prints { Prints (G.seen sink.old) so_far (Put (spec.Int value) ∷ []) (G.seen sink.new) result }
{
    let last = so_far?;
    let mut buffer = Buffer::new();
    let written = write(sink, Ok(()), plain_gap(last));
    let written = write(sink, written, buffer.format(value).as_bytes());
    ended(written, Last::Callable)
}

/// Prints an atom in single quotes, with its escapes.
pub fn print_atom<G: Sink>(
    names: &Names,
    sink: &mut G,
    so_far: Result<Last, Failed>,
    name: Name,
) -> Result<Last, Failed>
    requires is_open { (G.seen sink.old).is_open ≡ true }
    requires named { HasName names.now name }
    ensures is_open { (G.seen sink.new).is_open ≡ true }
    ensures prints { Prints (G.seen sink.old) so_far (atom_pieces names.now name) (G.seen sink.new) result }
{
    let last = so_far?;
    let written = write(sink, Ok(()), plain_gap(last));
    let written = write(sink, written, b"'");
    let written = write_escaped(sink, written, names.text(name));
    let written = write(sink, written, b"'");
    ended(written, Last::Callable)
}
