// The characters of an atom, with escapes.
ghost use Rattle.std.specs.Prelude.{◌≡◌, true, flat_map};
ghost use Rattle.std.specs.Str.{chars};
ghost use Rattle.ef_core.specs.Pieces.{escaped};
ghost use Rattle.ef_print.specs.Prints.{Appends};

use crate::bytes::write;
use ef_base::{escaped, first_char, split_plain};
use ef_io::{Failed, Sink};

/// Writes the characters of a text, with escapes. What needs none goes out in runs as long as they are.
pub fn write_escaped<G: Sink>(
    sink: &mut G,
    so_far: Result<(), Failed>,
    text: &str,
) -> Result<(), Failed>
    requires { (G.seen sink.old).is_open ≡ true }
    ensures is_open { (G.seen sink.new).is_open ≡ true }
    ensures appends { Appends (G.seen sink.old) so_far (flat_map escaped (chars text.now)) (G.seen sink.new) result }
{
    let mut so_far = so_far;
    let mut rest = text;
    loop {
        let parts = split_plain(b'\'', rest);
        so_far = write(sink, so_far, parts.0.as_bytes());
        let Some(step) = first_char(parts.1) else {
            return so_far;
        };
        so_far = write_char(sink, so_far, step.0);
        rest = step.1;
    }
}

fn write_char<G: Sink>(sink: &mut G, so_far: Result<(), Failed>, c: char) -> Result<(), Failed>
    requires { (G.seen sink.old).is_open ≡ true }
    ensures is_open { (G.seen sink.new).is_open ≡ true }
    ensures appends { Appends (G.seen sink.old) so_far (escaped c) (G.seen sink.new) result }
{
    let text = escaped(b'\'', c as u32);
    write(sink, so_far, text.as_bytes())
}
