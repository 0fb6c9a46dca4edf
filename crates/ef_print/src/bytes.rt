// Bytes behind what was printed so far.
ghost use Rattle.std.specs.Prelude.{◌≡◌, true, ◌<◌};
ghost use Rattle.ef_print.specs.Prints.{Appends};

use ef_io::{Failed, Sink, put};

/// Writes all of the bytes, unless a fault came before.
pub fn write<G: Sink>(sink: &mut G, so_far: Result<(), Failed>, bytes: &[u8]) -> Result<(), Failed>
    requires { (G.seen sink.old).is_open ≡ true }
    ensures is_open { (G.seen sink.new).is_open ≡ true }
    ensures appends { Appends (G.seen sink.old) so_far bytes.now (G.seen sink.new) result }
{
    match so_far {
        Ok(()) => put(sink, bytes),
        Err(failed) => Err(failed),
    }
}
