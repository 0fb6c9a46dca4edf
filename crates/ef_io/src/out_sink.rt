// A stream of the runtime, as standard output.
ghost use Rattle.std.specs.Prelude.{◌≡◌};
ghost use Rattle.ef_io.specs.Files.{open_view};

use crate::calls::one_more;
use crate::{Failed, Sink};
use std::io::Write;

/// A stream of the runtime, which tells nothing of what it took. It is open from the start.
#[derive(Drop)]
pub struct OutSink<W> {
    to: W,
    faults: u64,
}

impl<W: Write + Drop> OutSink<W> {
    /// A sink over this stream, which is not buffered here.
    pub fn new(to: W) -> Self
        ensures { ⟦<OutSink<W> as Sink>⟧.seen result ≡ open_view 0 }
    {
        OutSink { to, faults: 0 }
    }
}

impl<W: Write + Drop> Sink for OutSink<W> {
    ghost seen = { λ it. open_view it.faults };

    fn write(&mut self, piece: &[u8]) -> Result<usize, Failed> {
        match self.to.write(piece) {
            Ok(n) if n > 0 || piece.is_empty() => Ok(n),
            _ => {
                self.faults = one_more(self.faults);
                Err(Failed)
            }
        }
    }
}
