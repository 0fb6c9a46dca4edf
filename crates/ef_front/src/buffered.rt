// A sink that writes in large pieces.
ghost use Rattle.std.specs.Prelude.{◌≡◌, [], true};
ghost use Rattle.ef_io.specs.Sink.{HasWriteCause, Stays};
ghost use Rattle.ef_front.specs.Buffered.{buffered_view, HandsOn};

use ef_io::{Failed, Sink};

/// A sink that gathers what is written and hands it on in large pieces. It takes no memory: the vector that gathers
/// is given, and a piece that is larger than its capacity goes to the sink at once. What is still gathered when it is
/// dropped is lost, so `flush` comes last.
#[derive(Drop)]
pub struct Buffered<'a, O> {
    sink: &'a mut O,
    pending: Vec<u8>,
    // How many bytes of `pending` the sink has taken, before a fault.
    handed: usize,
}

impl<'a, O: Sink> Buffered<'a, O> {
    /// A sink over this one, which gathers in the vector.
    pub fn new(sink: &'a mut O, pending: Vec<u8>) -> Self
        requires { pending.items ≡ [] }
        ensures same_reference { result.sink.ghost_name ≡ sink.entry.ghost_name }
        ensures same_sink { result.sink.now ≡ sink.old }
        ensures nothing_pending { result.pending.items ≡ [] }
        ensures nothing_handed { result.handed ≡ 0 }
    {
        Buffered {
            sink,
            pending,
            handed: 0,
        }
    }

    /// Hands on all that is gathered. After a fault the rest stays gathered.
    pub fn flush(&mut self) -> Result<(), Failed>
        requires { (O.seen self.old.sink.now).is_open ≡ true }
        ensures same_reference { self.new.sink.ghost_name ≡ self.old.sink.ghost_name }
        ensures stays { Stays (O.seen self.old.sink.now) (O.seen self.new.sink.now) }
        ensures hands_on { HandsOn (O.seen self.old.sink.now) self.old.pending.items self.old.handed (O.seen self.new.sink.now) self.new.pending.items self.new.handed result }
        ensures cause { HasWriteCause (O.seen self.old.sink.now) (O.seen self.new.sink.now) result }
    {
        while self.handed < self.pending.len() {
            self.handed += self.sink.write(&self.pending[self.handed..])?;
        }
        self.pending.clear();
        self.handed = 0;
        Ok(())
    }

    /// The sink behind it. What is still gathered is lost.
    pub fn into_sink(self) -> &'a mut O
        ensures same_reference { result.ghost_name ≡ self.entry.sink.ghost_name }
        ensures same_sink { result.now ≡ self.entry.sink.now }
    {
        let Buffered { sink, .. } = self;
        sink
    }
}

impl<O: Sink> Sink for Buffered<'_, O> {
    ghost seen = { λ it. buffered_view (O.seen it.sink.now) it.sink.ghost_name it.pending.items it.handed };

    fn write(&mut self, piece: &[u8]) -> Result<usize, Failed> {
        if self.handed > 0 || piece.len() > self.pending.capacity() - self.pending.len() {
            self.flush()?;
        }
        if piece.len() > self.pending.capacity() - self.pending.len() {
            return self.sink.write(piece);
        }
        self.pending.extend_from_slice(piece).unwrap();
        Ok(piece.len())
    }
}
