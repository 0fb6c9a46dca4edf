// A sink in memory.
ghost use Rattle.std.specs.Prelude.{◌≡◌, [], true, None, Some, IfOk, length};
ghost use Rattle.ef_io.specs.Sink.{Writes, HasWriteCause, FitsIn, Stays};
ghost use Rattle.ef_io.specs.Store.{HoldsNothing, Takes};
ghost use Rattle.ef_io.specs.MemorySink.{sink_view};

use crate::store::Store;
use crate::{Failed, Sink};
use ef_base::NoMemory;
use std::alloc::Global;

/// A sink in memory that is open from the start. A write takes what fits into its room; the calls of the numbers
/// given, counted from 1, fail.
#[derive(Drop)]
pub struct MemorySink {
    store: Store,
}

impl MemorySink {
    /// An empty sink with this room, which is taken at once.
    pub fn new(alloc: Global, room: usize, failing: Vec<u64>) -> Result<MemorySink, NoMemory>
        ensures shows { IfOk result (λ it. sink_view it ≡ record { written = Some []; room = None; faults = 0; is_open = true; created = None }) }
        ensures holds { IfOk result (λ it. HoldsNothing room failing it.store) }
    {
        Ok(MemorySink {
            store: Store::new(alloc, room, failing)?,
        })
    }

    /// The bytes written.
    pub fn bytes(&self) -> &[u8]
        ensures { (sink_view self.now).written ≡ Some result.now }
    {
        self.store.bytes.as_slice()
    }
}

impl Sink for MemorySink {
    ghost seen = { sink_view };

    fn write(&mut self, piece: &[u8]) -> Result<usize, Failed>
        ensures stays { Stays (sink_view self.old) (sink_view self.new) }
        ensures writes { Writes (sink_view self.old) (sink_view self.new) piece.now result }
        ensures cause { HasWriteCause (sink_view self.old) (sink_view self.new) result }
        ensures fits { FitsIn (sink_view self.old).room (length piece.now) result }
        ensures takes { Takes self.old.store self.new.store piece.now result }
    {
        self.store.take(piece)
    }
}
