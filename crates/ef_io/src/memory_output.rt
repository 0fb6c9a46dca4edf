// An output in memory.
ghost use Rattle.std.specs.Prelude.{◌≡◌, ◌≤◌, [], true, false, None, Some, IfOk, length, vec_capacity};
ghost use Rattle.ef_io.specs.Sink.{Writes, HasWriteCause, FitsIn, Stays, Creates};

use crate::calls::one_more;
use crate::store::Store;
use crate::{Failed, Output, Sink};
use ef_base::NoMemory;
use std::alloc::Global;

/// An output in memory, which is open after `create`. A write takes what fits into its room, and so long may a path
/// be; the calls of the numbers given, counted from 1 over both kinds, fail.
#[derive(Drop)]
pub struct MemoryOutput {
    path: Vec<u8>,
    is_open: bool,
    store: Store,
    ghost kept: { store.room ≤ vec_capacity path },
}

impl MemoryOutput {
    ghost use Rattle.ef_io.specs.Store.{HoldsNothing};
    ghost use Rattle.ef_io.specs.MemoryOutput.{output_view, IsTold};

    /// An output with this room, for the bytes and for the path, which is taken at once.
    pub fn new(alloc: Global, room: usize, failing: Vec<u64>) -> Result<MemoryOutput, NoMemory>
        ensures shows { IfOk result (λ it. output_view it ≡ record { written = Some []; room = None; faults = 0; is_open = false; created = None }) }
        ensures holds { IfOk result (λ it. HoldsNothing room failing it.store) }
    {
        Ok(MemoryOutput {
            path: Vec::with_capacity(alloc, room)?,
            is_open: false,
            store: Store::new(alloc, room, failing)?,
        })
    }

    /// The path created and the bytes written, if it is open.
    pub fn created(&self) -> Option<(&[u8], &[u8])>
        ensures { IsTold (output_view self.now) result }
    {
        if self.is_open {
            Some((self.path.as_slice(), self.store.bytes.as_slice()))
        } else {
            None
        }
    }
}

impl Sink for MemoryOutput {
    ghost use Rattle.ef_io.specs.Store.{Takes};
    ghost use Rattle.ef_io.specs.MemoryOutput.{output_view};

    ghost seen = { output_view };

    fn write(&mut self, piece: &[u8]) -> Result<usize, Failed>
        requires { (output_view self.old).is_open ≡ true }
        ensures stays { Stays (output_view self.old) (output_view self.new) }
        ensures writes { Writes (output_view self.old) (output_view self.new) piece.now result }
        ensures cause { HasWriteCause (output_view self.old) (output_view self.new) result }
        ensures fits { FitsIn (output_view self.old).room (length piece.now) result }
        ensures takes { Takes self.old.store self.new.store piece.now result }
    {
        self.store.take(piece)
    }
}

impl Output for MemoryOutput {
    ghost use Rattle.ef_io.specs.MemoryOutput.{output_view, CreatesWithin, not_created_while_closed};

    ghost not_created = { not_created_while_closed };

    fn create(&mut self, path: &str) -> Result<(), Failed>
        requires { (output_view self.old).is_open ≡ false }
        ensures creates { Creates (output_view self.old) (output_view self.new) path.now result }
        ensures cause { HasWriteCause (output_view self.old) (output_view self.new) result }
        ensures within { CreatesWithin self.old.store self.new.store path.now result }
    {
        let fails = self.store.calls.count();
        if fails || path.len() > self.store.room {
            self.store.faults = one_more(self.store.faults);
            return Err(Failed);
        }
        self.path.clear();
        self.path.extend_from_slice(path.as_bytes()).unwrap();
        self.store.bytes.clear();
        self.is_open = true;
        Ok(())
    }
}
