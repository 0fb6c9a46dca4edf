// Bytes in memory, with a fixed room for them.
ghost use Rattle.std.specs.Prelude.{◌≡◌, ◌≤◌, [], IfOk, vec_len, vec_capacity};

use crate::Failed;
use crate::calls::{Calls, one_more};
use ef_base::NoMemory;
use std::alloc::Global;

/// The bytes written, the room for all of them, the calls and the count of faults.
#[derive(Drop)]
pub struct Store {
    pub bytes: Vec<u8>,
    pub room: usize,
    pub calls: Calls,
    pub faults: u64,
    ghost within: { vec_len bytes ≤ room },
    ghost kept: { room ≤ vec_capacity bytes },
}

impl Store {
    ghost use Rattle.ef_io.specs.Store.{HoldsNothing, Takes};
    ghost use Rattle.ef_io.specs.Sink.{HasCause};

    /// An empty store, whose room is taken at once.
    pub fn new(alloc: Global, room: usize, failing: Vec<u64>) -> Result<Store, NoMemory>
        ensures { IfOk result (HoldsNothing room failing) }
    {
        Ok(Store {
            bytes: Vec::with_capacity(alloc, room)?,
            room,
            calls: Calls::new(failing),
            faults: 0,
        })
    }

    /// Takes what fits of the piece.
    pub fn take(&mut self, piece: &[u8]) -> Result<usize, Failed>
        ensures takes { Takes self.old self.new piece.now result }
        ensures cause { HasCause self.old.faults self.new.faults result }
    {
        let fails = self.calls.count();
        let length = piece.len().min(self.room - self.bytes.len());
        if fails || (length == 0 && !piece.is_empty()) {
            self.faults = one_more(self.faults);
            return Err(Failed);
        }
        self.bytes.extend_from_slice(&piece[..length]).unwrap();
        Ok(length)
    }
}
