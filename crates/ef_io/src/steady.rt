// The steady forms: sources that never fail, and a sink that tells its room.
ghost use Rattle.std.specs.Prelude.{◌≡◌, ◌≤◌, [], true, None, Some, IfOk, length, vec_len, vec_capacity};
ghost use Rattle.ef_io.specs.MemorySources.{files_of};
ghost use Rattle.ef_io.specs.Sink.{Writes, HasWriteCause, FitsIn, Stays};
ghost use Rattle.ef_io.specs.Sources.{Reads, KeepsRead, HasReadCause};

use crate::calls::one_more;
use crate::memory_sources::find;
use crate::{Failed, MemoryFile, ReadRefusal, Sink, Sources};
use ef_base::NoMemory;
use std::alloc::Global;

/// Sources in memory of which no call fails. Where a path stands twice, the first file counts.
#[derive(Drop)]
pub struct SteadySources {
    files: Vec<MemoryFile>,
}

impl SteadySources {
    ghost use Rattle.ef_io.specs.Steady.{sources_view};

    /// Sources of these files.
    pub fn new(files: Vec<MemoryFile>) -> Result<SteadySources, NoMemory>
        ensures { IfOk result (λ it. sources_view it ≡ record { files = Some (files_of files.items); faults = 0; failed = None }) }
    {
        Ok(SteadySources { files })
    }
}

impl Sources for SteadySources {
    ghost use Rattle.ef_io.specs.Steady.{sources_view};

    ghost seen = { sources_view };

    fn read(&mut self, path: &str, limit: usize, into: &mut Vec<u8>) -> Result<(), ReadRefusal>
        ensures told { (sources_view self.new).files ≡ (sources_view self.old).files }
        ensures content { Reads (sources_view self.old).files path.now limit into.old.items into.new.items result }
        ensures kept { KeepsRead limit into.old.items into.new.items result }
        ensures cause { HasReadCause (sources_view self.old) (sources_view self.new) path.now result }
    {
        let Some(content) = find(&self.files, path) else {
            return Err(ReadRefusal::Absent);
        };
        let content = content.as_slice();
        if content.len() > limit {
            return Err(ReadRefusal::TooLarge);
        }
        into.extend_from_slice(content)?;
        Ok(())
    }
}

/// A sink in memory that is open from the start and tells the room that is left. A write takes what fits.
#[derive(Drop)]
pub struct SteadySink {
    bytes: Vec<u8>,
    room: usize,
    faults: u64,
    ghost within: { vec_len bytes ≤ room },
    ghost kept: { room ≤ vec_capacity bytes },
}

impl SteadySink {
    ghost use Rattle.ef_io.specs.Steady.{sink_view};

    /// An empty sink with this room, which is taken at once.
    pub fn new(alloc: Global, room: usize) -> Result<SteadySink, NoMemory>
        ensures { IfOk result (λ it. sink_view it ≡ record { written = Some []; room = Some room; faults = 0; is_open = true; created = None }) }
    {
        Ok(SteadySink {
            bytes: Vec::with_capacity(alloc, room)?,
            room,
            faults: 0,
        })
    }

    /// The bytes written.
    pub fn bytes(&self) -> &[u8]
        ensures { (sink_view self.now).written ≡ Some result.now }
    {
        self.bytes.as_slice()
    }
}

impl Sink for SteadySink {
    ghost use Rattle.ef_io.specs.Steady.{sink_view, room_left, TakesSteadily};

    ghost seen = { sink_view };

    fn write(&mut self, piece: &[u8]) -> Result<usize, Failed>
        ensures stays { Stays (sink_view self.old) (sink_view self.new) }
        ensures writes { Writes (sink_view self.old) (sink_view self.new) piece.now result }
        ensures cause { HasWriteCause (sink_view self.old) (sink_view self.new) result }
        ensures fits { FitsIn (sink_view self.old).room (length piece.now) result }
        ensures takes { TakesSteadily (room_left self.old) piece.now result }
    {
        let length = piece.len().min(self.room - self.bytes.len());
        if length == 0 && !piece.is_empty() {
            self.faults = one_more(self.faults);
            return Err(Failed);
        }
        self.bytes.extend_from_slice(&piece[..length]).unwrap();
        Ok(length)
    }
}
