// Where files are read.
ghost use Rattle.std.specs.Prelude.{◌≡◌, ◌≤◌};
ghost use Rattle.ef_io.specs.Sources.{SourcesView, Reads, KeepsRead, HasReadCause};
ghost use Rattle.ef_io.specs.declared.sources.ReadRefusal.TheVariants.{NoMemory as no_memory};

use std::alloc::AllocError;

/// Why a file was not read.
#[derive(Clone, Copy, Debug, PartialEq, Eq)]
pub enum ReadRefusal {
    /// The path names no file.
    Absent,
    /// The content is longer than the limit.
    TooLarge,
    /// The system refused.
    Failed,
    NoMemory,
}

impl From<AllocError> for ReadRefusal {
    ghost from_gives = { λ _ e. e ≡ no_memory };

    fn from(_: AllocError) -> Self {
        ReadRefusal::NoMemory
    }
}

/// Files that are read by their paths.
pub trait Sources {
    /// What the object shows: the map from paths to contents, where it tells it, the count of faults, and the path
    /// of the last call that failed.
    ghost seen: { Self → SourcesView };

    /// Appends the content of the path, which is refused where it has more than `limit` bytes.
    fn read(&mut self, path: &str, limit: usize, into: &mut Vec<u8>) -> Result<(), ReadRefusal>
        ensures told { (seen self.new).files ≡ (seen self.old).files }
        ensures content { Reads (seen self.old).files path.now limit into.old.items into.new.items result }
        ensures kept { KeepsRead limit into.old.items into.new.items result }
        ensures cause { HasReadCause (seen self.old) (seen self.new) path.now result };
}
