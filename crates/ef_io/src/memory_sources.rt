// Sources in memory.
ghost use Rattle.std.specs.Prelude.{◌≡◌, None, Some, IfOk};
ghost use Rattle.std.specs.Option.{option_copied};
ghost use Rattle.ef_io.specs.Sources.{Reads, KeepsRead, HasReadCause};
ghost use Rattle.ef_io.specs.MemorySources.{sources_view, files_of, FailsAsListed};

use crate::calls::{Calls, one_more};
use crate::{ReadRefusal, Sources};
use ef_base::{Bytes, NoMemory};
use std::alloc::Global;

/// A file in memory.
#[derive(Drop)]
pub struct MemoryFile {
    pub path: Bytes,
    pub content: Bytes,
}

/// Sources in memory. Where a path stands twice, the first file counts; the calls of the numbers given, counted from
/// 1, fail.
#[derive(Drop)]
pub struct MemorySources {
    alloc: Global,
    files: Vec<MemoryFile>,
    calls: Calls,
    faults: u64,
    failed: Option<Bytes>,
}

impl MemorySources {
    /// Sources of these files.
    pub fn new(
        alloc: Global,
        files: Vec<MemoryFile>,
        failing: Vec<u64>,
    ) -> Result<MemorySources, NoMemory>
        ensures shows { IfOk result (λ it. sources_view it ≡ record { files = Some (files_of files.items); faults = 0; failed = None }) }
        ensures calls { IfOk result (λ it. it.calls ≡ record { failing = failing; made = 0 }) }
    {
        Ok(MemorySources {
            alloc,
            files,
            calls: Calls::new(failing),
            faults: 0,
            failed: None,
        })
    }
}

impl Sources for MemorySources {
    ghost seen = { sources_view };

    fn read(&mut self, path: &str, limit: usize, into: &mut Vec<u8>) -> Result<(), ReadRefusal>
        ensures told { (sources_view self.new).files ≡ (sources_view self.old).files }
        ensures content { Reads (sources_view self.old).files path.now limit into.old.items into.new.items result }
        ensures kept { KeepsRead limit into.old.items into.new.items result }
        ensures cause { HasReadCause (sources_view self.old) (sources_view self.new) path.now result }
        ensures listed { FailsAsListed self.old self.new result }
    {
        if self.calls.count() {
            self.failed = Some(Bytes::from_vec(path.as_bytes().to_vec(self.alloc)?));
            self.faults = one_more(self.faults);
            return Err(ReadRefusal::Failed);
        }
        let Some(content) = find(&self.files, path) else {
            return Err(ReadRefusal::Absent);
        };
        let content = content.as_slice();
        if content.len() > limit {
            return Err(ReadRefusal::TooLarge);
        }
        into.extend_from_slice(content)?;
        Ok(())
    }
}

/// The content of the first file of this path.
pub(crate) fn find<'a>(files: &'a [MemoryFile], path: &str) -> Option<&'a Bytes>
    ensures { option_copied result ≡ files_of files.now path.now }
{
    for file in files {
        if file.path.as_slice() == path.as_bytes() {
            return Some(&file.content);
        }
    }
    None
}
