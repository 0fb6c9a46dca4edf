// The files of the system, as sources.
ghost use Rattle.std.specs.Prelude.{◌≡◌, ◌≤◌, ◌+◌, None, OnOk, vec_len};
ghost use Rattle.ef_io.specs.Files.{sources_view, IsGrown};

use crate::calls::one_more;
use crate::{ReadRefusal, Sources};
use ef_base::Bytes;
use std::alloc::Global;
use std::io::{ErrorKind, Read};
use std::rt::Files;
use std::{fs, io};

/// The files of the system, which tell nothing of what they hold.
#[derive(Drop)]
pub struct FileSources<'a, R> {
    rt: &'a R,
    alloc: Global,
    faults: u64,
    failed: Option<Bytes>,
}

impl<'a, R: Files> FileSources<'a, R> {
    pub fn new(alloc: Global, rt: &'a R) -> Self
        ensures { ⟦<FileSources<'a, R> as Sources>⟧.seen result ≡ sources_view 0 None }
    {
        FileSources {
            rt,
            alloc,
            faults: 0,
            failed: None,
        }
    }
}

impl<R: Files> Sources for FileSources<'_, R> {
    ghost seen = { λ it. sources_view it.faults it.failed };

    fn read(&mut self, path: &str, limit: usize, into: &mut Vec<u8>) -> Result<(), ReadRefusal> {
        let start = into.len();
        let Err(refusal) = append(self.rt, path, limit, into) else {
            return Ok(());
        };
        into.truncate(start);
        if refusal == ReadRefusal::Failed {
            self.failed = Some(Bytes::from_vec(path.as_bytes().to_vec(self.alloc)?));
            self.faults = one_more(self.faults);
        }
        Err(refusal)
    }
}

// Appends the content of a file, as far as one byte past the limit.
fn append<R: Files>(rt: &R, path: &str, limit: usize, into: &mut Vec<u8>) -> Result<(), ReadRefusal>
    ensures grown { IsGrown into.old.items into.new.items }
    ensures within { OnOk result (vec_len into.new ≤ vec_len into.old + limit) }
{
    let mut file = match fs::open(rt, path) {
        Ok(file) => file,
        Err(e) if names_no_file(&e) => return Err(ReadRefusal::Absent),
        Err(_) => return Err(ReadRefusal::Failed),
    };
    let start = into.len();
    let mut left = limit.saturating_add(1);
    let mut buffer = [0u8; 8192];
    while left > 0 {
        let most = left.min(buffer.len());
        let Ok(n) = file.read(&mut buffer[..most]) else {
            return Err(ReadRefusal::Failed);
        };
        if n == 0 {
            break;
        }
        into.extend_from_slice(&buffer[..n])?;
        left -= n;
    }
    if into.len() - start > limit {
        return Err(ReadRefusal::TooLarge);
    }
    Ok(())
}

// Nothing is there, or the path goes through what is no folder.
fn names_no_file(error: &io::Error) -> bool {
    matches!(error.kind(), ErrorKind::NotFound | ErrorKind::NotADirectory)
}
