// A file of the system that is created and written.
ghost use Rattle.std.specs.Prelude.{◌≡◌, is_some, false};
ghost use Rattle.ef_io.specs.Files.{file_view, closed_view, not_created_while_closed};

use crate::calls::one_more;
use crate::{Failed, Output, Sink};
use ef_base::Bytes;
use std::alloc::Global;
use std::fs;
use std::io::Write;
use std::rt::Files;

/// A file of the system, which tells nothing of what it took. It is open after `create`.
#[derive(Drop)]
pub struct FileOutput<'a, R: Files> {
    rt: &'a R,
    alloc: Global,
    file: Option<R::File>,
    path: Bytes,
    faults: u64,
}

impl<'a, R: Files> FileOutput<'a, R> {
    /// No file yet.
    pub fn new(alloc: Global, rt: &'a R) -> Self
        ensures { ⟦<FileOutput<'a, R> as Sink>⟧.seen result ≡ closed_view 0 }
    {
        FileOutput {
            rt,
            alloc,
            file: None,
            path: Bytes::new(alloc),
            faults: 0,
        }
    }
}

impl<R: Files> Sink for FileOutput<'_, R> {
    ghost seen = { λ it. file_view (is_some it.file) it.path it.faults };

    fn write(&mut self, piece: &[u8]) -> Result<usize, Failed> {
        let Some(file) = &mut self.file else {
            unreachable!()
        };
        match file.write(piece) {
            Ok(n) if n > 0 || piece.is_empty() => Ok(n),
            _ => {
                self.faults = one_more(self.faults);
                Err(Failed)
            }
        }
    }
}

impl<R: Files> Output for FileOutput<'_, R> {
    ghost not_created = { λ it closed. not_created_while_closed (is_some it.file) it.path it.faults closed };

    // The path is copied first: where there is no memory for it, the file of before stays as it is.
    fn create(&mut self, path: &str) -> Result<(), Failed> {
        let Ok(kept) = path.as_bytes().to_vec(self.alloc) else {
            self.faults = one_more(self.faults);
            return Err(Failed);
        };
        let Ok(file) = fs::create(self.rt, path) else {
            self.faults = one_more(self.faults);
            return Err(Failed);
        };
        self.path = Bytes::from_vec(kept);
        self.file = Some(file);
        Ok(())
    }
}
