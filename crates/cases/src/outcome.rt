// What a case comes to.
ghost use Rattle.std.specs.Prelude.{◌≡◌, ◌↔◌, true, IfOk, IsTrue};
ghost use Rattle.cases.specs.Meets.{BeginsWith, IsWanted};

use crate::case::{Case, Text, Wanted};
use ef_base::{Bytes, NoMemory};
use ef_front::erlfront;
use ef_io::{MemoryFile, MemoryOutput, MemorySink, MemorySources, Status};
use std::alloc::Global;

// The bytes that are printed at most.
const PRINTED: usize = 1_000_000;

/// The status of a run, what it printed, and what it created.
#[derive(Drop)]
pub struct Outcome {
    pub status: Status,
    pub printed: Vec<u8>,
    pub created: Option<Text>,
}

/// Runs the case.
pub fn run(alloc: Global, case: &Case) -> Result<Outcome, NoMemory> {
    let trouble = &case.trouble;
    let files = files(alloc, &case.files)?;
    let mut sources = MemorySources::new(alloc, files, trouble.reads.clone()?)?;
    let mut output = MemoryOutput::new(alloc, trouble.room, trouble.writes.clone()?)?;
    let mut diag = MemorySink::new(alloc, PRINTED, trouble.prints.clone()?)?;
    let status = erlfront(alloc, &case.words, &mut sources, &mut output, &mut diag);
    Ok(Outcome {
        status,
        printed: diag.bytes().to_vec(alloc)?,
        created: made(alloc, &output)?,
    })
}

fn files(alloc: Global, texts: &[Text]) -> Result<Vec<MemoryFile>, NoMemory> {
    let mut files = Vec::new(alloc);
    for text in texts {
        files.push(MemoryFile {
            path: Bytes::from_slice(alloc, text.path.as_bytes())?,
            content: Bytes::from_slice(alloc, &text.bytes)?,
        })?;
    }
    Ok(files)
}

// What the output holds, if it was created. A path of a run is text.
fn made(alloc: Global, output: &MemoryOutput) -> Result<Option<Text>, NoMemory> {
    let Some((path, bytes)) = output.created() else {
        return Ok(None);
    };
    let Ok(path) = str::from_utf8(path) else {
        return Ok(None);
    };
    Ok(Some(Text {
        path: String::from_str(alloc, path)?,
        bytes: bytes.to_vec(alloc)?,
    }))
}

impl Outcome {
    /// Whether it is what the case wants.
    pub fn meets(&self, case: &Case) -> bool
        ensures { IsTrue result ↔ (self.now.status ≡ case.now.status) × (self.now.printed.items ≡ case.now.printed.items) × IsWanted case.now.created self.now.status self.now.created }
    {
        self.status == case.status
            && self.printed == case.printed
            && is_wanted(&case.created, self.status, &self.created)
    }
}

// Whether this was to be created.
fn is_wanted(wanted: &Wanted, status: Status, created: &Option<Text>) -> bool
    ensures { IsTrue result ↔ IsWanted wanted.now status created.now }
{
    match (wanted, created) {
        (Wanted::Any, created) => created.is_some() == (status == Status::Written),
        (Wanted::Whole(text), Some(made)) => made.path == text.path && made.bytes == text.bytes,
        (Wanted::Begun(text), Some(made)) => {
            made.path == text.path && begins_with(&made.bytes, &text.bytes)
        }
        (_, None) => false,
    }
}

fn begins_with(bytes: &[u8], front: &[u8]) -> bool
    ensures { IsTrue result ↔ BeginsWith front.now bytes.now }
{
    front.len() <= bytes.len() && &bytes[..front.len()] == front
}
