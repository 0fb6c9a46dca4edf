// What is printed of a case that differs.
ghost use Rattle.std.specs.Prelude.{◌≡◌, ◌++◌, OnOk};

use crate::case::{Case, Text, Wanted};
use crate::outcome::Outcome;
use ef_base::NoMemory;
use ef_io::Status;
use std::alloc::Global;

/// The case, what it wants, and what came.
pub fn report(alloc: Global, path: &str, case: &Case, came: &Outcome) -> Result<Vec<u8>, NoMemory> {
    let mut into = Vec::new(alloc);
    let line = case.line;
    let name = case.name.as_str();
    push(
        &mut into,
        format!(in alloc; "{path}:{line}: {name}\n")?.as_bytes(),
    )?;
    push(&mut into, b"wanted ")?;
    push(&mut into, status_text(case.status).as_bytes())?;
    push(&mut into, &case.printed)?;
    match &case.created {
        Wanted::Any => {}
        Wanted::Whole(text) => created(&mut into, b"created ", text.path.as_bytes(), &text.bytes)?,
        Wanted::Begun(text) => created(&mut into, b"begun ", text.path.as_bytes(), &text.bytes)?,
    }
    push(&mut into, b"came ")?;
    push(&mut into, status_text(came.status).as_bytes())?;
    push(&mut into, &came.printed)?;
    if let Some(made) = &came.created {
        created(&mut into, b"created ", made.path.as_bytes(), &made.bytes)?;
    }
    Ok(into)
}

fn created(into: &mut Vec<u8>, word: &[u8], path: &[u8], text: &[u8]) -> Result<(), NoMemory> {
    push(into, word)?;
    push(into, path)?;
    push(into, b"\n")?;
    push(into, text)
}

fn push(into: &mut Vec<u8>, text: &[u8]) -> Result<(), NoMemory>
    ensures { OnOk result (into.new.items ≡ into.old.items ++ text.now) }
{
    Ok(into.extend_from_slice(text)?)
}

fn status_text(status: Status) -> &'static str {
    match status {
        Status::Written => "status 0\n",
        Status::Faults => "status 1\n",
        Status::Words => "status 2\n",
        Status::NoMemory => "status 3\n",
        Status::ReadFault => "status 4\n",
        Status::WriteFault => "status 5\n",
    }
}
