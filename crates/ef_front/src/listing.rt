// The lines of faults.
ghost use Rattle.std.specs.Prelude.{◌≡◌, ◌++◌, IfOk, OnOk};
ghost use Rattle.std.specs.Fmt.{decimal};
ghost use Rattle.ef_front.specs.Lines.{image, line_of, text_of};

use ef_base::codes::wording_of;
use ef_base::{Fault, FaultList, NoMemory};
use std::alloc::Global;

/// The lines of the faults in the file of this path, in order.
pub fn lines(alloc: Global, path: &[u8], faults: &FaultList) -> Result<Vec<u8>, NoMemory>
    ensures { IfOk result (λ text. text.items ≡ image path.now faults.now) }
{
    let mut text = Vec::new(alloc);
    for fault in faults.iter() {
        push_line(alloc, &mut text, path, fault)?;
    }
    Ok(text)
}

fn push_line(alloc: Global, text: &mut Vec<u8>, path: &[u8], fault: &Fault) -> Result<(), NoMemory>
    ensures { OnOk result (text.new.items ≡ text.old.items ++ line_of path.now fault.now) }
{
    text.extend_from_slice(path)?;
    push_number(alloc, text, b":", fault.place.line)?;
    push_number(alloc, text, b":", fault.place.column)?;
    push_number(alloc, text, b": E", u32::from(fault.code))?;
    push_text(text, fault)
}

// What the fault says, to the end of its line.
fn push_text(text: &mut Vec<u8>, fault: &Fault) -> Result<(), NoMemory>
    ensures { OnOk result (text.new.items ≡ text.old.items ++ text_of fault.now) }
{
    let wording = wording_of(fault.code);
    text.extend_from_slice(b": ")?;
    text.extend_from_slice(wording.before)?;
    text.extend_from_slice(fault.words.as_slice())?;
    text.extend_from_slice(wording.after)?;
    text.extend_from_slice(b"\n")?;
    Ok(())
}

fn push_number(
    alloc: Global,
    text: &mut Vec<u8>,
    before: &[u8],
    number: u32,
) -> Result<(), NoMemory>
    ensures { OnOk result (text.new.items ≡ text.old.items ++ before.now ++ decimal number) }
{
    let digits = number.to_string(alloc)?;
    text.extend_from_slice(before)?;
    text.extend_from_slice(digits.as_bytes())?;
    Ok(())
}
