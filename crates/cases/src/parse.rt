// Files of cases.
ghost use Rattle.std.specs.Prelude.{◌≡◌, ◌⊎◌, ◌+◌, None, IfErr, if◌then◌else◌, OnOk, vec_len, is_some};

use crate::case::Case;
use crate::draft::Draft;
use crate::problem::{Broken, Problem};
use std::alloc::Global;

/// The cases of a file, in order.
pub fn parse(alloc: Global, text: &str) -> Result<Vec<Case>, Broken> {
    let mut cases: Vec<Case> = Vec::new(alloc);
    let mut draft: Option<Draft> = None;
    let mut line: u64 = 0;
    for content in text.lines() {
        line = line.saturating_add(1);
        if let Err(problem) = read_line(alloc, line, content, &mut draft, &mut cases) {
            return Err(Broken { line, problem });
        }
    }
    match end(alloc, draft, &mut cases) {
        Ok(()) => Ok(cases),
        Err(problem) => Err(Broken { line, problem }),
    }
}

// One more line.
fn read_line(
    alloc: Global,
    number: u64,
    line: &str,
    draft: &mut Option<Draft>,
    cases: &mut Vec<Case>,
) -> Result<(), Problem>
    // Before the first case, anything else is outside of one.
    ensures outside { draft.old ≡ None → IfErr result (λ problem. (problem ≡ Problem.Outside) ⊎ (problem ≡ Problem.NoMemory)) }
{
    if line.is_empty() || line.starts_with('#') {
        return Ok(());
    }
    if let Some(name) = line.strip_prefix("case ") {
        end(alloc, draft.take(), cases)?;
        *draft = Some(Draft::new(alloc, number, name)?);
        return Ok(());
    }
    match draft {
        Some(draft) => draft.read(alloc, line),
        None => Err(Problem::Outside),
    }
}

// The case that the lines before made, if there is one.
fn end(alloc: Global, draft: Option<Draft>, cases: &mut Vec<Case>) -> Result<(), Problem>
    ensures none { draft ≡ None → OnOk result (cases.new ≡ cases.old) }
    ensures one { OnOk result (vec_len cases.new ≡ vec_len cases.old + (if is_some draft then 1 else 0)) }
    ensures memory { draft ≡ None → IfErr result (λ _. ⊥) }
{
    if let Some(draft) = draft {
        cases.push(draft.finish(alloc)?)?;
    }
    Ok(())
}
