// The parts of a text.
ghost use Rattle.std.specs.Prelude.{◌≡◌, IfOk, false};
ghost use Rattle.ef_base.specs.Characters.{is_white};
ghost use Rattle.ef_scan.specs.Cursors.{IsInText, IsStep};
ghost use Rattle.ef_scan.specs.Parts.{IsPartAt};

use crate::class::Class;
use crate::cursor::Cursor;
use crate::lexeme::lexeme;
use crate::skip::skip;
use crate::verdict::{Piece, Verdict};
use ef_base::NoMemory;
use std::alloc::Global;

/// A lexeme, a comment behind its `%`, or the code of a fault, behind which the form is passed over.
#[derive(Drop)]
pub(crate) enum Part<'a> {
    Lexeme(Piece<'a>),
    Comment(&'a str),
    Fault(u16),
}

/// A part and the place behind it.
#[derive(Drop)]
pub(crate) struct Found<'a> {
    pub part: Part<'a>,
    pub behind: Cursor<'a>,
}

/// The part at a place with this character, behind which the second place is.
pub(crate) fn next_part<'a>(
    alloc: Global,
    at: Cursor<'a>,
    first: char,
    behind: Cursor<'a>,
) -> Result<Found<'a>, NoMemory>
    requires in_text { IsInText at }
    requires step { IsStep at first behind }
    requires solid { is_white first ≡ false }
    ensures { IfOk result (λ found. IsPartAt at.entry found.part found.behind) }
{
    if first == '%' {
        let run = behind.run(Class::Line);
        return Ok(Found {
            part: Part::Comment(behind.text_to(run.behind)),
            behind: run.behind,
        });
    }
    match lexeme(alloc, at, first, behind)? {
        Verdict::Found(piece, behind) => Ok(Found {
            part: Part::Lexeme(piece),
            behind,
        }),
        Verdict::Fault(code) => Ok(Found {
            part: Part::Fault(code),
            behind: skip(at),
        }),
    }
}
