// The forms of a text.
ghost use Rattle.std.specs.Prelude.{◌≡◌, ◌<◌, ◌+◌, ◌^◌, ◌∷◌, [], ◌++◌, List, ℕ, length, take, chars, IfOk};
ghost use Rattle.std.specs.Str.{IsValidUpTo};
ghost use Rattle.ef_base.specs.Texts.{AllDiffer, Extends, Texts};
ghost use Rattle.ef_base.specs.Positions.{Position, first_position, place_at, position_after};
ghost use Rattle.ef_base.specs.Cut.{Placed};
ghost use Rattle.ef_token.specs.Parts as parts;
ghost use Rattle.ef_scan.specs.Scan.{HasOneCut, HasOneScan, IsScanned, TokenFormLaws};
ghost use Rattle.ef_scan.specs.Gathered.{Gathers};
ghost use Rattle.ef_scan.specs.Parts.{IsPart, IsShort, placed};

use crate::class::Class;
use crate::cursor::Cursor;
use crate::gathered::{Gathered, alone};
use crate::kind::kind_of;
use crate::part::{Part, next_part};
use ef_base::codes::NOT_UTF8;
use ef_base::{Names, NoMemory, Place};
use ef_token::{ScannedForm, Token};
use std::alloc::Global;
use std::str;

/// The forms of a file's text: each with the tokens up to its full stop, or the one fault of a faulty form. Columns count
/// characters. A text without lexemes has no forms. After want of memory the table may have more names.
pub fn scan(
    alloc: Global,
    names: &mut Names,
    text: &[u8],
    file: u32,
) -> Result<Vec<ScannedForm>, NoMemory>
    requires { length text.now < 2 ^ 32 }
    ensures kept { Extends names.old names.new }
    ensures differ { AllDiffer names.old → AllDiffer names.new }
    ensures forms { IfOk result (λ forms. (all : Texts) → Extends names.new all → IsScanned all file text.now forms.items) }
    ensures one_cut { HasOneCut text.now }
    ensures one_scan { HasOneScan text.now }
    ensures token_forms { TokenFormLaws text.now }
{
    match str::from_utf8(text) {
        Ok(text) => forms_of(alloc, names, text, file),
        Err(error) => {
            let place = bad_place(text, error.valid_up_to(), file);
            alone(alloc, place, NOT_UTF8)
        }
    }
}

// The forms of a text of UTF-8.
fn forms_of(
    alloc: Global,
    names: &mut Names,
    text: &str,
    file: u32,
) -> Result<Vec<ScannedForm>, NoMemory>
    requires { length text.now < 2 ^ 32 }
    ensures kept { Extends names.old names.new }
    ensures differ { AllDiffer names.old → AllDiffer names.new }
    ensures forms { IfOk result (λ forms. (all : Texts) → Extends names.new all → IsScanned all file text.now forms.items) }
{
    let mut gathered = Gathered::new(alloc);
    let start = Cursor::new(text);
    let white = start.run(Class::White);
    let mut cursor = white.behind;
    'parts: while let Some(first) = cursor.step() {
        let found = next_part(alloc, cursor, first.0, first.1)?;
        let place = cursor.place(file);
        gather(alloc, names, &mut gathered, found.part, place)?;
        let gap = found.behind.run(Class::White);
        cursor = gap.behind;
    }
    gathered.finish(alloc)
}

// One more part.
fn gather(
    alloc: Global,
    names: &mut Names,
    gathered: &mut Gathered,
    part: Part<'_>,
    place: Place,
) -> Result<(), NoMemory>
    requires is_part { (p : parts.Part) × IsPart part p }
    requires short { IsShort part }
    ensures kept { Extends names.old names.new }
    ensures differ { AllDiffer names.old → AllDiffer names.new }
    ensures gathers { IfOk result (λ _. (all : Texts) (file : ℕ) (ps : List (Placed parts.Part)) (p : parts.Part) (at : Position) → Extends names.new all → IsPart part.entry p → place ≡ place_at file at
        → Gathers all file gathered.old ps → Gathers all file gathered.new (ps ++ placed p at ∷ [])) }
{
    match part {
        Part::Lexeme(piece) => {
            let kind = kind_of(alloc, names, piece)?;
            gathered.push(alloc, Token { kind, place })
        }
        Part::Comment(text) => {
            gathered.comment(text, place);
            Ok(())
        }
        Part::Fault(code) => gathered.fault(alloc, place, code),
    }
}

// The place of the first byte that is not UTF-8's.
fn bad_place(text: &[u8], valid: usize, file: u32) -> Place
    requires short { length text.now < 2 ^ 32 }
    requires valid { IsValidUpTo text.now valid }
    ensures { result ≡ place_at file (position_after first_position (chars (take valid text.now))) }
{
    match str::from_utf8(&text[..valid]) {
        Ok(front) => end_place(front, file),
        Err(_) => Place {
            file,
            line: 1,
            column: 1,
        },
    }
}

// The place behind a text.
fn end_place(text: &str, file: u32) -> Place
    requires { length text.now + 1 < 2 ^ 32 }
    ensures { result ≡ place_at file (position_after first_position (chars text.now)) }
{
    let mut cursor = Cursor::new(text);
    while let Some(step) = cursor.step() {
        cursor = step.1;
    }
    Place {
        file,
        line: cursor.line as u32,
        column: cursor.column as u32,
    }
}
