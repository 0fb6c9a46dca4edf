// Texts in quotes.
ghost use Rattle.std.specs.Prelude.{◌≡◌, true, IfOk};
ghost use Rattle.ef_token.specs.Letters.{is_quote};
ghost use Rattle.ef_scan.specs.Cursors.{IsInText};
ghost use Rattle.ef_scan.specs.Quotes.{IsInner};

use crate::class::Class;
use crate::cursor::Cursor;
use crate::escape::{Written, next_written};
use ef_base::NoMemory;
use std::alloc::Global;

/// What stands behind an opening quote: a text without escapes and the number of its characters, or characters, up to
/// the closing quote; the same with an illegal escape among them; or no closing quote.
#[derive(Drop)]
pub(crate) enum Inner<'a> {
    Plain(&'a str, usize, Cursor<'a>),
    Legal(Vec<char>, Cursor<'a>),
    Illegal,
    Open,
}

/// The text behind an opening quote.
#[inline(always)]
pub(crate) fn inner_text<'a>(
    alloc: Global,
    at: Cursor<'a>,
    quote: char,
) -> Result<Inner<'a>, NoMemory>
    requires in_text { IsInText at }
    requires is_quote { is_quote quote ≡ true }
    ensures { IfOk result (λ inner. IsInner quote at.entry inner) }
{
    let run = at.run(Class::Inside(quote));
    match run.behind.after(quote) {
        Some(close) => Ok(Inner::Plain(at.text_to(run.behind), run.count, close)),
        None => escaped_text(alloc, at, quote),
    }
}

// The same where escapes are among the characters.
#[inline(never)]
fn escaped_text<'a>(alloc: Global, at: Cursor<'a>, quote: char) -> Result<Inner<'a>, NoMemory>
    requires in_text { IsInText at }
    requires is_quote { is_quote quote ≡ true }
    ensures { IfOk result (λ inner. IsInner quote at.entry inner) }
{
    let mut found = Vec::new(alloc);
    let mut legal = true;
    let mut behind = at;
    loop {
        if let Some(close) = behind.after(quote) {
            if !legal {
                return Ok(Inner::Illegal);
            }
            return Ok(Inner::Legal(found, close));
        }
        match next_written(behind) {
            Written::Legal(c, next) => {
                found.push(c)?;
                behind = next;
            }
            Written::Illegal(next) => {
                legal = false;
                behind = next;
            }
            Written::Ends => return Ok(Inner::Open),
        }
    }
}
