// Where the scanner stands in a text.
ghost use Rattle.std.specs.Prelude.{◌≡◌, ◌==◌, ◌≤◌, ◌^◌, ◌<◌, List, ℕ, [], length, take, drop, chars, IfSome, IfNone, encode_utf8_all, true};
ghost use Rattle.ef_base.specs.Characters.{Each, Stops};
ghost use Rattle.ef_base.specs.Positions.{first_position, place_at};
ghost use Rattle.ef_scan.specs.Cursors.{IsInText, IsBehind, IsRun, IsStep, is_plain, position_of, test_of};

use crate::class::Class;
use ef_base::Place;

/// The rest of a text, and the line and column of its first character, each from 1.
#[derive(Clone, Copy)]
pub(crate) struct Cursor<'a> {
    pub rest: &'a str,
    pub line: usize,
    pub column: usize,
}

/// Behind characters of a class, and how many they are.
#[derive(Clone, Copy)]
pub(crate) struct Run<'a> {
    pub behind: Cursor<'a>,
    pub count: usize,
}

impl<'a> Cursor<'a> {
    pub(crate) fn new(text: &'a str) -> Cursor<'a>
        requires { length text.now < 2 ^ 32 }
        ensures rest { result.rest.now ≡ text.now }
        ensures position { position_of result ≡ first_position }
        ensures in_text { IsInText result }
    {
        Cursor {
            rest: text,
            line: 1,
            column: 1,
        }
    }

    /// The first character, and behind it.
    pub(crate) fn step(&self) -> Option<(char, Cursor<'a>)>
        requires { IsInText self.now }
        ensures some { IfSome result (λ s. IsStep self.now s.0 s.1) }
        ensures none { IfNone result (chars self.now.rest.now ≡ []) }
    {
        let mut ahead = self.rest.chars();
        let first = ahead.next()?;
        let rest = ahead.as_str();
        if first == '\n' {
            let next = Cursor {
                rest,
                line: self.line + 1,
                column: 1,
            };
            return Some((first, next));
        }
        let next = Cursor {
            rest,
            line: self.line,
            column: self.column + 1,
        };
        Some((first, next))
    }

    /// Behind as many characters of the class as there are.
    #[inline(always)]
    pub(crate) fn run(self, class: Class) -> Run<'a>
        requires { IsInText self }
        ensures { IsRun (test_of class) self.entry result.behind result.count }
    {
        let mut behind = self;
        let mut count = 0;
        loop {
            let width = class.plain_width(behind.rest.as_bytes());
            behind = behind.behind(width);
            count += width;
            let Some(next) = behind.step_over(class) else {
                return Run { behind, count };
            };
            behind = next;
            count += 1;
        }
    }

    // Behind one character of the class.
    fn step_over(&self, class: Class) -> Option<Cursor<'a>>
        requires { IsInText self.now }
        ensures some { IfSome result (λ next. (c : ℕ) × IsStep self.now c next × (test_of class c ≡ true)) }
        ensures none { IfNone result (Stops (test_of class) (chars self.now.rest.now)) }
    {
        let step = self.step()?;
        if class.has(step.0) {
            Some(step.1)
        } else {
            None
        }
    }

    /// Behind this character.
    pub(crate) fn after(&self, c: char) -> Option<Cursor<'a>>
        requires { IsInText self.now }
        ensures some { IfSome result (λ behind. IsStep self.now c behind) }
        ensures none { IfNone result (Stops (λ d. d == c) (chars self.now.rest.now)) }
    {
        let step = self.step()?;
        if step.0 == c { Some(step.1) } else { None }
    }

    /// The text from here to there.
    pub(crate) fn text_to(&self, there: Cursor<'a>) -> &'a str
        requires { (front : List ℕ) × IsBehind self.now there front }
        ensures { (front : List ℕ) → IsBehind self.now there.entry front → result.now ≡ encode_utf8_all front }
    {
        let width = self.rest.len() - there.rest.len();
        &self.rest[..width]
    }

    /// Behind so many characters, none of which ends a line.
    pub(crate) fn behind(&self, width: usize) -> Cursor<'a>
        requires within { width ≤ length self.now.rest.now }
        requires plain { Each is_plain (take width self.now.rest.now) }
        requires in_text { IsInText self.now }
        ensures { IsBehind self.now result (take width self.now.rest.now) }
    {
        Cursor {
            rest: &self.rest[width..],
            line: self.line,
            column: self.column + width,
        }
    }

    pub(crate) fn place(&self, file: u32) -> Place
        requires in_text { IsInText self.now }
        requires some { 0 < length self.now.rest.now }
        ensures { result ≡ place_at file (position_of self.now) }
    {
        Place {
            file,
            line: self.line as u32,
            column: self.column as u32,
        }
    }
}
