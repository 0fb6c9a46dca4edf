// What is wrong with a file of cases.
use std::alloc::{AllocError, AllocFailed};

/// Why a line is refused.
#[derive(Clone, Copy, Debug, PartialEq, Eq)]
pub enum Problem {
    NoMemory,
    /// No case begins before this line.
    Outside,
    /// The line begins with no word of the format.
    Word,
    /// A number that is none, or too large.
    Number,
    /// A backslash with something else behind it, or a repetition that is not closed.
    Escape,
    /// A line of text that belongs to nothing.
    Stray,
    /// Core text of a case without a short form.
    Short,
    /// The case before this line has neither words nor files.
    Empty,
}

impl Problem {
    pub fn text(self) -> &'static str {
        match self {
            Problem::NoMemory => "no memory",
            Problem::Outside => "no case begins before this line",
            Problem::Word => "no word of the format",
            Problem::Number => "no number, or one too large",
            Problem::Escape => "no escape, or a repetition that is not closed",
            Problem::Stray => "a line of text that belongs to nothing",
            Problem::Short => "no f/N before this line",
            Problem::Empty => "the case before has neither words nor files",
        }
    }
}

impl From<AllocError> for Problem {
    ghost use Rattle.std.specs.Prelude.{◌≡◌};
    ghost use Rattle.cases.specs.declared.problem.Problem.TheVariants.{NoMemory as no_memory};

    ghost from_gives = { λ _ e. e ≡ no_memory };

    fn from(_: AllocError) -> Self {
        Problem::NoMemory
    }
}

impl<T: Drop> From<AllocFailed<T>> for Problem {
    ghost use Rattle.std.specs.Prelude.{◌≡◌};
    ghost use Rattle.cases.specs.declared.problem.Problem.TheVariants.{NoMemory as no_memory};

    ghost from_gives = { λ _ e. e ≡ no_memory };

    fn from(_: AllocFailed<T>) -> Self {
        Problem::NoMemory
    }
}

/// A line that is refused.
#[derive(Clone, Copy, Debug, PartialEq, Eq)]
pub struct Broken {
    pub line: u64,
    pub problem: Problem,
}
