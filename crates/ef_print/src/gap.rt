// What stands between two lexemes, and the texts of words and symbols.
ghost use Rattle.std.specs.Prelude.{◌≡◌};
ghost use Rattle.ef_core.specs.Lexeme as spec;
ghost use Rattle.ef_core.specs.Pieces as layout;

use ef_core::{Last, Symbol, Word};

/// A word, as it is written.
pub fn word_text(word: Word) -> &'static [u8]
    ensures { result.now ≡ spec.word_text word }
{
    match word {
        Word::After => b"after",
        Word::Apply => b"apply",
        Word::Attributes => b"attributes",
        Word::Call => b"call",
        Word::Case => b"case",
        Word::Catch => b"catch",
        Word::Do => b"do",
        Word::End => b"end",
        Word::Fun => b"fun",
        Word::In => b"in",
        Word::Let => b"let",
        Word::Letrec => b"letrec",
        Word::Module => b"module",
        Word::Of => b"of",
        Word::Primop => b"primop",
        Word::Receive => b"receive",
        Word::Try => b"try",
        Word::When => b"when",
    }
}

/// A symbol, as it is written.
pub fn symbol_text(symbol: Symbol) -> &'static [u8]
    ensures { result.now ≡ spec.symbol_text symbol }
{
    match symbol {
        Symbol::LeftParen => b"(",
        Symbol::RightParen => b")",
        Symbol::LeftBracket => b"[",
        Symbol::RightBracket => b"]",
        Symbol::LeftBrace => b"{",
        Symbol::RightBrace => b"}",
        Symbol::Less => b"<",
        Symbol::Greater => b">",
        Symbol::Comma => b",",
        Symbol::Bar => b"|",
        Symbol::Slash => b"/",
        Symbol::Colon => b":",
        Symbol::Equals => b"=",
        Symbol::Arrow => b"->",
        Symbol::DashBar => b"-|",
        Symbol::BinBegin => b"#{",
        Symbol::SegmentBegin => b"#<",
        Symbol::BinEnd => b"}#",
    }
}

/// What a symbol leaves for the next gap.
pub fn after_symbol(symbol: Symbol) -> Last
    ensures { result ≡ layout.after (spec.Sym symbol) }
{
    match symbol {
        Symbol::LeftParen
        | Symbol::LeftBracket
        | Symbol::LeftBrace
        | Symbol::Less
        | Symbol::Slash
        | Symbol::Colon
        | Symbol::BinBegin
        | Symbol::SegmentBegin => Last::Opening,
        Symbol::Greater => Last::Callable,
        _ => Last::Other,
    }
}

/// What separates a symbol from the lexeme before it.
pub fn symbol_gap(last: Last, symbol: Symbol) -> &'static [u8]
    ensures { result.now ≡ layout.gap last (spec.Sym symbol) }
{
    match last {
        Last::Start | Last::Opening => b"",
        Last::Newline => b"\n",
        Last::Callable => match symbol {
            Symbol::RightParen
            | Symbol::RightBracket
            | Symbol::RightBrace
            | Symbol::Greater
            | Symbol::Comma
            | Symbol::Slash
            | Symbol::Colon
            | Symbol::BinEnd
            | Symbol::LeftParen => b"",
            _ => b" ",
        },
        Last::Other => match symbol {
            Symbol::RightParen
            | Symbol::RightBracket
            | Symbol::RightBrace
            | Symbol::Greater
            | Symbol::Comma
            | Symbol::Slash
            | Symbol::Colon
            | Symbol::BinEnd => b"",
            _ => b" ",
        },
    }
}

/// The gap before a word, an atom, a variable or an integer.
pub fn plain_gap(last: Last) -> &'static [u8]
    ensures { result.now ≡ layout.plain_gap last }
{
    match last {
        Last::Start | Last::Opening => b"",
        Last::Newline => b"\n",
        Last::Callable | Last::Other => b" ",
    }
}
