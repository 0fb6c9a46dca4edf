// The bytes of reserved words and of symbols.
ghost use Rattle.std.specs.Prelude.{◌≡◌};
ghost use Rattle.ef_token.specs.Words.{sym_text, word_text};

use crate::{Sym, Word};

pub(crate) fn word_bytes(word: Word) -> &'static [u8]
    ensures { result.now ≡ word_text word }
{
    match word {
        Word::After => b"after",
        Word::And => b"and",
        Word::AndAlso => b"andalso",
        Word::Band => b"band",
        Word::Begin => b"begin",
        Word::Bnot => b"bnot",
        Word::Bor => b"bor",
        Word::Bsl => b"bsl",
        Word::Bsr => b"bsr",
        Word::Bxor => b"bxor",
        Word::Case => b"case",
        Word::Catch => b"catch",
        Word::Cond => b"cond",
        Word::Div => b"div",
        Word::Else => b"else",
        Word::End => b"end",
        Word::Fun => b"fun",
        Word::If => b"if",
        Word::Let => b"let",
        Word::Maybe => b"maybe",
        Word::Not => b"not",
        Word::Of => b"of",
        Word::Or => b"or",
        Word::OrElse => b"orelse",
        Word::Receive => b"receive",
        Word::Rem => b"rem",
        Word::Try => b"try",
        Word::When => b"when",
        Word::Xor => b"xor",
    }
}

pub(crate) fn sym_bytes(sym: Sym) -> &'static [u8]
    ensures { result.now ≡ sym_text sym }
{
    match sym {
        Sym::LeftParen => b"(",
        Sym::RightParen => b")",
        Sym::LeftBracket => b"[",
        Sym::RightBracket => b"]",
        Sym::LeftBrace => b"{",
        Sym::RightBrace => b"}",
        Sym::LeftBits => b"<<",
        Sym::RightBits => b">>",
        Sym::Comma => b",",
        Sym::Semicolon => b";",
        Sym::Period => b".",
        Sym::Colon => b":",
        Sym::DoubleColon => b"::",
        Sym::Arrow => b"->",
        Sym::LeftArrow => b"<-",
        Sym::DoubleLeftArrow => b"<=",
        Sym::StrictLeftArrow => b"<:-",
        Sym::StrictDoubleLeftArrow => b"<:=",
        Sym::DoubleBar => b"||",
        Sym::Bar => b"|",
        Sym::Match => b"=",
        Sym::MaybeMatch => b"?=",
        Sym::Equal => b"==",
        Sym::NotEqual => b"/=",
        Sym::Same => b"=:=",
        Sym::NotSame => b"=/=",
        Sym::Less => b"<",
        Sym::Greater => b">",
        Sym::AtMost => b"=<",
        Sym::AtLeast => b">=",
        Sym::Plus => b"+",
        Sym::Minus => b"-",
        Sym::Star => b"*",
        Sym::Slash => b"/",
        Sym::Append => b"++",
        Sym::Subtract => b"--",
        Sym::Send => b"!",
        Sym::Hash => b"#",
        Sym::Question => b"?",
        Sym::Assign => b":=",
        Sym::DoubleArrow => b"=>",
        Sym::DoublePeriod => b"..",
        Sym::Ellipsis => b"...",
        Sym::DoubleAnd => b"&&",
    }
}
