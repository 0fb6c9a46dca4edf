// The class of the next token.
ghost use Rattle.std.specs.Prelude.{◌≡◌, ◌≤◌, ◌<◌, drop, length};
ghost use Rattle.ef_rows.specs.Erlang as e;

use crate::classes;
use ef_base::Names;
use ef_build::is_wildcard;
use ef_token::{Sym, Token, TokenKind, Word};

/// The class of the token at this index, by it and the two tokens behind it.
pub fn look(names: &Names, tokens: &[Token], at: usize) -> u8
    requires { at ≤ length tokens.now }
    ensures class { result ≡ e.look names.now (drop at tokens.now) }
    ensures below { result < 64 }
{
    let Some(token) = tokens.get(at) else {
        return classes::NOTHING;
    };
    match &token.kind {
        TokenKind::Sym(Sym::Colon) => if is_trace(tokens, at + 1) {
            classes::COLON_END
        } else {
            classes::COLON
        },
        TokenKind::Sym(Sym::Semicolon) => if is_class(tokens, at + 1) {
            classes::SEMI_NAMED
        } else {
            classes::SEMI
        },
        TokenKind::Word(Word::Catch) => if is_class(tokens, at + 1) {
            classes::CATCH_NAMED
        } else {
            classes::CATCH
        },
        kind => own_class(names, kind),
    }
}

fn is_trace(tokens: &[Token], at: usize) -> bool
    requires { at ≤ length tokens.now }
    ensures { result ≡ e.is_trace (drop at tokens.now) }
{
    match &tokens[at..] {
        [first, second, ..] => is_variable(&first.kind) && ends_pattern(&second.kind),
        _ => false,
    }
}

fn is_class(tokens: &[Token], at: usize) -> bool
    requires { at ≤ length tokens.now }
    ensures { result ≡ e.is_class (drop at tokens.now) }
{
    match &tokens[at..] {
        [first, second, ..] => is_name(&first.kind) && is_colon(&second.kind),
        _ => false,
    }
}

fn is_variable(kind: &TokenKind) -> bool
    ensures { result ≡ e.is_variable kind.now }
{
    matches!(kind, TokenKind::Var(_))
}

fn is_name(kind: &TokenKind) -> bool
    ensures { result ≡ e.is_name kind.now }
{
    matches!(kind, TokenKind::Atom(_) | TokenKind::Var(_))
}

fn is_colon(kind: &TokenKind) -> bool
    ensures { result ≡ e.is_colon kind.now }
{
    matches!(kind, TokenKind::Sym(Sym::Colon))
}

fn ends_pattern(kind: &TokenKind) -> bool
    ensures { result ≡ e.ends_pattern kind.now }
{
    matches!(
        kind,
        TokenKind::Sym(Sym::Arrow) | TokenKind::Word(Word::When)
    )
}

fn own_class(names: &Names, kind: &TokenKind) -> u8
    ensures class { result ≡ e.own_class names.now kind.now }
    ensures below { result < 64 }
{
    match kind {
        TokenKind::Atom(_) => classes::ATOM,
        TokenKind::Var(name) => if is_wildcard(names, *name) {
            classes::ANY
        } else {
            classes::VAR
        },
        TokenKind::Int(_) => classes::INT,
        TokenKind::Char(_) => classes::CHAR,
        TokenKind::Str(_) => classes::STR,
        TokenKind::Word(word) => word_class(*word),
        TokenKind::Sym(symbol) => symbol_class(*symbol),
        TokenKind::Dot => classes::DOT,
    }
}

fn symbol_class(symbol: Sym) -> u8
    ensures class { result ≡ e.symbol_class symbol }
    ensures below { result < 64 }
{
    match symbol {
        Sym::LeftParen => classes::LEFT_PAREN,
        Sym::RightParen => classes::RIGHT_PAREN,
        Sym::LeftBracket => classes::LEFT_BRACKET,
        Sym::RightBracket => classes::RIGHT_BRACKET,
        Sym::LeftBrace => classes::LEFT_BRACE,
        Sym::RightBrace => classes::RIGHT_BRACE,
        Sym::LeftBits => classes::LEFT_BITS,
        Sym::RightBits => classes::RIGHT_BITS,
        Sym::Comma => classes::COMMA,
        Sym::Semicolon => classes::SEMI,
        Sym::Period => classes::POINT,
        Sym::Colon => classes::COLON,
        Sym::DoubleColon => classes::DOUBLE_COLON,
        Sym::Arrow => classes::ARROW,
        Sym::LeftArrow | Sym::StrictLeftArrow => classes::LIST_ARROW,
        Sym::DoubleLeftArrow | Sym::StrictDoubleLeftArrow => classes::BITS_ARROW,
        Sym::DoubleBar => classes::DOUBLE_BAR,
        Sym::Bar => classes::BAR,
        Sym::Match => classes::EQUALS,
        Sym::MaybeMatch => classes::MAYBE_MATCH,
        Sym::Equal
        | Sym::NotEqual
        | Sym::Same
        | Sym::NotSame
        | Sym::Less
        | Sym::Greater
        | Sym::AtMost
        | Sym::AtLeast => classes::CMP_OP,
        Sym::Plus => classes::PLUS,
        Sym::Minus => classes::MINUS,
        Sym::Star => classes::MUL_WORD,
        Sym::Slash => classes::SLASH,
        Sym::Append | Sym::Subtract => classes::LIST_OP,
        Sym::Send => classes::BANG,
        Sym::Hash => classes::HASH,
        _ => classes::OTHER,
    }
}

fn word_class(word: Word) -> u8
    ensures class { result ≡ e.word_class word }
    ensures below { result < 64 }
{
    match word {
        Word::After => classes::AFTER,
        Word::AndAlso => classes::ANDALSO,
        Word::Begin => classes::BEGIN,
        Word::Case => classes::CASE,
        Word::Catch => classes::CATCH,
        Word::And | Word::Band | Word::Div | Word::Rem => classes::MUL_WORD,
        Word::Bor | Word::Bsl | Word::Bsr | Word::Bxor | Word::Or | Word::Xor => classes::ADD_WORD,
        Word::Bnot | Word::Not => classes::NOT,
        Word::Else => classes::ELSE,
        Word::End => classes::END,
        Word::Fun => classes::FUN,
        Word::If => classes::IF,
        Word::Maybe => classes::MAYBE,
        Word::Of => classes::OF,
        Word::OrElse => classes::ORELSE,
        Word::Receive => classes::RECEIVE,
        Word::Try => classes::TRY,
        Word::When => classes::WHEN,
        _ => classes::OTHER,
    }
}
