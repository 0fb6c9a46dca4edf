// Classes of tokens, and what a token puts on the stack.
ghost use Rattle.std.specs.Prelude.{◌≡◌, ◌≤◌, ◌<◌, drop, length, IfOk};
ghost use Rattle.std.specs.Option.{option_map};
ghost use Rattle.ef_cond.specs.Condition as c;
ghost use Rattle.ef_cond.specs.Values.{item_of, shown, value_of};

use crate::classes;
use crate::stack::Read;
use crate::value::{Item, Operand, Operator, Value};
use ef_base::Names;
use ef_token::{Sym, Token, TokenKind, Word};
use std::alloc::AllocError;

// ---- classes

/// The class of the token at this index.
pub fn look(tokens: &[Token], at: usize) -> u8
    requires { at ≤ length tokens.now }
    ensures class { result ≡ c.look (drop at tokens.now) }
    ensures below { result < 64 }
{
    match tokens.get(at) {
        Some(token) => kind_class(&token.kind),
        None => classes::NOTHING,
    }
}

fn kind_class(kind: &TokenKind) -> u8
    ensures class { result ≡ c.kind_class kind.now }
    ensures below { result < 64 }
{
    match kind {
        TokenKind::Int(_) => classes::INT,
        TokenKind::Atom(_) => classes::ATOM,
        TokenKind::Sym(symbol) => symbol_class(*symbol),
        TokenKind::Word(word) => word_class(*word),
        _ => classes::OTHER,
    }
}

fn symbol_class(symbol: Sym) -> u8
    ensures class { result ≡ c.symbol_class symbol }
    ensures below { result < 64 }
{
    match symbol {
        Sym::LeftParen => classes::LEFT_PAREN,
        Sym::RightParen => classes::RIGHT_PAREN,
        Sym::Plus => classes::PLUS,
        Sym::Minus => classes::MINUS,
        Sym::Star => classes::MUL_OP,
        Sym::Equal
        | Sym::NotEqual
        | Sym::Same
        | Sym::NotSame
        | Sym::Less
        | Sym::AtMost
        | Sym::Greater
        | Sym::AtLeast => classes::CMP_OP,
        _ => classes::OTHER,
    }
}

fn word_class(word: Word) -> u8
    ensures class { result ≡ c.word_class word }
    ensures below { result < 64 }
{
    match word {
        Word::Bnot | Word::Not => classes::NOT,
        Word::Div | Word::Rem | Word::Band | Word::And => classes::MUL_OP,
        Word::Bor | Word::Bxor | Word::Bsl | Word::Bsr | Word::Or | Word::Xor => classes::ADD_WORD,
        Word::AndAlso => classes::ANDALSO,
        Word::OrElse => classes::ORELSE,
        _ => classes::OTHER,
    }
}

// ---- tokens on the stack

/// Puts on the stack what actions need of the token.
#[tactic(auto, using(crate::proofs::Tops::laws))]
pub fn push<'a>(names: &'a Names, token: &Token, read: &mut Read<'a>) -> Result<(), AllocError>
    ensures { IfOk result (λ done. shown read.new ≡ c.push names.now token.now (shown read.old)) }
{
    if let Some(item) = token_item(names, &token.kind) {
        read.items.push(item)?;
    }
    Ok(())
}

fn token_item<'a>(names: &'a Names, kind: &TokenKind) -> Option<Item<'a>>
    ensures { option_map item_of result ≡ c.token_item names.now kind.now }
{
    match kind {
        TokenKind::Int(number) => single(Value::Number(*number)),
        TokenKind::Atom(name) => single(atom_value(names.text_of(*name))),
        TokenKind::Sym(symbol) => operated(symbol_operator(*symbol)),
        TokenKind::Word(word) => operated(word_operator(*word)),
        _ => None,
    }
}

fn single<'a>(value: Value<'a>) -> Option<Item<'a>>
    ensures { option_map item_of result ≡ c.single (value_of value.entry) }
{
    Some(Item::Operand(Operand { value, nest: 1 }))
}

fn operated<'a>(operator: Option<Operator>) -> Option<Item<'a>>
    ensures { option_map item_of result ≡ c.operated operator }
{
    match operator {
        Some(operator) => Some(Item::Operator(operator)),
        None => None,
    }
}

fn atom_value<'a>(text: &'a str) -> Value<'a>
    ensures { value_of result ≡ c.atom_value text.now }
{
    if text == "true" {
        Value::Truth(true)
    } else if text == "false" {
        Value::Truth(false)
    } else {
        Value::Atom(text)
    }
}

fn symbol_operator(symbol: Sym) -> Option<Operator>
    ensures { result ≡ c.symbol_operator symbol }
{
    match symbol {
        Sym::Plus => Some(Operator::Plus),
        Sym::Minus => Some(Operator::Minus),
        Sym::Star => Some(Operator::Times),
        Sym::Equal | Sym::Same => Some(Operator::Equal),
        Sym::NotEqual | Sym::NotSame => Some(Operator::NotEqual),
        Sym::Less => Some(Operator::Less),
        Sym::AtMost => Some(Operator::AtMost),
        Sym::Greater => Some(Operator::Greater),
        Sym::AtLeast => Some(Operator::AtLeast),
        _ => None,
    }
}

fn word_operator(word: Word) -> Option<Operator>
    ensures { result ≡ c.word_operator word }
{
    match word {
        Word::Div => Some(Operator::Div),
        Word::Rem => Some(Operator::Rem),
        Word::Band => Some(Operator::Band),
        Word::Bor => Some(Operator::Bor),
        Word::Bxor => Some(Operator::Bxor),
        Word::Bnot => Some(Operator::Bnot),
        Word::Bsl => Some(Operator::Bsl),
        Word::Bsr => Some(Operator::Bsr),
        Word::And => Some(Operator::And),
        Word::Or => Some(Operator::Or),
        Word::Xor => Some(Operator::Xor),
        Word::Not => Some(Operator::Not),
        _ => None,
    }
}
