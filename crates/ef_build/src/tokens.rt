// What a token puts on the stack.
ghost use Rattle.std.specs.Prelude.{◌≡◌, IfOk};
ghost use Rattle.std.specs.Option.{option_map};
ghost use Rattle.ef_build.specs.Tokens as t;
ghost use Rattle.std.specs.Prelude.{cond};
ghost use Rattle.ef_build.specs.Values.{any, leaf_of, shown, value, var};

use crate::stack::Read;
use crate::value::{Leaf, Operator, Value};
use ef_base::{Chars, Name, Names, NoMemory, Place};
use ef_forms::{BinaryOp, UnaryOp};
use ef_token::{Sym, Token, TokenKind, Word};
use std::alloc::{AllocError, Global};

/// Puts on the stack what actions need of the token.
#[tactic(auto, using(crate::proofs::Tops::laws))]
pub fn push_token(
    alloc: Global,
    names: &Names,
    token: &Token,
    read: &mut Read,
) -> Result<(), AllocError>
    ensures { IfOk result (λ done. shown read.new ≡ t.push names.now token.now (shown read.old)) }
{
    if let Some(value) = token_value(alloc, names, token)? {
        read.values.push(value)?;
    }
    Ok(())
}

fn token_value(alloc: Global, names: &Names, token: &Token) -> Result<Option<Value>, AllocError>
    ensures { IfOk result (λ v. option_map value v ≡ t.token_value names.now token.now.kind token.now.place) }
{
    let leaf = match &token.kind {
        TokenKind::Atom(name) => Leaf::Atom(*name),
        TokenKind::Var(name) => variable(names, *name),
        TokenKind::Int(value) => Leaf::Int(*value),
        TokenKind::Char(code) => Leaf::Char(*code),
        TokenKind::Str(text) => Leaf::Str(copy(alloc, text)?),
        TokenKind::Word(word) => return Ok(word_value(*word, token.place)),
        TokenKind::Sym(symbol) => return Ok(symbol_value(*symbol, token.place)),
        TokenKind::Dot => return Ok(None),
    };
    Ok(Some(Value::Leaf(leaf, token.place)))
}

fn copy(alloc: Global, text: &Chars) -> Result<Chars, AllocError>
    ensures { IfOk result (λ c. c ≡ text.now) }
{
    match Chars::from_slice(alloc, text.as_slice()) {
        Ok(copy) => Ok(copy),
        Err(NoMemory) => Err(AllocError),
    }
}

/// Whether the variable of this name is `_`.
pub fn is_wildcard(names: &Names, name: Name) -> bool
    ensures { result ≡ t.is_wildcard names.now name }
{
    names.text_of(name) == "_"
}

fn variable(names: &Names, name: Name) -> Leaf
    ensures { leaf_of result ≡ cond (t.is_wildcard names.now name) (any name) (var name) }
{
    if is_wildcard(names, name) {
        Leaf::Any(name)
    } else {
        Leaf::Var(name)
    }
}

fn symbol_value(symbol: Sym, place: Place) -> Option<Value>
    ensures { option_map value result ≡ t.symbol_value symbol place }
{
    match symbol {
        Sym::LeftParen | Sym::LeftBracket | Sym::LeftBrace | Sym::LeftBits | Sym::Hash => Some(
            Value::At(place),
        ),
        other => operated(symbol_operator(other), place),
    }
}

fn word_value(word: Word, place: Place) -> Option<Value>
    ensures { option_map value result ≡ t.word_value word place }
{
    match word {
        Word::Begin | Word::Case | Word::Fun | Word::If | Word::Maybe | Word::Receive | Word::Try =>
            Some(Value::At(place)),
        other => operated(word_operator(other), place),
    }
}

fn operated(operator: Option<Operator>, place: Place) -> Option<Value>
    ensures { option_map value result ≡ t.operated operator place }
{
    match operator {
        Some(operator) => Some(Value::Operator(operator, place)),
        None => None,
    }
}

fn symbol_operator(symbol: Sym) -> Option<Operator>
    ensures { result ≡ t.symbol_operator symbol }
{
    match symbol {
        Sym::Plus => Some(Operator::Plus),
        Sym::Minus => Some(Operator::Minus),
        Sym::Star => Some(Operator::Between(BinaryOp::Mul)),
        Sym::Slash => Some(Operator::Between(BinaryOp::Slash)),
        Sym::Equal => Some(Operator::Between(BinaryOp::Equal)),
        Sym::NotEqual => Some(Operator::Between(BinaryOp::NotEqual)),
        Sym::Less => Some(Operator::Between(BinaryOp::Less)),
        Sym::AtMost => Some(Operator::Between(BinaryOp::AtMost)),
        Sym::Greater => Some(Operator::Between(BinaryOp::Greater)),
        Sym::AtLeast => Some(Operator::Between(BinaryOp::AtLeast)),
        Sym::Same => Some(Operator::Between(BinaryOp::Same)),
        Sym::NotSame => Some(Operator::Between(BinaryOp::NotSame)),
        Sym::Append => Some(Operator::Between(BinaryOp::Append)),
        Sym::Subtract => Some(Operator::Between(BinaryOp::Subtract)),
        Sym::Send => Some(Operator::Between(BinaryOp::Send)),
        Sym::LeftArrow => Some(Operator::ListArrow),
        Sym::StrictLeftArrow => Some(Operator::StrictListArrow),
        Sym::DoubleLeftArrow => Some(Operator::BitsArrow),
        Sym::StrictDoubleLeftArrow => Some(Operator::StrictBitsArrow),
        _ => None,
    }
}

fn word_operator(word: Word) -> Option<Operator>
    ensures { result ≡ t.word_operator word }
{
    match word {
        Word::Div => Some(Operator::Between(BinaryOp::Div)),
        Word::Rem => Some(Operator::Between(BinaryOp::Rem)),
        Word::Band => Some(Operator::Between(BinaryOp::Band)),
        Word::Bor => Some(Operator::Between(BinaryOp::Bor)),
        Word::Bxor => Some(Operator::Between(BinaryOp::Bxor)),
        Word::Bsl => Some(Operator::Between(BinaryOp::Bsl)),
        Word::Bsr => Some(Operator::Between(BinaryOp::Bsr)),
        Word::And => Some(Operator::Between(BinaryOp::And)),
        Word::Or => Some(Operator::Between(BinaryOp::Or)),
        Word::Xor => Some(Operator::Between(BinaryOp::Xor)),
        Word::Bnot => Some(Operator::Before(UnaryOp::Bnot)),
        Word::Not => Some(Operator::Before(UnaryOp::Not)),
        Word::Catch => Some(Operator::Catch),
        _ => None,
    }
}
