// Tokens that are refused before a form is read.
ghost use Rattle.std.specs.Prelude.{◌≡◌, ◌<◌, ◌^◌, ◌-◌, OnOk, None};
ghost use Rattle.ef_profile.specs.Adds.{Adds};
ghost use Rattle.ef_module.specs.Refused as r;

use ef_base::codes::{MAP, STRICT_GENERATOR, ZIP_GENERATOR};
use ef_base::{Fault, FaultList, Names, NoMemory, Place};
use ef_parse::FormKind;
use ef_profile::kind_of;
use ef_token::{Sym, Token, TokenKind};
use std::alloc::Global;

/// Adds the faults of the tokens of a form, in one pass.
#[tactic(auto, using(ef_profile::proofs::Adding::adds_none))]
pub fn add_token_faults(
    alloc: Global,
    names: &Names,
    tokens: &[Token],
    found: &mut FaultList,
) -> Result<(), NoMemory>
    ensures { OnOk result (Adds (r.token_faults names.now tokens.now) found.old found.new) }
{
    match kind_of(names, tokens) {
        FormKind::Dropped => Ok(()),
        FormKind::Record => add_refused(alloc, true, tokens, found),
        _ => add_refused(alloc, false, tokens, found),
    }
}

fn add_refused(
    alloc: Global,
    typed: bool,
    tokens: &[Token],
    found: &mut FaultList,
) -> Result<(), NoMemory>
    ensures { OnOk result (Adds (r.refused_from typed None tokens.now) found.old found.new) }
{
    let mut rest = tokens;
    let mut depth: Option<usize> = None;
    while let [token, after @ ..] = rest {
        add_outside(alloc, depth, token, after, found)?;
        depth = behind(typed, depth, &token.kind);
        rest = after;
    }
    Ok(())
}

// Nothing is added inside a type.
#[tactic(auto, using(ef_profile::proofs::Adding::adds_none))]
fn add_outside(
    alloc: Global,
    depth: Option<usize>,
    token: &Token,
    after: &[Token],
    found: &mut FaultList,
) -> Result<(), NoMemory>
    ensures { OnOk result (Adds (r.outside depth (r.refused token.now.kind token.now.place after.now)) found.old found.new) }
{
    match depth {
        Some(_) => Ok(()),
        None => add_fault(alloc, refused(&token.kind, after), token.place, found),
    }
}

#[tactic(auto, using(ef_profile::proofs::Adding::adds_none, ef_profile::proofs::Adding::adds_one))]
fn add_fault(
    alloc: Global,
    code: Option<u16>,
    place: Place,
    found: &mut FaultList,
) -> Result<(), NoMemory>
    ensures { OnOk result (Adds (r.refusal place code) found.old found.new) }
{
    if let Some(code) = code {
        found.push(Fault::plain(alloc, place, code))?;
    }
    Ok(())
}

// The code of the fault of a token before these.
fn refused(kind: &TokenKind, after: &[Token]) -> Option<u16>
    ensures { result ≡ r.refused_code kind.now after.now }
{
    match kind {
        TokenKind::Sym(Sym::Hash) => if opens_map(after) { Some(MAP) } else { None },
        TokenKind::Sym(Sym::DoubleAnd) => Some(ZIP_GENERATOR),
        TokenKind::Sym(Sym::StrictLeftArrow) => Some(STRICT_GENERATOR),
        TokenKind::Sym(Sym::StrictDoubleLeftArrow) => Some(STRICT_GENERATOR),
        _ => None,
    }
}

fn opens_map(after: &[Token]) -> bool
    ensures { result ≡ r.opens_map after.now }
{
    match after {
        [next, ..] => is_brace(&next.kind),
        [] => false,
    }
}

// The number of brackets that are open in a type behind the token.
fn behind(typed: bool, depth: Option<usize>, kind: &TokenKind) -> Option<usize>
    requires { r.depth_of depth < 2 ^ 64 - 1 }
    ensures { result ≡ r.behind typed depth kind.now }
{
    match depth {
        Some(depth) => in_type(depth, kind),
        None => if typed && begins_type(kind) {
            Some(0)
        } else {
            None
        },
    }
}

fn in_type(depth: usize, kind: &TokenKind) -> Option<usize>
    requires { depth < 2 ^ 64 - 1 }
    ensures { result ≡ r.in_type depth kind.now }
{
    if depth == 0 && (is_comma(kind) || closes(kind)) {
        return None;
    }
    if opens(kind) {
        return Some(depth + 1);
    }
    if closes(kind) {
        return Some(depth - 1);
    }
    Some(depth)
}

fn opens(kind: &TokenKind) -> bool
    ensures { result ≡ r.opens kind.now }
{
    match kind {
        TokenKind::Sym(Sym::LeftParen) => true,
        TokenKind::Sym(Sym::LeftBracket) => true,
        TokenKind::Sym(Sym::LeftBrace) => true,
        TokenKind::Sym(Sym::LeftBits) => true,
        _ => false,
    }
}

fn closes(kind: &TokenKind) -> bool
    ensures { result ≡ r.closes kind.now }
{
    match kind {
        TokenKind::Sym(Sym::RightParen) => true,
        TokenKind::Sym(Sym::RightBracket) => true,
        TokenKind::Sym(Sym::RightBrace) => true,
        TokenKind::Sym(Sym::RightBits) => true,
        _ => false,
    }
}

fn is_comma(kind: &TokenKind) -> bool
    ensures { result ≡ r.is_comma kind.now }
{
    match kind {
        TokenKind::Sym(Sym::Comma) => true,
        _ => false,
    }
}

fn begins_type(kind: &TokenKind) -> bool
    ensures { result ≡ r.begins_type kind.now }
{
    match kind {
        TokenKind::Sym(Sym::DoubleColon) => true,
        _ => false,
    }
}

fn is_brace(kind: &TokenKind) -> bool
    ensures { result ≡ r.is_brace kind.now }
{
    match kind {
        TokenKind::Sym(Sym::LeftBrace) => true,
        _ => false,
    }
}
