// Forms that are left out: those with macros, and directives.
ghost use Rattle.std.specs.Prelude.{◌≡◌, ◌∷◌, [], ◌++◌, List, Vec as TheVec, IfOk, OnOk};
ghost use Rattle.std.specs.declared.alloc.Global.{Global as TheGlobal};
ghost use Rattle.ef_base.specs.declared.fault.Fault.{Fault as TheFault};
ghost use Rattle.std.specs.List.{list_any};
ghost use Rattle.std.specs.Str.{bytes_eq};
ghost use Rattle.ef_profile.specs.Kinds.{is_minus as begins_attribute};
ghost use Rattle.ef_module.specs.Modules.{lists};
ghost use Rattle.ef_token.specs.declared.token.Token.{Token as TheToken};
ghost use Rattle.ef_front.specs.Compiles.{AreSplit};
ghost use Rattle.ef_front.specs.LeftOut as l;

use ef_base::codes::NOT_BUILT;
use ef_base::{Fault, FaultList, Names, NoMemory};
use ef_parse::start_of;
use ef_token::{Sym, Token, TokenKind, Word};
use std::alloc::Global;

/// The forms that are kept, in order; the faults of the others are added.
pub fn split(
    alloc: Global,
    names: &Names,
    forms: Vec<Vec<Token>>,
    found: &mut FaultList,
) -> Result<Vec<Vec<Token>>, NoMemory>
    ensures { IfOk result (λ kept. AreSplit names.now (lists forms.items) (lists kept.items) found.old found.new) }
{
    let mut kept = Vec::new(alloc);
    for tokens in forms {
        split_form(alloc, names, tokens, &mut kept, found)?;
    }
    Ok(kept)
}

// One more form.
fn split_form(
    alloc: Global,
    names: &Names,
    tokens: Vec<Token>,
    kept: &mut Vec<Vec<Token>>,
    found: &mut FaultList,
) -> Result<(), NoMemory>
    ensures { OnOk result ((before : List (TheVec TheToken TheGlobal)) (old : List TheFault) → AreSplit names.now (lists before) (lists kept.old.items) old found.old → AreSplit names.now (lists (before ++ tokens ∷ [])) (lists kept.new.items) old found.new) }
{
    if is_left_out(names, &tokens) {
        found.push(Fault::plain(alloc, start_of(&tokens), NOT_BUILT))?;
    } else {
        kept.push(tokens)?;
    }
    Ok(())
}

fn is_left_out(names: &Names, tokens: &[Token]) -> bool
    ensures { result ≡ l.is_left_out names.now tokens.now }
{
    begins_directive(names, tokens) || has_question(tokens)
}

fn begins_directive(names: &Names, tokens: &[Token]) -> bool
    ensures { result ≡ l.begins_directive names.now tokens.now }
{
    match tokens {
        [first, second, ..] => is_minus(&first.kind) && is_directive(names, &second.kind),
        _ => false,
    }
}

fn is_minus(kind: &TokenKind) -> bool
    ensures { result ≡ begins_attribute kind.now }
{
    match kind {
        TokenKind::Sym(Sym::Minus) => true,
        _ => false,
    }
}

// `if` and `else` are reserved words, and the others atoms.
fn is_directive(names: &Names, kind: &TokenKind) -> bool
    ensures { result ≡ l.is_directive names.now kind.now }
{
    match kind {
        TokenKind::Atom(name) => names_directive(names.text_of(*name)),
        TokenKind::Word(Word::If) | TokenKind::Word(Word::Else) => true,
        _ => false,
    }
}

fn names_directive(word: &str) -> bool
    ensures { result ≡ list_any (bytes_eq word.now) l.directives }
{
    word == "define"
        || word == "undef"
        || word == "ifdef"
        || word == "ifndef"
        || word == "elif"
        || word == "endif"
        || word == "include"
        || word == "include_lib"
        || word == "error"
        || word == "warning"
        || word == "file"
}

fn has_question(tokens: &[Token]) -> bool
    ensures { result ≡ list_any (λ (t : TheToken). l.is_question t.kind) tokens.now }
{
    for token in tokens {
        if is_question(&token.kind) {
            return true;
        }
    }
    false
}

fn is_question(kind: &TokenKind) -> bool
    ensures { result ≡ l.is_question kind.now }
{
    match kind {
        TokenKind::Sym(Sym::Question) => true,
        _ => false,
    }
}
