// The kind of a form.
ghost use Rattle.std.specs.Prelude.{◌≡◌, codes, IfOk};
ghost use Rattle.std.specs.List.{list_any};
ghost use Rattle.std.specs.Str.{bytes_eq};
ghost use Rattle.ef_profile.specs.Kinds as k;

use ef_base::codes::{
    MALFORMED_ATTRIBUTE, MALFORMED_EXPORT, MALFORMED_IMPORT, MALFORMED_MODULE, MALFORMED_RECORD,
};
use ef_base::{Fault, Name, Names, NoMemory};
use ef_parse::{FormKind, start_of};
use ef_token::{Sym, Token, TokenKind};
use std::alloc::Global;

/// The kind of the form of these tokens.
pub fn kind_of(names: &Names, tokens: &[Token]) -> FormKind
    ensures { result ≡ k.kind_of names.now tokens.now }
{
    if !is_attribute(tokens) {
        return FormKind::Function;
    }
    match attribute_name(tokens) {
        Some(name) => word_kind(names.text_of(name)),
        None => FormKind::Other,
    }
}

/// The fault of tokens that spell no form.
pub fn not_spelled(alloc: Global, names: &Names, tokens: &[Token]) -> Result<Fault, NoMemory>
    ensures { IfOk result (λ made. made ≡ k.not_spelled names.now tokens.now) }
{
    let place = start_of(tokens);
    match attribute_name(tokens) {
        Some(name) => {
            let code = malformed(kind_of(names, tokens));
            Fault::naming(alloc, place, code, names.text_of(name).as_bytes())
        }
        None => Ok(Fault::syntax_error(alloc, place)),
    }
}

fn is_attribute(tokens: &[Token]) -> bool
    ensures { result ≡ k.is_attribute tokens.now }
{
    match tokens {
        [first, ..] => is_minus(&first.kind),
        [] => false,
    }
}

fn attribute_name(tokens: &[Token]) -> Option<Name>
    ensures { result ≡ k.attribute_name tokens.now }
{
    match tokens {
        [first, second, ..] => if is_minus(&first.kind) {
            atom_in(&second.kind)
        } else {
            None
        },
        _ => None,
    }
}

fn is_minus(kind: &TokenKind) -> bool
    ensures { result ≡ k.is_minus kind.now }
{
    match kind {
        TokenKind::Sym(Sym::Minus) => true,
        _ => false,
    }
}

fn atom_in(kind: &TokenKind) -> Option<Name>
    ensures { result ≡ k.atom_in kind.now }
{
    match kind {
        TokenKind::Atom(name) => Some(*name),
        _ => None,
    }
}

fn word_kind(word: &str) -> FormKind
    ensures { result ≡ k.word_kind word.now }
{
    if word == "module" {
        FormKind::Module
    } else if word == "export" {
        FormKind::Export
    } else if word == "import" {
        FormKind::Import
    } else if word == "record" {
        FormKind::Record
    } else if is_dropped(word) {
        FormKind::Dropped
    } else {
        FormKind::Other
    }
}

// Whether the attribute is read and has no meaning.
fn is_dropped(word: &str) -> bool
    ensures { result ≡ list_any (bytes_eq word.now) k.dropped_words }
{
    word == "spec"
        || word == "type"
        || word == "opaque"
        || word == "nominal"
        || word == "callback"
        || word == "export_type"
        || word == "feature"
        || word == "doc"
        || word == "moduledoc"
}

fn malformed(kind: FormKind) -> u16
    ensures { result ≡ k.malformed kind }
{
    match kind {
        FormKind::Module => MALFORMED_MODULE,
        FormKind::Export => MALFORMED_EXPORT,
        FormKind::Import => MALFORMED_IMPORT,
        FormKind::Record => MALFORMED_RECORD,
        FormKind::Function | FormKind::Dropped | FormKind::Other => MALFORMED_ATTRIBUTE,
    }
}
