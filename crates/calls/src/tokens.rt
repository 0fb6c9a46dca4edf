// Tokens as source text, and new names.
ghost use Rattle.ef_token.specs.TokenForm.{KindOf};

use ef_base::{Chars, Names, Place};
use ef_token::{Sym, Token, TokenKind, Word, spell};
use std::alloc::Global;
use std::test::Fail;

fn spelled(alloc: Global, names: &Names, kind: TokenKind) -> Result<Vec<u8>, Fail>
    requires { KindOf names.now kind }
{
    let place = Place {
        file: 0,
        line: 1,
        column: 1,
    };
    let mut into = Vec::new(alloc);
    spell(&Token { kind, place }, names, &mut into)?;
    Ok(into)
}

#[test]
fn an_atom_is_spelled(rt: HostRuntime) -> Result<(), Fail> {
    let mut names = Names::new(rt.alloc());
    let name = names.intern("it's \u{20ac}\\")?;
    let text = spelled(rt.alloc(), &names, TokenKind::Atom(name))?;
    assert_eq!(rt; text.as_slice(), "'it\\'s \\x{20ac}\\\\'".as_bytes());
    Ok(())
}

#[test]
fn a_string_is_spelled(rt: HostRuntime) -> Result<(), Fail> {
    let alloc = rt.alloc();
    let names = Names::new(alloc);
    let codes = vec![in alloc; 34, 127]?;
    let text = spelled(alloc, &names, TokenKind::Str(Chars::from_vec(codes)))?;
    assert_eq!(rt; text.as_slice(), "\"\\\"\\x{7f}\"".as_bytes());
    Ok(())
}

#[test]
fn plain_tokens_are_spelled(rt: HostRuntime) -> Result<(), Fail> {
    let alloc = rt.alloc();
    let names = Names::new(alloc);
    for (code, want) in [(92, "$\\\\"), (32, "$\\x{20}"), (39, "$'")] {
        let text = spelled(alloc, &names, TokenKind::Char(code))?;
        assert_eq!(rt; text.as_slice(), want.as_bytes(), "{want}");
    }
    let text = spelled(alloc, &names, TokenKind::Int(255))?;
    assert_eq!(rt; text.as_slice(), b"255".as_slice());
    let text = spelled(alloc, &names, TokenKind::Word(Word::End))?;
    assert_eq!(rt; text.as_slice(), b"end".as_slice());
    let text = spelled(alloc, &names, TokenKind::Sym(Sym::Ellipsis))?;
    assert_eq!(rt; text.as_slice(), b"...".as_slice());
    Ok(())
}

#[test]
fn fresh_names_are_new(rt: HostRuntime) -> Result<(), Fail> {
    let mut names = Names::new(rt.alloc());
    let first = names.fresh()?;
    let second = names.fresh()?;
    assert!(rt; first != second);
    // The table holds the next text to be tried.
    let held = names.intern("-3")?;
    let third = names.fresh()?;
    assert!(rt; third != held);
    assert_eq!(rt; names.text(third), "-4");
    Ok(())
}
