// Symbols: the longest that a text begins with.
ghost use Rattle.std.specs.Prelude.{◌≡◌, ◌≢◌, ◌<◌, ◌≤◌, ◌++◌, [], ◌∷◌, IfSome, IfNone, length};
ghost use Rattle.ef_scan.specs.Symbols.{Fits, IsLongestSymbol};
ghost use Rattle.ef_token.specs.Words.{sym_text};
ghost use Rattle.ef_token.specs.declared.word.Sym.{Sym};

use ef_token::Sym;

fn of_three(a: u8, b: u8, c: u8) -> Option<Sym>
    ensures some { IfSome result (λ s. sym_text s ≡ a ∷ b ∷ c ∷ []) }
    ensures none { IfNone result ((s : Sym) → sym_text s ≢ a ∷ b ∷ c ∷ []) }
{
    match (a, b, c) {
        (b'<', b':', b'-') => Some(Sym::StrictLeftArrow),
        (b'<', b':', b'=') => Some(Sym::StrictDoubleLeftArrow),
        (b'=', b':', b'=') => Some(Sym::Same),
        (b'=', b'/', b'=') => Some(Sym::NotSame),
        (b'.', b'.', b'.') => Some(Sym::Ellipsis),
        _ => None,
    }
}

fn of_two(a: u8, b: u8) -> Option<Sym>
    ensures some { IfSome result (λ s. sym_text s ≡ a ∷ b ∷ []) }
    ensures none { IfNone result ((s : Sym) → sym_text s ≢ a ∷ b ∷ []) }
{
    match (a, b) {
        (b'<', b'<') => Some(Sym::LeftBits),
        (b'>', b'>') => Some(Sym::RightBits),
        (b':', b':') => Some(Sym::DoubleColon),
        (b'-', b'>') => Some(Sym::Arrow),
        (b'<', b'-') => Some(Sym::LeftArrow),
        (b'<', b'=') => Some(Sym::DoubleLeftArrow),
        (b'|', b'|') => Some(Sym::DoubleBar),
        (b'?', b'=') => Some(Sym::MaybeMatch),
        (b'=', b'=') => Some(Sym::Equal),
        (b'/', b'=') => Some(Sym::NotEqual),
        (b'=', b'<') => Some(Sym::AtMost),
        (b'>', b'=') => Some(Sym::AtLeast),
        (b'+', b'+') => Some(Sym::Append),
        (b'-', b'-') => Some(Sym::Subtract),
        (b':', b'=') => Some(Sym::Assign),
        (b'=', b'>') => Some(Sym::DoubleArrow),
        (b'.', b'.') => Some(Sym::DoublePeriod),
        (b'&', b'&') => Some(Sym::DoubleAnd),
        _ => None,
    }
}

fn of_one(a: u8) -> Option<Sym>
    ensures some { IfSome result (λ s. sym_text s ≡ a ∷ []) }
    ensures none { IfNone result ((s : Sym) → sym_text s ≢ a ∷ []) }
{
    match a {
        b'(' => Some(Sym::LeftParen),
        b')' => Some(Sym::RightParen),
        b'[' => Some(Sym::LeftBracket),
        b']' => Some(Sym::RightBracket),
        b'{' => Some(Sym::LeftBrace),
        b'}' => Some(Sym::RightBrace),
        b',' => Some(Sym::Comma),
        b';' => Some(Sym::Semicolon),
        b'.' => Some(Sym::Period),
        b':' => Some(Sym::Colon),
        b'|' => Some(Sym::Bar),
        b'=' => Some(Sym::Match),
        b'<' => Some(Sym::Less),
        b'>' => Some(Sym::Greater),
        b'+' => Some(Sym::Plus),
        b'-' => Some(Sym::Minus),
        b'*' => Some(Sym::Star),
        b'/' => Some(Sym::Slash),
        b'!' => Some(Sym::Send),
        b'#' => Some(Sym::Hash),
        b'?' => Some(Sym::Question),
        _ => None,
    }
}

/// A symbol and the number of its characters.
#[derive(Clone, Copy)]
pub(crate) struct Symbol {
    pub sym: Sym,
    pub width: usize,
}

fn begins_three(text: &[u8]) -> Option<Sym>
    ensures some { IfSome result (λ s. Fits s text.now × (length (sym_text s) ≡ 3)) }
    ensures none { IfNone result ((s : Sym) → Fits s text.now → length (sym_text s) ≢ 3) }
{
    match text {
        [a, b, c, ..] => of_three(*a, *b, *c),
        _ => None,
    }
}

fn begins_two(text: &[u8]) -> Option<Sym>
    ensures some { IfSome result (λ s. Fits s text.now × (length (sym_text s) ≡ 2)) }
    ensures none { IfNone result ((s : Sym) → Fits s text.now → length (sym_text s) ≢ 2) }
{
    match text {
        [a, b, ..] => of_two(*a, *b),
        _ => None,
    }
}

fn begins_one(text: &[u8]) -> Option<Sym>
    ensures some { IfSome result (λ s. Fits s text.now × (length (sym_text s) ≡ 1)) }
    ensures none { IfNone result ((s : Sym) → Fits s text.now → length (sym_text s) ≢ 1) }
{
    match text {
        [a, ..] => of_one(*a),
        _ => None,
    }
}

/// The longest symbol at the front of a text.
pub(crate) fn longest_symbol(text: &[u8]) -> Option<Symbol>
    ensures some { IfSome result (λ f. IsLongestSymbol text.now f.sym f.width) }
    ensures none { IfNone result ((s : Sym) → Fits s text.now → ⊥) }
{
    if let Some(sym) = begins_three(text) {
        return Some(Symbol { sym, width: 3 });
    }
    if let Some(sym) = begins_two(text) {
        return Some(Symbol { sym, width: 2 });
    }
    let sym = begins_one(text)?;
    Some(Symbol { sym, width: 1 })
}
