// What stands in front of a text.
ghost use Rattle.std.specs.Prelude.{◌≡◌, ◌<◌, ◌≤◌, ◌∷◌, [], ◌++◌, IfSome, IfNone, IsUtf8, chars, drop, flat_map, length, take};
ghost use Rattle.ef_base.specs.Characters.{Each, Stops};
ghost use Rattle.ef_base.specs.Escaped.{escaped, is_plain};

/// The first character of a text, and what is behind it.
pub fn first_char(text: &str) -> Option<(char, &str)>
    ensures some { IfSome result (λ s. (chars text.now ≡ s.0 ∷ chars s.1.now) × (length s.1.now < length text.now) × IsUtf8 s.1.now) }
    ensures none { IfNone result (chars text.now ≡ []) }
{
    let mut ahead = text.chars();
    let c = ahead.next()?;
    Some((c, ahead.as_str()))
}

/// As many characters as are written as they stand in quotes of this kind, and what is behind them.
pub fn split_plain(quote: u8, text: &str) -> (&str, &str)
    ensures longest { Stops (is_plain quote) result.1.now }
    ensures written { flat_map (escaped quote) (chars text.now) ≡ result.0.now ++ flat_map (escaped quote) (chars result.1.now) }
    ensures shorter { length result.1.now ≤ length text.now }
{
    let width = plain_width(quote, text.as_bytes());
    text.split_at(width)
}

fn plain_width(quote: u8, bytes: &[u8]) -> usize
    ensures within { result ≤ length bytes.now }
    ensures each { Each (is_plain quote) (take result bytes.now) }
    ensures stops { Stops (is_plain quote) (drop result bytes.now) }
{
    let mut width = 0;
    while let Some(byte) = bytes.get(width) {
        if !stands(quote, *byte) {
            return width;
        }
        width += 1;
    }
    width
}

fn stands(quote: u8, byte: u8) -> bool
    ensures { result ≡ is_plain quote byte }
{
    byte != quote && byte != b'\\' && 32 <= byte && byte <= 126
}
