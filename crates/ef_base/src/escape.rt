// Characters as they are written in quotes.
ghost use Rattle.std.specs.Prelude.{◌≡◌, ◌++◌, ◌<◌, ◌≤◌, ◌∷◌, [], false, length};
ghost use Rattle.std.specs.Fmt.{digits, digit_glyph};
ghost use Rattle.ef_base.specs.Escaped.{escaped, hex_escape};

use crate::ShortText;

/// A character in quotes of this kind.
pub fn escaped(quote: u8, code: u32) -> ShortText
    ensures { result ≡ escaped quote code }
{
    if code == u32::from(quote) || code == 92 {
        let mut text = ShortText::of(code as u8);
        text.put_first(b'\\');
        return text;
    }
    if code < 32 || 126 < code {
        return hex_escape(code);
    }
    ShortText::of(code as u8)
}

/// A character by its number.
pub fn hex_escape(code: u32) -> ShortText
    ensures { result ≡ hex_escape code }
{
    let mut text = hex_digits(code);
    text.put_first(b'{');
    text.put_first(b'x');
    text.put_first(b'\\');
    text
}

// The digits of a number, and `}`.
fn hex_digits(code: u32) -> ShortText
    ensures digits { result ≡ digits 16 false code ++ 125 ∷ [] }
    ensures room { length result ≤ 9 }
{
    let mut text = ShortText::of(b'}');
    let mut rest = code;
    while 15 < rest {
        text.put_first(hex_digit(rest % 16));
        rest /= 16;
    }
    text.put_first(hex_digit(rest));
    text
}

// The digit of a number below 16.
fn hex_digit(value: u32) -> u8
    requires { value < 16 }
    ensures { result ≡ digit_glyph false value }
{
    if value < 10 {
        b'0' + value as u8
    } else {
        b'a' + (value as u8 - 10)
    }
}
