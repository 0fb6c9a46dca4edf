// Classes of characters.
ghost use Rattle.std.specs.Prelude.{◌≡◌, ◌≤◌, length, take, drop};
ghost use Rattle.ef_base.specs.Characters as characters;
ghost use Rattle.ef_base.specs.Characters.{Each, Stops};
ghost use Rattle.ef_scan.specs.Cursors.{is_plain_of, test_of};

use ef_token::continues_name;

/// A class of which the scanner takes as many characters as there are.
#[derive(Clone, Copy)]
pub(crate) enum Class {
    White,
    Name,
    Line,
    Space,
    /// What stands for itself in such quotes.
    Inside(char),
}

impl Class {
    pub(crate) fn has(self, c: char) -> bool
        ensures { result ≡ test_of self c }
    {
        match self {
            Class::White => is_white(c),
            Class::Name => continues_name(c),
            Class::Line => c != '\n',
            Class::Space => c == ' ',
            Class::Inside(quote) => c != quote && c != '\\',
        }
    }

    fn has_plain(self, byte: u8) -> bool
        ensures { result ≡ is_plain_of self byte }
    {
        byte < 128 && byte != b'\n' && self.has(byte as char)
    }

    /// How many characters of the class that are ASCII and end no line are in front.
    pub(crate) fn plain_width(self, bytes: &[u8]) -> usize
        ensures within { result ≤ length bytes.now }
        ensures each { Each (is_plain_of self) (take result bytes.now) }
        ensures stops { Stops (is_plain_of self) (drop result bytes.now) }
    {
        let mut width = 0;
        while let Some(byte) = bytes.get(width) {
            if !self.has_plain(*byte) {
                return width;
            }
            width += 1;
        }
        width
    }
}

pub(crate) fn is_white(c: char) -> bool
    ensures { result ≡ characters.is_white c }
{
    c <= ' ' || ('\u{80}'..='\u{a0}').contains(&c)
}
