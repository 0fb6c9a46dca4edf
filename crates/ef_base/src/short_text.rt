// Texts of a few bytes, which take no memory.
ghost use Rattle.std.specs.Prelude.{◌≡◌, ◌<◌, ◌∷◌, [], length};

use std::marker::Model;

/// At most 12 bytes, which contracts see as a list.
#[derive(Drop)]
pub struct ShortText {
    bytes: [u8; 12],
    start: usize,
}

impl Model for ShortText {
    ghost use Rattle.std.specs.Prelude.{List, ℕ, ◌≤◌, drop};

    ghost Value = { List ℕ };

    ghost view = { λ t. drop t.start t.bytes };

    ghost invariant = { λ t. t.start ≤ 12 };
}

impl ShortText {
    pub(crate) fn of(byte: u8) -> ShortText
        ensures { result ≡ byte ∷ [] }
    {
        ShortText {
            bytes: [byte; 12],
            start: 11,
        }
    }

    pub(crate) fn put_first(&mut self, byte: u8)
        requires { length self.old < 12 }
        ensures { self.new ≡ byte ∷ self.old }
    {
        self.start -= 1;
        self.bytes[self.start] = byte;
    }

    /// The bytes.
    pub fn as_bytes(&self) -> &[u8]
        ensures { result.now ≡ self.now }
    {
        &self.bytes[self.start..]
    }
}
