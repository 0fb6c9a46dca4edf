// Characters put behind bytes, with escapes.
ghost use Rattle.std.specs.Prelude.{◌≡◌, ◌++◌, IfOk};
ghost use Rattle.ef_token.specs.Spelling.{Keeps, escaped, escaped_alone};

use ef_base::{NoMemory, escaped, hex_escape};

pub(crate) fn put(into: &mut Vec<u8>, bytes: &[u8]) -> Result<(), NoMemory>
    ensures puts { IfOk result (λ _. into.new.items ≡ into.old.items ++ bytes.now) }
    ensures keeps { Keeps into.old.items into.new.items }
{
    into.extend_from_slice(bytes)?;
    Ok(())
}

/// A character in quotes of this kind.
pub(crate) fn put_escaped(into: &mut Vec<u8>, quote: u8, code: u32) -> Result<(), NoMemory>
    ensures puts { IfOk result (λ _. into.new.items ≡ into.old.items ++ escaped quote code) }
    ensures keeps { Keeps into.old.items into.new.items }
{
    let text = escaped(quote, code);
    put(into, text.as_bytes())
}

/// A character behind `$`.
pub(crate) fn put_alone(into: &mut Vec<u8>, code: u32) -> Result<(), NoMemory>
    ensures puts { IfOk result (λ _. into.new.items ≡ into.old.items ++ escaped_alone code) }
    ensures keeps { Keeps into.old.items into.new.items }
{
    if code == 92 {
        return put(into, b"\\\\");
    }
    if code < 33 || 126 < code {
        let text = hex_escape(code);
        return put(into, text.as_bytes());
    }
    put(into, &[code as u8])
}
