// Classes of characters in names.
ghost use Rattle.std.specs.Prelude.{◌≡◌};
ghost use Rattle.ef_base.specs.Characters as characters;
ghost use Rattle.ef_token.specs.Letters as letters;

fn is_digit(c: char) -> bool
    ensures { result ≡ characters.is_digit c }
{
    '0' <= c && c <= '9'
}

/// What begins an unquoted atom.
pub fn begins_atom(c: char) -> bool
    ensures { result ≡ letters.begins_atom c }
{
    'a' <= c && c <= 'z' || 'ß' <= c && c <= 'ö' || 'ø' <= c && c <= 'ÿ'
}

/// What begins a variable.
pub fn begins_variable(c: char) -> bool
    ensures { result ≡ letters.begins_variable c }
{
    'A' <= c && c <= 'Z' || c == '_' || 'À' <= c && c <= 'Ö' || 'Ø' <= c && c <= 'Þ'
}

/// What an atom or a variable goes on with.
pub fn continues_name(c: char) -> bool
    ensures { result ≡ letters.continues_name c }
{
    begins_atom(c) || begins_variable(c) || is_digit(c) || c == '@'
}
