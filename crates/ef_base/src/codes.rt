//! The table of faults: the code of each, and what is printed behind it. A code of this table stands nowhere else.
ghost use Rattle.std.specs.Prelude.{◌≡◌};
ghost use Rattle.ef_base.specs.FaultTable.{wording};
ghost use Rattle.ef_base.specs.FaultTable as table;

// Of scanning, without words.
pub const NOT_UTF8: u16 = 101;

pub const ILLEGAL_CHARACTER: u16 = 102;

pub const UNTERMINATED: u16 = 103;

pub const ILLEGAL_ESCAPE: u16 = 104;

pub const ATOM_TOO_LONG: u16 = 105;

pub const ILLEGAL_BASE: u16 = 106;

pub const ILLEGAL_NUMBER: u16 = 107;

pub const LONE_DOLLAR: u16 = 108;

pub const NO_FULL_STOP: u16 = 110;

pub const LATIN: u16 = 112;

pub const FLOAT: u16 = 501;

pub const INTEGER_TOO_LARGE: u16 = 504;

pub const SIGIL: u16 = 506;

pub const TRIPLE_QUOTES: u16 = 507;

// Of parsing, without words.
pub const SYNTAX_ERROR: u16 = 301;

pub const TOO_DEEP: u16 = 608;

// Of a file. The words of the first are the path, and the others have none.
pub const NO_FILE: u16 = 232;

pub const NO_MODULE: u16 = 308;

pub const NOT_BUILT: u16 = 500;

pub const FILE_TOO_LARGE: u16 = 601;

// Of a use of a variable, whose name is the words.
pub const UNBOUND: u16 = 451;

pub const UNSAFE: u16 = 452;

// Of forms and of their heads; the words of a malformed attribute, and of one behind functions, are its name.
pub const HEAD_MISMATCH: u16 = 302;

pub const MALFORMED_MODULE: u16 = 303;

pub const MALFORMED_EXPORT: u16 = 304;

pub const MALFORMED_IMPORT: u16 = 305;

pub const MALFORMED_RECORD: u16 = 306;

pub const MALFORMED_ATTRIBUTE: u16 = 307;

pub const SECOND_MODULE: u16 = 309;

pub const FORM_BEFORE_MODULE: u16 = 310;

pub const AFTER_FUNCTIONS: u16 = 311;

pub const FUN_HEAD_MISMATCH: u16 = 312;

pub const TOO_MANY_FUNCTIONS: u16 = 606;

pub const TOO_MANY_ARGUMENTS: u16 = 607;

pub const FUNCTION_TOO_LARGE: u16 = 609;

// Of what is outside the profile, without words.
pub const FLOAT_OPERATION: u16 = 502;

pub const MAP: u16 = 503;

pub const ZIP_GENERATOR: u16 = 505;

pub const STRICT_GENERATOR: u16 = 508;

pub const MAP_FUNCTION: u16 = 509;

pub const UTF_SEGMENT: u16 = 510;

pub const SIZE_EXPRESSION: u16 = 511;

pub const NOT_IN_PROFILE: u16 = 512;

// Of a use of a macro; the words are its name, or none.
pub const UNDEFINED_MACRO: u16 = 201;

pub const WRONG_ARGUMENTS: u16 = 202;

pub const CIRCULAR_MACRO: u16 = 203;

pub const ILLEGAL_CALL: u16 = 204;

pub const ILLEGAL_ARGUMENTS: u16 = 205;

pub const ILLEGAL_STRINGIFY: u16 = 206;

pub const TOO_MANY_TOKENS: u16 = 604;

// Of a definition of a macro; the words are its name, or none.
pub const MALFORMED_DEFINE: u16 = 207;

pub const REDEFINED: u16 = 208;

pub const PREDEFINED: u16 = 209;

pub const MALFORMED_UNDEF: u16 = 234;

pub const TOO_MANY_MACROS: u16 = 605;

// Of a condition, without words.
pub const ILLEGAL_CONDITION: u16 = 221;

pub const CONDITION_FAILS: u16 = 222;

pub const NO_BOOLEAN: u16 = 223;

pub const OUT_OF_RANGE: u16 = 224;

pub const MALFORMED_NAME_TEST: u16 = 235;

pub const NO_OPEN_CONDITION: u16 = 236;

pub const AFTER_ELSE: u16 = 237;

pub const CONDITION_NOT_CLOSED: u16 = 238;

pub const MALFORMED_CONDITION: u16 = 239;

// Of the other directives; the words of the second are the text that was written.
pub const MALFORMED_INCLUDE: u16 = 231;

pub const ERROR_KEPT: u16 = 240;

pub const MALFORMED_DIRECTIVE: u16 = 241;

pub const INCLUDE_DEPTH: u16 = 602;

pub const TOO_MANY_INCLUDES: u16 = 603;

/// What a fault says, before its words and after them.
#[derive(Clone, Copy)]
pub struct Wording {
    pub before: &'static [u8],
    pub after: &'static [u8],
}

/// What the fault of this code says.
pub fn wording_of(code: u16) -> Wording
    ensures before { result.before.now ≡ (wording code).before }
    ensures after { result.after.now ≡ (wording code).after }
{
    let (before, after): (&[u8], &[u8]) = match code {
        NOT_UTF8 => (b"not UTF-8", b""),
        ILLEGAL_CHARACTER => (b"illegal character", b""),
        UNTERMINATED => (b"unterminated text", b""),
        ILLEGAL_ESCAPE => (b"illegal escape", b""),
        ATOM_TOO_LONG => (b"atom too long", b""),
        ILLEGAL_BASE => (b"illegal base", b""),
        ILLEGAL_NUMBER => (b"illegal number", b""),
        LONE_DOLLAR => (b"illegal character literal", b""),
        NO_FULL_STOP => (b"missing full stop", b""),
        LATIN => (b"latin-1 source", b""),
        FLOAT => (b"float", b""),
        INTEGER_TOO_LARGE => (b"integer too large", b""),
        SIGIL => (b"sigil", b""),
        TRIPLE_QUOTES => (b"triple-quoted string", b""),
        SYNTAX_ERROR => (b"syntax error", b""),
        TOO_DEEP => (b"nesting too deep", b""),
        NO_FILE => (b"no file ", b""),
        NO_MODULE => (b"no module attribute", b""),
        NOT_BUILT => (b"not built", b""),
        FILE_TOO_LARGE => (b"file too large", b""),
        UNBOUND => (b"variable ", b" is unbound"),
        UNSAFE => (b"variable ", b" is unsafe here"),
        HEAD_MISMATCH => (b"head mismatch", b""),
        MALFORMED_MODULE => (b"malformed attribute ", b""),
        MALFORMED_EXPORT => (b"malformed attribute ", b""),
        MALFORMED_IMPORT => (b"malformed attribute ", b""),
        MALFORMED_RECORD => (b"malformed attribute ", b""),
        MALFORMED_ATTRIBUTE => (b"malformed attribute ", b""),
        SECOND_MODULE => (b"second module attribute", b""),
        FORM_BEFORE_MODULE => (b"form before module attribute", b""),
        AFTER_FUNCTIONS => (b"attribute ", b" after functions"),
        FUN_HEAD_MISMATCH => (b"fun head mismatch", b""),
        FLOAT_OPERATION => (b"float operation", b""),
        MAP => (b"map", b""),
        ZIP_GENERATOR => (b"zip generator", b""),
        STRICT_GENERATOR => (b"strict generator", b""),
        MAP_FUNCTION => (b"map function", b""),
        UTF_SEGMENT => (b"utf segment", b""),
        SIZE_EXPRESSION => (b"size expression", b""),
        NOT_IN_PROFILE => (b"not in this profile", b""),
        TOO_MANY_FUNCTIONS => (b"too many functions", b""),
        FUNCTION_TOO_LARGE => (b"function too large", b""),
        TOO_MANY_ARGUMENTS => (b"too many arguments", b""),
        _ => return directive_wording(code),
    };
    Wording { before, after }
}

/// What the fault of this code says, if it is one of macros and directives.
fn directive_wording(code: u16) -> Wording
    ensures before { result.before.now ≡ (table.directive_wording code).before }
    ensures after { result.after.now ≡ (table.directive_wording code).after }
{
    let (before, after): (&[u8], &[u8]) = match code {
        UNDEFINED_MACRO => (b"undefined macro ", b""),
        WRONG_ARGUMENTS => (b"wrong arguments of macro ", b""),
        CIRCULAR_MACRO => (b"circular macro ", b""),
        ILLEGAL_CALL => (b"illegal macro call", b""),
        ILLEGAL_ARGUMENTS => (b"illegal arguments of macro ", b""),
        ILLEGAL_STRINGIFY => (b"illegal stringify", b""),
        TOO_MANY_TOKENS => (b"too many tokens", b""),
        MALFORMED_DEFINE => (b"malformed define", b""),
        REDEFINED => (b"macro ", b" redefined"),
        PREDEFINED => (b"macro ", b" is predefined"),
        MALFORMED_UNDEF => (b"malformed undef", b""),
        TOO_MANY_MACROS => (b"too many macros", b""),
        ILLEGAL_CONDITION => (b"illegal condition", b""),
        CONDITION_FAILS => (b"condition fails", b""),
        NO_BOOLEAN => (b"condition is no boolean", b""),
        OUT_OF_RANGE => (b"condition out of range", b""),
        MALFORMED_NAME_TEST => (b"malformed condition", b""),
        NO_OPEN_CONDITION => (b"no open condition", b""),
        AFTER_ELSE => (b"after else", b""),
        CONDITION_NOT_CLOSED => (b"condition not closed", b""),
        MALFORMED_CONDITION => (b"malformed condition", b""),
        MALFORMED_INCLUDE => (b"malformed include", b""),
        ERROR_KEPT => (b"-error: ", b""),
        MALFORMED_DIRECTIVE => (b"malformed directive", b""),
        INCLUDE_DEPTH => (b"include depth", b""),
        TOO_MANY_INCLUDES => (b"too many includes", b""),
        _ => (b"", b""),
    };
    Wording { before, after }
}
