// The classes of tokens, and sets of them.

pub const LEFT_PAREN: u8 = 0;

pub const RIGHT_PAREN: u8 = 1;

pub const LEFT_BRACKET: u8 = 2;

pub const RIGHT_BRACKET: u8 = 3;

pub const LEFT_BRACE: u8 = 4;

pub const RIGHT_BRACE: u8 = 5;

pub const LEFT_BITS: u8 = 6;

pub const RIGHT_BITS: u8 = 7;

pub const COMMA: u8 = 8;

pub const COLON: u8 = 9;

pub const COLON_END: u8 = 10;

pub const DOUBLE_COLON: u8 = 11;

pub const POINT: u8 = 12;

pub const DOT: u8 = 13;

pub const SEMI: u8 = 14;

pub const SEMI_NAMED: u8 = 15;

pub const ARROW: u8 = 16;

pub const BAR: u8 = 17;

pub const DOUBLE_BAR: u8 = 18;

pub const HASH: u8 = 19;

pub const EQUALS: u8 = 20;

pub const BANG: u8 = 21;

pub const MAYBE_MATCH: u8 = 22;

pub const LIST_ARROW: u8 = 23;

pub const BITS_ARROW: u8 = 24;

pub const CMP_OP: u8 = 25;

pub const LIST_OP: u8 = 26;

pub const PLUS: u8 = 27;

pub const MINUS: u8 = 28;

pub const ADD_WORD: u8 = 29;

pub const SLASH: u8 = 30;

pub const MUL_WORD: u8 = 31;

pub const NOT: u8 = 32;

pub const ANDALSO: u8 = 33;

pub const ORELSE: u8 = 34;

pub const ATOM: u8 = 35;

pub const VAR: u8 = 36;

pub const ANY: u8 = 37;

pub const INT: u8 = 38;

pub const CHAR: u8 = 39;

pub const STR: u8 = 40;

pub const AFTER: u8 = 41;

pub const BEGIN: u8 = 42;

pub const CASE: u8 = 43;

pub const CATCH: u8 = 44;

pub const CATCH_NAMED: u8 = 45;

pub const ELSE: u8 = 46;

pub const END: u8 = 47;

pub const FUN: u8 = 48;

pub const IF: u8 = 49;

pub const MAYBE: u8 = 50;

pub const OF: u8 = 51;

pub const RECEIVE: u8 = 52;

pub const TRY: u8 = 53;

pub const WHEN: u8 = 54;

pub const OTHER: u8 = 55;

pub const NOTHING: u8 = 56;

pub const ANY_CATCH: u64 = 0x300000000000;

pub const ANY_SEMI: u64 = 0xc000;

pub const ANY_COLON: u64 = 0x600;

pub const VARIABLE: u64 = 0x3000000000;

pub const NAME: u64 = 0x3800000000;

pub const SINGLE: u64 = 0xf800000000;

pub const SIGN: u64 = 0x18000000;

pub const UNARY_OP: u64 = 0x118000000;

pub const ADD_OP: u64 = 0x38000000;

pub const MUL_OP: u64 = 0xc0000000;

pub const LOOSE_BARE: u64 = 0xc8c2060057de00;

pub const LOOSE_KEPT: u64 = 0x373df9ffa80000;
