// The classes of tokens, and sets of them.

pub const LEFT_PAREN: u8 = 0;

pub const RIGHT_PAREN: u8 = 1;

pub const INT: u8 = 2;

pub const ATOM: u8 = 3;

pub const PLUS: u8 = 4;

pub const MINUS: u8 = 5;

pub const NOT: u8 = 6;

pub const MUL_OP: u8 = 7;

pub const ADD_WORD: u8 = 8;

pub const CMP_OP: u8 = 9;

pub const ANDALSO: u8 = 10;

pub const ORELSE: u8 = 11;

pub const OTHER: u8 = 12;

pub const NOTHING: u8 = 13;

pub const UNARY_OP: u64 = 0x70;

pub const ADD_OP: u64 = 0x130;
