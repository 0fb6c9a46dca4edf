// The reserved words and the symbols of Core text.

/// A reserved word.
#[derive(Clone, Copy, Debug, PartialEq, Eq)]
pub enum Word {
    After,
    Apply,
    Attributes,
    Call,
    Case,
    Catch,
    Do,
    End,
    Fun,
    In,
    Let,
    Letrec,
    Module,
    Of,
    Primop,
    Receive,
    Try,
    When,
}

/// A symbol. `BinBegin` and `BinEnd` stand about a binary, `SegmentBegin` before a segment.
#[derive(Clone, Copy, Debug, PartialEq, Eq)]
pub enum Symbol {
    LeftParen,
    RightParen,
    LeftBracket,
    RightBracket,
    LeftBrace,
    RightBrace,
    Less,
    Greater,
    Comma,
    Bar,
    Slash,
    Colon,
    Equals,
    Arrow,
    DashBar,
    BinBegin,
    SegmentBegin,
    BinEnd,
}
