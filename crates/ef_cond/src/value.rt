// Values of conditions, and operators.

/// An operator as it is written; `=:=` is `==`, and `=/=` is `/=`. `+` and `-` stand in front of one operand or between two.
#[derive(Clone, Copy)]
pub enum Operator {
    Plus,
    Minus,
    Bnot,
    Not,
    Times,
    Div,
    Rem,
    Band,
    Bor,
    Bxor,
    Bsl,
    Bsr,
    And,
    Or,
    Xor,
    Equal,
    NotEqual,
    Less,
    AtMost,
    Greater,
    AtLeast,
}

/// A value. The atoms `true` and `false` are truths, and `Fails` is none, but the code of a fault.
#[derive(Clone, Copy)]
pub enum Value<'a> {
    Number(i128),
    Truth(bool),
    Atom(&'a str),
    Fails(u16),
}

/// A value, and the nesting of what has it, which counts up to the greatest one.
#[derive(Clone, Copy)]
pub struct Operand<'a> {
    pub value: Value<'a>,
    pub nest: u32,
}

/// What stands on the stack.
#[derive(Clone, Copy)]
pub enum Item<'a> {
    Operand(Operand<'a>),
    Operator(Operator),
}
