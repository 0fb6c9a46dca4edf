// Rows of a grammar, as constants of the program.

/// A part of a right side. A token is given by the set of its classes: the bit of each class is set.
#[derive(Clone, Copy)]
pub enum Symbol<R, A> {
    Token(u64),
    Rule(R),
    Act(A),
}

/// Symbols, which all come to nothing at the classes of `pass`.
#[derive(Clone, Copy)]
pub struct Piece<'a, R, A> {
    pub symbols: &'a [Symbol<R, A>],
    pub pass: u64,
}

/// A right side of a rule, in two parts, and the set of the classes of tokens at which it is chosen. Rows may share their
/// second parts.
pub struct Row<R: 'static, A: 'static> {
    pub at: u64,
    pub right: &'static [Symbol<R, A>],
    pub then: Piece<'static, R, A>,
}
