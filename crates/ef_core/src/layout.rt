// What the gap between two lexemes depends on.

/// What was printed last, as far as the next gap depends on it.
#[derive(Clone, Copy, Debug, PartialEq, Eq)]
pub enum Last {
    /// Nothing yet.
    Start,
    /// A line ended.
    Newline,
    /// A symbol after which nothing stands.
    Opening,
    /// A lexeme right behind which arguments open.
    Callable,
    Other,
}
