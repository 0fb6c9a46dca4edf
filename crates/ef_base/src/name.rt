// A name of a table.

/// The number of a text in its table of names. It means nothing without the table.
#[derive(Clone, Copy, Debug, PartialEq, Eq)]
pub struct Name {
    pub index: usize,
}
