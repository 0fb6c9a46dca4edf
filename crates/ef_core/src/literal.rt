// Variables, names of functions, and literals.
use ef_base::Name;

/// A variable: `_0`, `_1` and so on, or one with a name of its own.
#[derive(Clone, Copy, Debug, PartialEq, Eq)]
pub enum CoreVar {
    Numbered(u32),
    Named(Name),
}

/// A function by name and arity.
#[derive(Clone, Copy, Debug, PartialEq, Eq)]
pub struct FName {
    pub name: Name,
    pub arity: u32,
}

/// What is known without evaluation. A list with a tail has items.
#[derive(Drop)]
pub enum CoreLit {
    Int(i128),
    Atom(Name),
    List {
        items: Vec<CoreLit>,
        tail: Option<Box<CoreLit>>,
    },
    Tuple(Vec<CoreLit>),
}
