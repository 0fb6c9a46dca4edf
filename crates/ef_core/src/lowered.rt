// Patterns as they are lowered.
use crate::{Bind, CorePat, CoreVar};

/// Two variables whose values have to be equal.
#[derive(Clone, Copy, Debug, PartialEq, Eq)]
pub struct Test {
    pub left: CoreVar,
    pub right: CoreVar,
}

/// Source patterns in Core: patterns of variables that differ, what has to hold beside them, and the names that they bind.
#[derive(Drop)]
pub struct Lowered {
    pub pats: Vec<CorePat>,
    pub tests: Vec<Test>,
    pub binds: Vec<Bind>,
}
