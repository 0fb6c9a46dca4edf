// Core expressions, patterns and definitions (Core Erlang 1.0.3).
use crate::{CoreLit, CoreVar, FName};
use ef_base::Name;

#[cycle(tree)]
#[derive(Drop)]
pub enum CoreExpr {
    Var(CoreVar),
    Lit(CoreLit),
    /// A function of the module or of a `letrec`, by its name.
    FunName(FName),
    Fun {
        params: Vec<CoreVar>,
        body: Box<CoreExpr>,
    },
    /// Values that are given together; never exactly one.
    ValueList(Vec<CoreExpr>),
    Tuple(Vec<CoreExpr>),
    List {
        items: Vec<CoreExpr>,
        tail: Option<Box<CoreExpr>>,
    },
    Bin(Vec<CoreSegment>),
    /// A run of lets, which is one vector.
    Lets {
        steps: Vec<LetStep>,
        body: Box<CoreExpr>,
    },
    Letrec {
        defs: Vec<CoreDef>,
        body: Box<CoreExpr>,
    },
    Case {
        arg: Box<CoreExpr>,
        clauses: Vec<CoreClause>,
    },
    Apply {
        target: Box<CoreExpr>,
        args: Vec<CoreExpr>,
    },
    Call {
        module: Box<CoreExpr>,
        function: Box<CoreExpr>,
        args: Vec<CoreExpr>,
    },
    Primop {
        name: Name,
        args: Vec<CoreExpr>,
    },
    /// The value of the second, after the first.
    Do {
        first: Box<CoreExpr>,
        second: Box<CoreExpr>,
    },
    /// The body belongs to the timeout.
    Receive {
        clauses: Vec<CoreClause>,
        timeout: Box<CoreExpr>,
        body: Box<CoreExpr>,
    },
    /// The body takes the values of the argument; the handler takes class, reason and a third value.
    Try {
        arg: Box<CoreExpr>,
        vars: Vec<CoreVar>,
        body: Box<CoreExpr>,
        catch_vars: Vec<CoreVar>,
        handler: Box<CoreExpr>,
    },
}

/// One let of a run: as many variables as the value has values.
#[cycle(tree)]
#[derive(Drop)]
pub struct LetStep {
    pub vars: Vec<CoreVar>,
    pub value: CoreExpr,
}

/// A function, with as many parameters as its arity says.
#[cycle(tree)]
#[derive(Drop)]
pub struct CoreDef {
    pub name: FName,
    pub params: Vec<CoreVar>,
    pub body: CoreExpr,
}

/// As many patterns as there are values.
#[cycle(tree)]
#[derive(Drop)]
pub struct CoreClause {
    pub pats: Vec<CorePat>,
    pub guard: CoreExpr,
    pub body: CoreExpr,
}

/// A segment of a binary: its unit is in bits, its kind `integer` or `binary`, its flags a list.
#[cycle(tree)]
#[derive(Drop)]
pub struct CoreSegment {
    pub value: CoreExpr,
    pub size: CoreExpr,
    pub unit: i128,
    pub kind: Name,
    pub flags: CoreLit,
}

#[cycle(tree)]
#[derive(Drop)]
pub enum CorePat {
    Var(CoreVar),
    Lit(CoreLit),
    Tuple(Vec<CorePat>),
    List {
        items: Vec<CorePat>,
        tail: Option<Box<CorePat>>,
    },
    Alias {
        var: CoreVar,
        pat: Box<CorePat>,
    },
    Bin(Vec<CorePatSegment>),
}

/// A segment of a binary pattern, whose size is a variable or a literal.
#[cycle(tree)]
#[derive(Drop)]
pub struct CorePatSegment {
    pub value: CorePat,
    pub size: CoreExpr,
    pub unit: i128,
    pub kind: Name,
    pub flags: CoreLit,
}
