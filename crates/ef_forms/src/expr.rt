// Expressions and clauses (Abstract Format). Patterns and guards are expressions too.
use ef_base::{Chars, Name, Place};

/// An expression at the place of its first token; parentheses round it are no part of it.
#[cycle(expr)]
#[derive(Drop)]
pub struct Expr {
    pub place: Place,
    pub node: Node,
}

/// An operator in front of its operand.
#[derive(Clone, Copy, Debug, PartialEq, Eq)]
pub enum UnaryOp {
    Plus,
    Minus,
    Bnot,
    Not,
}

/// An operator between its operands: `+ - * / div rem band bor bxor bsl bsr and or xor == /= < =< > >= =:= =/= ++ -- !`
/// in this order.
#[derive(Clone, Copy, Debug, PartialEq, Eq)]
pub enum BinaryOp {
    Add,
    Sub,
    Mul,
    Slash,
    Div,
    Rem,
    Band,
    Bor,
    Bxor,
    Bsl,
    Bsr,
    And,
    Or,
    Xor,
    Equal,
    NotEqual,
    Less,
    AtMost,
    Greater,
    AtLeast,
    Same,
    NotSame,
    Append,
    Subtract,
    Send,
}

#[cycle(expr)]
#[derive(Drop)]
pub enum Node {
    Int(i128),
    Char(u32),
    Str(Chars),
    Atom(Name),
    Var(Name),
    /// `_`
    Any,
    /// No items and no tail are `[]`.
    List {
        items: Vec<Expr>,
        tail: Option<Box<Expr>>,
    },
    Tuple(Vec<Expr>),
    Bin(Vec<Segment>),
    Unary {
        op: UnaryOp,
        arg: Box<Expr>,
    },
    Binary {
        op: BinaryOp,
        left: Box<Expr>,
        right: Box<Expr>,
    },
    AndAlso {
        left: Box<Expr>,
        right: Box<Expr>,
    },
    OrElse {
        left: Box<Expr>,
        right: Box<Expr>,
    },
    /// `left = right`
    Match {
        left: Box<Expr>,
        right: Box<Expr>,
    },
    Catch(Box<Expr>),
    Call {
        target: Box<Expr>,
        args: Vec<Expr>,
    },
    Remote {
        module: Box<Expr>,
        function: Box<Expr>,
        args: Vec<Expr>,
    },
    /// `#name{fields}`
    RecordNew {
        name: Name,
        fields: Vec<FieldSet>,
    },
    /// `target#name{fields}`
    RecordUpdate {
        target: Box<Expr>,
        name: Name,
        fields: Vec<FieldSet>,
    },
    /// `target#name.field`
    RecordField {
        target: Box<Expr>,
        name: Name,
        field: Name,
    },
    /// `#name.field`
    RecordIndex {
        name: Name,
        field: Name,
    },
    Block(Vec<Expr>),
    /// Clauses without patterns.
    If(Vec<Clause>),
    /// There is a clause, and each has one pattern.
    Case {
        arg: Box<Expr>,
        clauses: Vec<Clause>,
    },
    /// Clauses of one pattern each, and the time after which the body is done.
    Receive {
        clauses: Vec<Clause>,
        timeout: Option<Box<(Expr, Vec<Expr>)>>,
    },
    Try {
        body: Vec<Expr>,
        of_clauses: Option<Vec<Clause>>,
        catches: Vec<CatchClause>,
        after_body: Option<Vec<Expr>>,
    },
    Maybe {
        steps: Vec<MaybeStep>,
        else_clauses: Option<Vec<Clause>>,
    },
    ListComp {
        head: Box<Expr>,
        qualifiers: Vec<Qualifier>,
    },
    BinComp {
        head: Box<Expr>,
        qualifiers: Vec<Qualifier>,
    },
    /// `fun name/arity`; an arity above 2^32 - 1 stands as that.
    FunLocal {
        name: Name,
        arity: u32,
    },
    /// `fun module:function/arity`
    FunRemote {
        module: Box<Expr>,
        function: Box<Expr>,
        arity: Box<Expr>,
    },
    Fun(Vec<Clause>),
    NamedFun {
        name: Name,
        clauses: Vec<Clause>,
    },
}

/// A clause. The guard is a list of alternatives, each a list of tests; no guard is the empty list.
#[cycle(expr)]
#[derive(Drop)]
pub struct Clause {
    pub place: Place,
    pub patterns: Vec<Expr>,
    pub guard: Vec<Vec<Expr>>,
    pub body: Vec<Expr>,
}

/// The class of a clause that catches.
#[derive(Clone, Copy, Debug, PartialEq, Eq)]
pub enum ClassPart {
    /// None is written, which is `throw`.
    LeftOut,
    Atom(Name),
    Var(Name),
    /// `_`
    Any,
}

/// A clause that catches: `class:pattern:trace when guard -> body`. A trace `_` is none.
#[cycle(expr)]
#[derive(Drop)]
pub struct CatchClause {
    pub place: Place,
    pub class: ClassPart,
    pub pattern: Expr,
    pub trace: Option<Name>,
    pub guard: Vec<Vec<Expr>>,
    pub body: Vec<Expr>,
}

/// A word of a segment, as `integer` or `unit:8`.
#[derive(Clone, Copy, Debug, PartialEq, Eq)]
pub struct TypeWord {
    pub name: Name,
    pub number: Option<i128>,
}

/// `value:size/types` in a binary.
#[cycle(expr)]
#[derive(Drop)]
pub struct Segment {
    pub place: Place,
    pub value: Expr,
    pub size: Option<Expr>,
    pub types: Vec<TypeWord>,
}

/// `field = value`; no field is the wildcard `_`.
#[cycle(expr)]
#[derive(Drop)]
pub struct FieldSet {
    pub place: Place,
    pub field: Option<Name>,
    pub value: Expr,
}

/// A step of `maybe`: an expression, or `pattern ?= value`.
#[cycle(expr)]
#[derive(Drop)]
pub struct MaybeStep {
    pub pattern: Option<Expr>,
    pub value: Expr,
}

/// A generator `pattern <- source` over a list or `pattern <= source` over a bit string, strict where it is written with
/// `<:-` or `<:=`; or a filter.
#[cycle(expr)]
#[derive(Drop)]
pub enum Qualifier {
    ListFrom {
        pattern: Expr,
        source: Expr,
        strict: bool,
    },
    BitsFrom {
        pattern: Expr,
        source: Expr,
        strict: bool,
    },
    Filter(Expr),
}
