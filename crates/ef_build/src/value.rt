// What has been read of tokens, on the way to trees.
use ef_base::{Chars, Name, Place};
use ef_forms::{
    BinaryOp, CatchClause, ClassPart, Clause, Expr, FieldDef, FieldSet, Form, FunctionRef,
    MaybeStep, Qualifier, Segment, TypeWord, UnaryOp,
};

/// An operator as it is written. `+` and `-` stand in front of one operand or between two.
#[derive(Clone, Copy, Debug, PartialEq, Eq)]
pub enum Operator {
    Plus,
    Minus,
    /// One that stands in front of its operand.
    Before(UnaryOp),
    /// One that stands between its operands.
    Between(BinaryOp),
    /// `<-`
    ListArrow,
    /// `<:-`
    StrictListArrow,
    /// `<=`
    BitsArrow,
    /// `<:=`
    StrictBitsArrow,
    Catch,
}

/// A token that is an expression of its own. `Any` is the variable `_`.
#[derive(Drop)]
pub enum Leaf {
    Atom(Name),
    Var(Name),
    Any(Name),
    Int(i128),
    Char(u32),
    Str(Chars),
}

/// An expression; `start` is the place of its first token, a parenthesis among them.
#[derive(Drop)]
pub struct Operand {
    pub start: Place,
    pub nest: u32,
    pub expr: Expr,
}

/// Expressions side by side, and where the first one starts.
#[derive(Drop)]
pub struct Items {
    pub exprs: Vec<Expr>,
    pub start: Option<Place>,
    pub nest: u32,
}

/// The alternatives of a guard, and where the first one starts.
#[derive(Drop)]
pub struct Guard {
    pub tests: Vec<Vec<Expr>>,
    pub start: Option<Place>,
    pub nest: u32,
}

/// The head of a clause of a function or of a fun: its place, its name if it has one, and the number of its parameters.
#[derive(Clone, Copy, Debug, PartialEq, Eq)]
pub struct Head {
    pub place: Place,
    pub name: Option<Name>,
    pub arity: usize,
}

/// Clauses, and the head of the first one if they have heads.
#[derive(Drop)]
pub struct Clauses {
    pub clauses: Vec<Clause>,
    pub first: Option<Head>,
    pub nest: u32,
}

/// What stands in front of the pattern of a clause that catches: the class, and its place if it is written.
#[derive(Clone, Copy, Debug, PartialEq, Eq)]
pub struct Mark {
    pub place: Option<Place>,
    pub class: ClassPart,
}

/// The front of a clause that catches, up to its guard.
#[derive(Drop)]
pub struct Caught {
    pub place: Place,
    pub class: ClassPart,
    pub pattern: Box<Expr>,
    pub trace: Option<Name>,
    pub nest: u32,
}

/// Clauses that catch.
#[derive(Drop)]
pub struct Catches {
    pub clauses: Vec<CatchClause>,
    pub nest: u32,
}

/// A segment of a binary, as far as it has been read.
#[derive(Drop)]
pub struct OpenSegment {
    pub place: Place,
    pub value: Box<Expr>,
    pub size: Option<Box<Expr>>,
    pub types: Vec<TypeWord>,
    pub nest: u32,
}

/// Segments of a binary.
#[derive(Drop)]
pub struct Segments {
    pub segments: Vec<Segment>,
    pub nest: u32,
}

/// Qualifiers of a comprehension. Each counts one more level for what stands behind it.
#[derive(Drop)]
pub struct Qualifiers {
    pub qualifiers: Vec<Qualifier>,
    pub levels: u32,
    pub nest: u32,
}

/// Steps of `maybe`. Each with a pattern counts one more level for what stands behind it.
#[derive(Drop)]
pub struct Steps {
    pub steps: Vec<MaybeStep>,
    pub levels: u32,
    pub nest: u32,
}

/// Settings of fields.
#[derive(Drop)]
pub struct Fields {
    pub fields: Vec<FieldSet>,
    pub nest: u32,
}

/// A value that has been read.
#[derive(Drop)]
pub enum Value {
    /// A bracket or a word that opens a construct.
    At(Place),
    Operator(Operator, Place),
    Leaf(Leaf, Place),
    Operand(Operand),
    Items(Items),
    Guard(Guard),
    Clauses(Clauses),
    Mark(Mark),
    Caught(Caught),
    Catches(Catches),
    OpenSegment(OpenSegment),
    Segments(Segments),
    Qualifiers(Qualifiers),
    Steps(Steps),
    Fields(Fields),
    Definitions(Vec<FieldDef>),
    References(Vec<FunctionRef>),
    Form(Form),
}
