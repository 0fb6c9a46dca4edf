// What nodes are, as rules ask for it.
ghost use Rattle.std.specs.Prelude.{◌≡◌, map};
ghost use Rattle.ef_forms.specs.Plain.{plain};
ghost use Rattle.ef_forms.specs.Shown.{show_head, show_segment};
ghost use Rattle.ef_forms.specs.Views as v;

use crate::{BinaryOp, Clause, Expr, FunctionName, Node, Segment};
use ef_base::Name;

/// What is called by its name: the module, where one is given, the name and the number of arguments.
#[derive(Clone, Copy)]
pub struct Called {
    pub home: Option<Name>,
    pub name: Name,
    pub arity: usize,
}

/// The atom that the expression is.
#[tactic(auto, using(crate::proofs::Plain::laws))]
pub fn atom(expr: &Expr) -> Option<Name>
    ensures { result ≡ v.atom_of (plain expr.now) }
{
    match &expr.node {
        Node::Atom(name) => Some(*name),
        _ => None,
    }
}

/// What the expression calls by its name.
pub fn call_by_name(expr: &Expr) -> Option<Called>
    ensures { result ≡ v.call_by_name (plain expr.now) }
{
    match &expr.node {
        Node::Call { target, args } => {
            let name = atom(target)?;
            Some(Called {
                home: None,
                name,
                arity: args.len(),
            })
        }
        Node::Remote {
            module,
            function,
            args,
        } => {
            let home = atom(module)?;
            let name = atom(function)?;
            Some(Called {
                home: Some(home),
                name,
                arity: args.len(),
            })
        }
        _ => None,
    }
}

/// The number of arguments of the call that the expression is, whatever it calls.
pub fn arguments(expr: &Expr) -> Option<usize>
    ensures { result ≡ v.arguments (plain expr.now) }
{
    match &expr.node {
        Node::Call { args, .. } => Some(args.len()),
        Node::Remote { args, .. } => Some(args.len()),
        _ => None,
    }
}

/// The function of the module that the expression names as `fun name/arity`.
#[tactic(auto, using(crate::proofs::Plain::laws))]
pub fn fun_name(expr: &Expr) -> Option<FunctionName>
    ensures { result ≡ v.fun_name (plain expr.now) }
{
    match &expr.node {
        Node::FunLocal { name, arity } => Some(FunctionName {
            name: *name,
            arity: *arity,
        }),
        _ => None,
    }
}

/// The operator of two operands that the expression is.
#[tactic(auto, using(crate::proofs::Plain::laws))]
pub fn operator(expr: &Expr) -> Option<BinaryOp>
    ensures { result ≡ v.operator (plain expr.now) }
{
    match &expr.node {
        Node::Binary { op, .. } => Some(*op),
        _ => None,
    }
}

/// The segments of the binary that the expression is, and none of another.
#[tactic(auto, using(crate::proofs::Plain::laws, crate::proofs::Views::shown_segments))]
pub fn segments(expr: &Expr) -> &[Segment]
    ensures { map show_segment result.now ≡ v.segments_of (plain expr.now) }
{
    match &expr.node {
        Node::Bin(segments) => segments,
        _ => &[],
    }
}

/// The clauses of the fun that the expression is, and none of another.
pub fn fun_clauses(expr: &Expr) -> &[Clause]
    ensures { map show_head result.now ≡ v.fun_heads (plain expr.now) }
{
    match &expr.node {
        Node::Fun(clauses) => clauses,
        Node::NamedFun { clauses, .. } => clauses,
        _ => &[],
    }
}
