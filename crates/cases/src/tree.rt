// The nodes of forms, a line each.

use crate::bounds::{LIMIT, read};
use ef_base::{Name, Names, NoMemory};
use ef_forms::{BinaryOp, Module, Node, Role, Seen, UnaryOp, form_nodes};
use std::alloc::Global;

/// The nodes of the forms of the text, each before its parts; nothing where a form is faulty. The text stands behind a module
/// attribute in a line of its own.
pub fn trees(alloc: Global, text: &[u8]) -> Result<Vec<u8>, NoMemory> {
    let mut into = Vec::new(alloc);
    let mut source = Vec::new(alloc);
    source.extend_from_slice(b"-module(r).\n")?;
    source.extend_from_slice(text)?;
    if source.len() > LIMIT {
        return Ok(into);
    }
    let Some((names, module)) = read(alloc, &source)? else {
        return Ok(into);
    };
    let added = add_forms(alloc, &names, &module, &mut into);
    drop(module);
    added?;
    Ok(into)
}

fn add_forms(
    alloc: Global,
    names: &Names,
    module: &Module,
    into: &mut Vec<u8>,
) -> Result<(), NoMemory> {
    for placed in &module.forms {
        let mut nodes = Vec::new(alloc);
        form_nodes(&placed.form, &mut nodes)?;
        add_nodes(alloc, names, &nodes, into)?;
    }
    Ok(())
}

fn add_nodes(
    alloc: Global,
    names: &Names,
    nodes: &[Seen<'_>],
    into: &mut Vec<u8>,
) -> Result<(), NoMemory> {
    for node in nodes {
        add_node(alloc, names, node, into)?;
    }
    Ok(())
}

// Adds a node: its level, its place, what it is there for, and what it is.
fn add_node(
    alloc: Global,
    names: &Names,
    node: &Seen<'_>,
    into: &mut Vec<u8>,
) -> Result<(), NoMemory> {
    let level = node.level;
    let line = node.expr.place.line;
    let column = node.expr.place.column;
    let role = role_word(node.role);
    let word = word_of(&node.expr.node);
    let text = format!(in alloc; "{level} {line}:{column} {role}{word}")?;
    into.extend_from_slice(text.as_bytes())?;
    if let Some(name) = name_of(&node.expr.node) {
        into.push(b' ')?;
        into.extend_from_slice(names.text_of(name).as_bytes())?;
    }
    into.push(b'\n')?;
    Ok(())
}

fn role_word(role: Role) -> &'static str {
    match role {
        Role::Body => "",
        Role::Pattern => "pattern ",
        Role::Guard => "guard ",
        Role::PatternSize => "size ",
        Role::Target => "target ",
        Role::Filter => "filter ",
    }
}

// The name that stands in the node.
fn name_of(node: &Node) -> Option<Name> {
    match node {
        Node::Atom(name) => Some(*name),
        Node::Var(name) => Some(*name),
        Node::RecordNew { name, .. } => Some(*name),
        Node::RecordUpdate { name, .. } => Some(*name),
        Node::RecordField { name, .. } => Some(*name),
        Node::RecordIndex { name, .. } => Some(*name),
        Node::FunLocal { name, .. } => Some(*name),
        Node::NamedFun { name, .. } => Some(*name),
        _ => None,
    }
}

fn word_of(node: &Node) -> &'static str {
    match node {
        Node::Int(_) => "integer",
        Node::Char(_) => "character",
        Node::Str(_) => "string",
        Node::Atom(_) => "atom",
        Node::Var(_) => "variable",
        Node::Any => "wildcard",
        Node::List { tail: None, .. } => "list",
        Node::List { tail: Some(_), .. } => "list with tail",
        Node::Tuple(_) => "tuple",
        Node::Bin(_) => "binary",
        Node::Unary { op, .. } => unary_word(*op),
        Node::Binary { op, .. } => binary_word(*op),
        Node::AndAlso { .. } => "andalso",
        Node::OrElse { .. } => "orelse",
        Node::Match { .. } => "match",
        Node::Catch(_) => "catch",
        Node::Call { .. } => "call",
        Node::Remote { .. } => "remote call",
        _ => construct_word(node),
    }
}

fn construct_word(node: &Node) -> &'static str {
    match node {
        Node::RecordNew { .. } => "record",
        Node::RecordUpdate { .. } => "record update",
        Node::RecordField { .. } => "record field",
        Node::RecordIndex { .. } => "record index",
        Node::Block(_) => "begin",
        Node::If(_) => "if",
        Node::Case { .. } => "case",
        Node::Receive { timeout: None, .. } => "receive",
        Node::Receive {
            timeout: Some(_),
            ..
        } => "receive with timeout",
        Node::Try { .. } => "try",
        Node::Maybe { .. } => "maybe",
        Node::ListComp { .. } => "list comprehension",
        Node::BinComp { .. } => "binary comprehension",
        Node::FunLocal { .. } => "local fun",
        Node::FunRemote { .. } => "remote fun",
        Node::Fun(_) => "fun",
        Node::NamedFun { .. } => "named fun",
        _ => "other",
    }
}

fn unary_word(op: UnaryOp) -> &'static str {
    match op {
        UnaryOp::Plus => "plus",
        UnaryOp::Minus => "minus",
        UnaryOp::Bnot => "bnot",
        UnaryOp::Not => "not",
    }
}

fn binary_word(op: BinaryOp) -> &'static str {
    match op {
        BinaryOp::Add => "+",
        BinaryOp::Sub => "-",
        BinaryOp::Mul => "*",
        BinaryOp::Slash => "/",
        BinaryOp::Div => "div",
        BinaryOp::Rem => "rem",
        BinaryOp::Band => "band",
        BinaryOp::Bor => "bor",
        BinaryOp::Bxor => "bxor",
        BinaryOp::Bsl => "bsl",
        BinaryOp::Bsr => "bsr",
        BinaryOp::And => "and",
        BinaryOp::Or => "or",
        BinaryOp::Xor => "xor",
        BinaryOp::Equal => "==",
        BinaryOp::NotEqual => "/=",
        BinaryOp::Less => "<",
        BinaryOp::AtMost => "=<",
        BinaryOp::Greater => ">",
        BinaryOp::AtLeast => ">=",
        BinaryOp::Same => "=:=",
        BinaryOp::NotSame => "=/=",
        BinaryOp::Append => "++",
        BinaryOp::Subtract => "--",
        BinaryOp::Send => "!",
    }
}
