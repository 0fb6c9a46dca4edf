// The nodes of trees, in one list.
ghost use Rattle.std.specs.Prelude.{◌≡◌, ◌++◌, ◌∷◌, [], IfOk, OnOk};
ghost use Rattle.ef_forms.specs.Nodes as n;
ghost use Rattle.ef_forms.specs.Plain.{plain, plain_all, plain_catches, plain_clauses, plain_fields, plain_form, plain_function, plain_qualifiers, plain_record, plain_segments, plain_steps};
ghost use Rattle.ef_forms.specs.Roles as r;
ghost use Rattle.ef_forms.specs.Shown.{shown};

use crate::{
    CatchClause, Clause, Expr, FieldSet, Form, Function, MaybeStep, Node, Qualifier, RecordDef,
    Role, Segment,
};
use ef_base::NoMemory;

/// A node of a tree, with what it is there for.
#[derive(Clone, Copy)]
pub struct Seen<'a> {
    pub role: Role,
    /// How deep it lies, from 1. Clauses, segments, fields, steps and qualifiers are no level of their own, but what
    /// follows a `?=` step or a qualifier lies one deeper, and so does the head of a comprehension.
    pub level: u32,
    pub expr: &'a Expr,
}

/// Adds the nodes of the form, each before its parts: those of a function, of an attribute's term, or of the values that
/// the fields of a record take where none is given.
pub fn form_nodes<'a>(form: &'a Form, into: &mut Vec<Seen<'a>>) -> Result<(), NoMemory>
    ensures { OnOk result (shown into.new.items ≡ shown into.old.items ++ n.form_nodes (plain_form form.now)) }
{
    match form {
        Form::FunctionOf(function) => function_nodes(function, into),
        Form::Attribute { name: _, term } => nodes(Role::Body, 1, term, into),
        Form::RecordOf(definition) => record_nodes(definition, into),
        Form::ModuleName(_)
        | Form::Export(_)
        | Form::Import { .. }
        | Form::Dropped
        | Form::ExportAll => Ok(()),
    }
}

/// Adds the nodes of the function, each before its parts.
pub fn function_nodes<'a>(function: &'a Function, into: &mut Vec<Seen<'a>>) -> Result<(), NoMemory>
    ensures { OnOk result (shown into.new.items ≡ shown into.old.items ++ n.function_nodes (plain_function function.now)) }
{
    clause_nodes(1, &function.clauses, into)
}

/// Adds the nodes of the values that the fields take where none is given.
pub fn record_nodes<'a>(definition: &'a RecordDef, into: &mut Vec<Seen<'a>>) -> Result<(), NoMemory>
    ensures { OnOk result (shown into.new.items ≡ shown into.old.items ++ n.record_nodes (plain_record definition.now)) }
{
    for field in &definition.fields {
        if let Some(default) = &field.default {
            nodes(Role::Body, 1, default, into)?;
        }
    }
    Ok(())
}

/// Adds the nodes of the tree, each before its parts.
#[cycle(walk)]
#[tactic(auto, using(crate::proofs::Opened::laws))]
pub fn nodes<'a>(
    role: Role,
    level: u32,
    expr: &'a Expr,
    into: &mut Vec<Seen<'a>>,
) -> Result<(), NoMemory>
    ensures { OnOk result (shown into.new.items ≡ shown into.old.items ++ n.nodes role level (plain expr.now)) }
{
    into.push(Seen { role, level, expr })?;
    let role = role.inside();
    let level = level.saturating_add(1);
    match &expr.node {
        Node::Int(_) | Node::Char(_) | Node::Str(_) | Node::Atom(_) | Node::Var(_) | Node::Any =>
            Ok(()),
        Node::List { items, tail: None } => all_nodes(role, level, items, into),
        Node::List {
            items,
            tail: Some(tail),
        } => {
            all_nodes(role, level, items, into)?;
            nodes(role, level, tail, into)
        }
        Node::Tuple(items) => all_nodes(role, level, items, into),
        Node::Bin(segments) => segment_nodes(role, level, segments, into),
        Node::Unary { op: _, arg } => nodes(role, level, arg, into),
        Node::Binary { op: _, left, right } => {
            nodes(role, level, left, into)?;
            nodes(role, level, right, into)
        }
        Node::AndAlso { left, right } => {
            nodes(role, level, left, into)?;
            nodes(role, level, right, into)
        }
        Node::OrElse { left, right } => {
            nodes(role, level, left, into)?;
            nodes(role, level, right, into)
        }
        Node::Match { left, right } => {
            nodes(Role::Pattern, level, left, into)?;
            nodes(role, level, right, into)
        }
        Node::Catch(body) => nodes(role, level, body, into),
        Node::Call { target, args } => {
            target_nodes(role, level, target, into)?;
            all_nodes(role, level, args, into)
        }
        Node::Remote {
            module,
            function,
            args,
        } => {
            target_nodes(role, level, module, into)?;
            target_nodes(role, level, function, into)?;
            all_nodes(role, level, args, into)
        }
        Node::RecordNew { name: _, fields } => field_nodes(role, level, fields, into),
        Node::RecordUpdate {
            target,
            name: _,
            fields,
        } => {
            nodes(role, level, target, into)?;
            field_nodes(role, level, fields, into)
        }
        Node::RecordField { target, .. } => nodes(role, level, target, into),
        Node::RecordIndex { .. } => Ok(()),
        Node::Block(body) => all_nodes(Role::Body, level, body, into),
        Node::If(clauses) => clause_nodes(level, clauses, into),
        Node::Case { arg, clauses } => {
            nodes(role, level, arg, into)?;
            clause_nodes(level, clauses, into)
        }
        Node::Receive {
            clauses,
            timeout: None,
        } => clause_nodes(level, clauses, into),
        Node::Receive {
            clauses,
            timeout: Some(timeout),
        } => {
            clause_nodes(level, clauses, into)?;
            nodes(role, level, &timeout.0, into)?;
            all_nodes(Role::Body, level, &timeout.1, into)
        }
        Node::Try {
            body,
            of_clauses: None,
            catches,
            after_body: None,
        } => {
            all_nodes(Role::Body, level, body, into)?;
            catch_nodes(level, catches, into)
        }
        Node::Try {
            body,
            of_clauses: None,
            catches,
            after_body: Some(after),
        } => {
            all_nodes(Role::Body, level, body, into)?;
            catch_nodes(level, catches, into)?;
            all_nodes(Role::Body, level, after, into)
        }
        Node::Try {
            body,
            of_clauses: Some(clauses),
            catches,
            after_body: None,
        } => {
            all_nodes(Role::Body, level, body, into)?;
            clause_nodes(level, clauses, into)?;
            catch_nodes(level, catches, into)
        }
        Node::Try {
            body,
            of_clauses: Some(clauses),
            catches,
            after_body: Some(after),
        } => {
            all_nodes(Role::Body, level, body, into)?;
            clause_nodes(level, clauses, into)?;
            catch_nodes(level, catches, into)?;
            all_nodes(Role::Body, level, after, into)
        }
        Node::Maybe {
            steps,
            else_clauses: None,
        } => step_nodes(level, steps, into),
        Node::Maybe {
            steps,
            else_clauses: Some(clauses),
        } => {
            step_nodes(level, steps, into)?;
            clause_nodes(level, clauses, into)
        }
        Node::ListComp { head, qualifiers } => {
            let inner = qualifier_nodes(level, qualifiers, into)?;
            nodes(Role::Body, inner, head, into)
        }
        Node::BinComp { head, qualifiers } => {
            let inner = qualifier_nodes(level, qualifiers, into)?;
            nodes(Role::Body, inner, head, into)
        }
        Node::FunLocal { .. } => Ok(()),
        Node::FunRemote {
            module,
            function,
            arity,
        } => {
            nodes(Role::Target, level, module, into)?;
            nodes(Role::Target, level, function, into)?;
            nodes(Role::Target, level, arity, into)
        }
        Node::Fun(clauses) => clause_nodes(level, clauses, into),
        Node::NamedFun { name: _, clauses } => clause_nodes(level, clauses, into),
    }
}

// What is called: an atom is a name.
#[cycle(walk)]
#[tactic(auto, using(crate::proofs::Opened::laws))]
fn target_nodes<'a>(
    role: Role,
    level: u32,
    target: &'a Expr,
    into: &mut Vec<Seen<'a>>,
) -> Result<(), NoMemory>
    ensures { OnOk result (shown into.new.items ≡ shown into.old.items ++ n.nodes (r.of_target role (plain target.now)) level (plain target.now)) }
{
    match &target.node {
        Node::Atom(_) => nodes(Role::Target, level, target, into),
        _ => nodes(role, level, target, into),
    }
}

#[cycle(walk)]
fn all_nodes<'a>(
    role: Role,
    level: u32,
    exprs: &'a [Expr],
    into: &mut Vec<Seen<'a>>,
) -> Result<(), NoMemory>
    ensures { OnOk result (shown into.new.items ≡ shown into.old.items ++ n.all_nodes role level (plain_all exprs.now)) }
{
    for expr in exprs {
        nodes(role, level, expr, into)?;
    }
    Ok(())
}

#[cycle(walk)]
fn clause_nodes<'a>(
    level: u32,
    clauses: &'a [Clause],
    into: &mut Vec<Seen<'a>>,
) -> Result<(), NoMemory>
    ensures { OnOk result (shown into.new.items ≡ shown into.old.items ++ n.clause_nodes level (plain_clauses clauses.now)) }
{
    for clause in clauses {
        one_clause_nodes(level, clause, into)?;
    }
    Ok(())
}

#[cycle(walk)]
fn one_clause_nodes<'a>(
    level: u32,
    clause: &'a Clause,
    into: &mut Vec<Seen<'a>>,
) -> Result<(), NoMemory>
    ensures { OnOk result (shown into.new.items ≡ shown into.old.items ++ n.clause_nodes level (plain_clauses (clause.now ∷ []))) }
{
    all_nodes(Role::Pattern, level, &clause.patterns, into)?;
    for tests in &clause.guard {
        all_nodes(Role::Guard, level, tests, into)?;
    }
    all_nodes(Role::Body, level, &clause.body, into)
}

#[cycle(walk)]
fn catch_nodes<'a>(
    level: u32,
    catches: &'a [CatchClause],
    into: &mut Vec<Seen<'a>>,
) -> Result<(), NoMemory>
    ensures { OnOk result (shown into.new.items ≡ shown into.old.items ++ n.catch_nodes level (plain_catches catches.now)) }
{
    for catch in catches {
        one_catch_nodes(level, catch, into)?;
    }
    Ok(())
}

#[cycle(walk)]
#[tactic(auto, using(crate::proofs::Opened::laws))]
fn one_catch_nodes<'a>(
    level: u32,
    catch: &'a CatchClause,
    into: &mut Vec<Seen<'a>>,
) -> Result<(), NoMemory>
    ensures { OnOk result (shown into.new.items ≡ shown into.old.items ++ n.catch_nodes level (plain_catches (catch.now ∷ []))) }
{
    nodes(Role::Pattern, level, &catch.pattern, into)?;
    for tests in &catch.guard {
        all_nodes(Role::Guard, level, tests, into)?;
    }
    all_nodes(Role::Body, level, &catch.body, into)
}

#[cycle(walk)]
#[tactic(auto, using(crate::proofs::Opened::laws))]
fn segment_nodes<'a>(
    role: Role,
    level: u32,
    segments: &'a [Segment],
    into: &mut Vec<Seen<'a>>,
) -> Result<(), NoMemory>
    ensures { OnOk result (shown into.new.items ≡ shown into.old.items ++ n.segment_nodes role level (plain_segments segments.now)) }
{
    for segment in segments {
        nodes(role, level, &segment.value, into)?;
        if let Some(size) = &segment.size {
            nodes(role.of_size(), level, size, into)?;
        }
    }
    Ok(())
}

#[cycle(walk)]
#[tactic(auto, using(crate::proofs::Opened::laws))]
fn field_nodes<'a>(
    role: Role,
    level: u32,
    fields: &'a [FieldSet],
    into: &mut Vec<Seen<'a>>,
) -> Result<(), NoMemory>
    ensures { OnOk result (shown into.new.items ≡ shown into.old.items ++ n.field_nodes role level (plain_fields fields.now)) }
{
    for field in fields {
        nodes(role, level, &field.value, into)?;
    }
    Ok(())
}

#[cycle(walk)]
#[tactic(auto, using(crate::proofs::Opened::laws))]
fn step_nodes<'a>(
    level: u32,
    steps: &'a [MaybeStep],
    into: &mut Vec<Seen<'a>>,
) -> Result<(), NoMemory>
    ensures { OnOk result (shown into.new.items ≡ shown into.old.items ++ n.step_nodes level (plain_steps steps.now)) }
{
    let mut level = level;
    for step in steps {
        let Some(pattern) = &step.pattern else {
            nodes(Role::Body, level, &step.value, into)?;
            continue;
        };
        nodes(Role::Pattern, level, pattern, into)?;
        nodes(Role::Body, level, &step.value, into)?;
        level = level.saturating_add(1);
    }
    Ok(())
}

// Adds the nodes of the qualifiers; gives the level behind them.
#[cycle(walk)]
#[tactic(auto, using(crate::proofs::Opened::laws))]
fn qualifier_nodes<'a>(
    level: u32,
    qualifiers: &'a [Qualifier],
    into: &mut Vec<Seen<'a>>,
) -> Result<u32, NoMemory>
    ensures seen { OnOk result (shown into.new.items ≡ shown into.old.items ++ n.qualifier_nodes level (plain_qualifiers qualifiers.now)) }
    ensures behind { IfOk result (λ inner. inner ≡ n.behind level (plain_qualifiers qualifiers.now)) }
{
    let mut inner = level;
    for qualifier in qualifiers {
        match qualifier {
            Qualifier::ListFrom {
                pattern,
                source,
                ..
            } => {
                nodes(Role::Pattern, inner, pattern, into)?;
                nodes(Role::Body, inner, source, into)?;
            }
            Qualifier::BitsFrom {
                pattern,
                source,
                ..
            } => {
                nodes(Role::Pattern, inner, pattern, into)?;
                nodes(Role::Body, inner, source, into)?;
            }
            Qualifier::Filter(test) => nodes(Role::Filter, inner, test, into)?,
        }
        inner = inner.saturating_add(1);
    }
    Ok(inner)
}
