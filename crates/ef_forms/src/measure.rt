// How deep and how heavy trees are.
ghost use Rattle.std.specs.Prelude.{◌≡◌, ◌+◌, ◌-◌, ◌^◌, ◌∷◌, [], min};
ghost use Rattle.std.specs.List.{fold};
ghost use Rattle.ef_forms.specs.Depth as d;
ghost use Rattle.ef_forms.specs.Extents as m;
ghost use Rattle.ef_forms.specs.Nodes as n;
ghost use Rattle.ef_forms.specs.Plain.{plain, plain_all, plain_catches, plain_clauses, plain_fields, plain_qualifiers, plain_segments, plain_steps};
ghost use Rattle.ef_forms.specs.Roles as r;
ghost use Rattle.ef_forms.specs.Weight as w;

use crate::{
    CatchClause, Clause, Expr, FieldSet, MaybeStep, Node, Qualifier, RecordDef, Role, Segment,
};

// One more than the greatest weight of a function.
const OVER: u64 = (1 << 22) + 1;

// The greatest level of some nodes, and how many they are, at most `OVER`.
#[derive(Clone, Copy)]
struct Extent {
    depth: u32,
    weight: u64,
}

impl Extent {
    // With one more node.
    fn with_level(self, level: u32) -> Extent
        ensures { result ≡ m.with_level self level }
    {
        Extent {
            depth: self.depth.max(level),
            weight: self.weight.saturating_add(1).min(OVER),
        }
    }
}

/// The greatest nesting of the tree, at most 2^32 - 1: one for a node without parts, else one more than the greatest of
/// its parts.
#[tactic(auto, using(crate::proofs::Extents::depth_of))]
pub fn depth(expr: &Expr) -> u32
    ensures { result ≡ min (d.depth (plain expr.now)) (2 ^ 32 - 1) }
{
    let none = Extent {
        depth: 0,
        weight: 0,
    };
    measure(Role::Body, 1, expr, none).depth
}

/// The number of nodes of the tree, or 2^22 + 1 where it is greater.
#[tactic(auto, using(crate::proofs::Extents::weight_of))]
pub fn weight(expr: &Expr, _records: &[RecordDef]) -> u64
    ensures { result ≡ min (w.weight (plain expr.now)) (2 ^ 22 + 1) }
{
    let none = Extent {
        depth: 0,
        weight: 0,
    };
    measure(Role::Body, 1, expr, none).weight
}

// The extent with the nodes of the tree.
#[cycle(measure)]
#[tactic(auto, using(crate::proofs::Extents::laws))]
fn measure(role: Role, level: u32, expr: &Expr, before: Extent) -> Extent
    ensures { result ≡ fold m.with_node before (n.nodes role level (plain expr.now)) }
{
    let so_far = before.with_level(level);
    let role = role.inside();
    let level = level.saturating_add(1);
    match &expr.node {
        Node::Int(_) | Node::Char(_) | Node::Str(_) | Node::Atom(_) | Node::Var(_) | Node::Any =>
            so_far,
        Node::List { items, tail: None } => measure_all(role, level, items, so_far),
        Node::List {
            items,
            tail: Some(tail),
        } => {
            let so_far = measure_all(role, level, items, so_far);
            measure(role, level, tail, so_far)
        }
        Node::Tuple(items) => measure_all(role, level, items, so_far),
        Node::Bin(segments) => measure_segments(role, level, segments, so_far),
        Node::Unary { op: _, arg } => measure(role, level, arg, so_far),
        Node::Binary { op: _, left, right } => {
            let so_far = measure(role, level, left, so_far);
            measure(role, level, right, so_far)
        }
        Node::AndAlso { left, right } => {
            let so_far = measure(role, level, left, so_far);
            measure(role, level, right, so_far)
        }
        Node::OrElse { left, right } => {
            let so_far = measure(role, level, left, so_far);
            measure(role, level, right, so_far)
        }
        Node::Match { left, right } => {
            let so_far = measure(Role::Pattern, level, left, so_far);
            measure(role, level, right, so_far)
        }
        Node::Catch(body) => measure(role, level, body, so_far),
        Node::Call { target, args } => {
            let so_far = measure_target(role, level, target, so_far);
            measure_all(role, level, args, so_far)
        }
        Node::Remote {
            module,
            function,
            args,
        } => {
            let so_far = measure_target(role, level, module, so_far);
            let so_far = measure_target(role, level, function, so_far);
            measure_all(role, level, args, so_far)
        }
        Node::RecordNew { name: _, fields } => measure_fields(role, level, fields, so_far),
        Node::RecordUpdate {
            target,
            name: _,
            fields,
        } => {
            let so_far = measure(role, level, target, so_far);
            measure_fields(role, level, fields, so_far)
        }
        Node::RecordField { target, .. } => measure(role, level, target, so_far),
        Node::RecordIndex { .. } => so_far,
        Node::Block(body) => measure_all(Role::Body, level, body, so_far),
        Node::If(clauses) => measure_clauses(level, clauses, so_far),
        Node::Case { arg, clauses } => {
            let so_far = measure(role, level, arg, so_far);
            measure_clauses(level, clauses, so_far)
        }
        Node::Receive {
            clauses,
            timeout: None,
        } => measure_clauses(level, clauses, so_far),
        Node::Receive {
            clauses,
            timeout: Some(timeout),
        } => {
            let so_far = measure_clauses(level, clauses, so_far);
            let so_far = measure(role, level, &timeout.0, so_far);
            measure_all(Role::Body, level, &timeout.1, so_far)
        }
        Node::Try {
            body,
            of_clauses: None,
            catches,
            after_body: None,
        } => {
            let so_far = measure_all(Role::Body, level, body, so_far);
            measure_catches(level, catches, so_far)
        }
        Node::Try {
            body,
            of_clauses: None,
            catches,
            after_body: Some(after),
        } => {
            let so_far = measure_all(Role::Body, level, body, so_far);
            let so_far = measure_catches(level, catches, so_far);
            measure_all(Role::Body, level, after, so_far)
        }
        Node::Try {
            body,
            of_clauses: Some(clauses),
            catches,
            after_body: None,
        } => {
            let so_far = measure_all(Role::Body, level, body, so_far);
            let so_far = measure_clauses(level, clauses, so_far);
            measure_catches(level, catches, so_far)
        }
        Node::Try {
            body,
            of_clauses: Some(clauses),
            catches,
            after_body: Some(after),
        } => {
            let so_far = measure_all(Role::Body, level, body, so_far);
            let so_far = measure_clauses(level, clauses, so_far);
            let so_far = measure_catches(level, catches, so_far);
            measure_all(Role::Body, level, after, so_far)
        }
        Node::Maybe {
            steps,
            else_clauses: None,
        } => measure_steps(level, steps, so_far),
        Node::Maybe {
            steps,
            else_clauses: Some(clauses),
        } => {
            let so_far = measure_steps(level, steps, so_far);
            measure_clauses(level, clauses, so_far)
        }
        Node::ListComp { head, qualifiers } => {
            let (inner, so_far) = measure_qualifiers(level, qualifiers, so_far);
            measure(Role::Body, inner, head, so_far)
        }
        Node::BinComp { head, qualifiers } => {
            let (inner, so_far) = measure_qualifiers(level, qualifiers, so_far);
            measure(Role::Body, inner, head, so_far)
        }
        Node::FunLocal { .. } => so_far,
        Node::FunRemote {
            module,
            function,
            arity,
        } => {
            let so_far = measure(Role::Target, level, module, so_far);
            let so_far = measure(Role::Target, level, function, so_far);
            measure(Role::Target, level, arity, so_far)
        }
        Node::Fun(clauses) => measure_clauses(level, clauses, so_far),
        Node::NamedFun { name: _, clauses } => measure_clauses(level, clauses, so_far),
    }
}

// What is called: an atom is a name.
#[cycle(measure)]
#[tactic(auto, using(crate::proofs::Extents::laws))]
fn measure_target(role: Role, level: u32, target: &Expr, before: Extent) -> Extent
    ensures { result ≡ fold m.with_node before (n.nodes (r.of_target role (plain target.now)) level (plain target.now)) }
{
    match &target.node {
        Node::Atom(_) => measure(Role::Target, level, target, before),
        _ => measure(role, level, target, before),
    }
}

#[cycle(measure)]
fn measure_all(role: Role, level: u32, exprs: &[Expr], before: Extent) -> Extent
    ensures { result ≡ fold m.with_node before (n.all_nodes role level (plain_all exprs.now)) }
{
    let mut so_far = before;
    for expr in exprs {
        so_far = measure(role, level, expr, so_far);
    }
    so_far
}

#[cycle(measure)]
fn measure_clauses(level: u32, clauses: &[Clause], before: Extent) -> Extent
    ensures { result ≡ fold m.with_node before (n.clause_nodes level (plain_clauses clauses.now)) }
{
    let mut so_far = before;
    for clause in clauses {
        so_far = measure_clause(level, clause, so_far);
    }
    so_far
}

#[cycle(measure)]
fn measure_clause(level: u32, clause: &Clause, before: Extent) -> Extent
    ensures { result ≡ fold m.with_node before (n.clause_nodes level (plain_clauses (clause.now ∷ []))) }
{
    let mut so_far = measure_all(Role::Pattern, level, &clause.patterns, before);
    for tests in &clause.guard {
        so_far = measure_all(Role::Guard, level, tests, so_far);
    }
    measure_all(Role::Body, level, &clause.body, so_far)
}

#[cycle(measure)]
fn measure_catches(level: u32, catches: &[CatchClause], before: Extent) -> Extent
    ensures { result ≡ fold m.with_node before (n.catch_nodes level (plain_catches catches.now)) }
{
    let mut so_far = before;
    for catch in catches {
        so_far = measure_catch(level, catch, so_far);
    }
    so_far
}

#[cycle(measure)]
#[tactic(auto, using(crate::proofs::Extents::laws))]
fn measure_catch(level: u32, catch: &CatchClause, before: Extent) -> Extent
    ensures { result ≡ fold m.with_node before (n.catch_nodes level (plain_catches (catch.now ∷ []))) }
{
    let mut so_far = measure(Role::Pattern, level, &catch.pattern, before);
    for tests in &catch.guard {
        so_far = measure_all(Role::Guard, level, tests, so_far);
    }
    measure_all(Role::Body, level, &catch.body, so_far)
}

#[cycle(measure)]
#[tactic(auto, using(crate::proofs::Extents::laws))]
fn measure_segments(role: Role, level: u32, segments: &[Segment], before: Extent) -> Extent
    ensures { result ≡ fold m.with_node before (n.segment_nodes role level (plain_segments segments.now)) }
{
    let mut so_far = before;
    for segment in segments {
        so_far = measure(role, level, &segment.value, so_far);
        if let Some(size) = &segment.size {
            so_far = measure(role.of_size(), level, size, so_far);
        }
    }
    so_far
}

#[cycle(measure)]
#[tactic(auto, using(crate::proofs::Extents::laws))]
fn measure_fields(role: Role, level: u32, fields: &[FieldSet], before: Extent) -> Extent
    ensures { result ≡ fold m.with_node before (n.field_nodes role level (plain_fields fields.now)) }
{
    let mut so_far = before;
    for field in fields {
        so_far = measure(role, level, &field.value, so_far);
    }
    so_far
}

#[cycle(measure)]
#[tactic(auto, using(crate::proofs::Extents::laws))]
fn measure_steps(level: u32, steps: &[MaybeStep], before: Extent) -> Extent
    ensures { result ≡ fold m.with_node before (n.step_nodes level (plain_steps steps.now)) }
{
    let mut level = level;
    let mut so_far = before;
    for step in steps {
        let Some(pattern) = &step.pattern else {
            so_far = measure(Role::Body, level, &step.value, so_far);
            continue;
        };
        so_far = measure(Role::Pattern, level, pattern, so_far);
        so_far = measure(Role::Body, level, &step.value, so_far);
        level = level.saturating_add(1);
    }
    so_far
}

// The level behind the qualifiers, and the extent with their nodes.
#[cycle(measure)]
#[tactic(auto, using(crate::proofs::Extents::laws))]
fn measure_qualifiers(level: u32, qualifiers: &[Qualifier], before: Extent) -> (u32, Extent)
    ensures seen { result.1 ≡ fold m.with_node before (n.qualifier_nodes level (plain_qualifiers qualifiers.now)) }
    ensures behind { result.0 ≡ n.behind level (plain_qualifiers qualifiers.now) }
{
    let mut inner = level;
    let mut so_far = before;
    for qualifier in qualifiers {
        match qualifier {
            Qualifier::ListFrom {
                pattern,
                source,
                ..
            } => {
                so_far = measure(Role::Pattern, inner, pattern, so_far);
                so_far = measure(Role::Body, inner, source, so_far);
            }
            Qualifier::BitsFrom {
                pattern,
                source,
                ..
            } => {
                so_far = measure(Role::Pattern, inner, pattern, so_far);
                so_far = measure(Role::Body, inner, source, so_far);
            }
            Qualifier::Filter(test) => so_far = measure(Role::Filter, inner, test, so_far),
        }
        inner = inner.saturating_add(1);
    }
    (inner, so_far)
}
