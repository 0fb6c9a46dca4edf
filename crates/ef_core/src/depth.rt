// How deep a tree is.
ghost use Rattle.std.specs.Prelude.{◌≡◌, ◌+◌, ◌-◌, ◌^◌, max, min};
ghost use Rattle.ef_core.specs.Depth.{all_depth, clauses_depth, defs_depth, depth, lit_depth, lits_depth, pat_depth, pat_segments_depth, pats_depth, segments_depth, steps_depth};
ghost use Rattle.ef_core.specs.Plain.{plain, plain_all, plain_clauses, plain_defs, plain_lit, plain_lits, plain_pat, plain_pat_segments, plain_pats, plain_segments, plain_steps};

use crate::{
    CoreClause, CoreDef, CoreExpr, CoreLit, CorePat, CorePatSegment, CoreSegment, LetStep,
};

/// The greatest number of expressions, patterns and literals that stand one in another; at most 2^32 - 1.
#[cycle(depth)]
#[tactic(auto, using(crate::specs::Laws::plain_laws))]
pub fn core_depth(expr: &CoreExpr) -> u32
    ensures { result ≡ min (depth (plain expr.now)) (2 ^ 32 - 1) }
{
    match expr {
        CoreExpr::Var(_) | CoreExpr::FunName(_) => 1,
        CoreExpr::Lit(literal) => depth_of_literal(literal),
        CoreExpr::Fun { body, .. } => above(core_depth(body), 0),
        CoreExpr::ValueList(exprs) | CoreExpr::Tuple(exprs) => above(depth_of_all(exprs), 0),
        CoreExpr::List { items, tail: None } => above(depth_of_all(items), 0),
        CoreExpr::List {
            items,
            tail: Some(tail),
        } => above(depth_of_all(items), core_depth(tail)),
        CoreExpr::Bin(segments) => above(depth_of_segments(segments), 0),
        CoreExpr::Lets { steps, body } => above(depth_of_steps(steps), core_depth(body)),
        CoreExpr::Letrec { defs, body } => above(depth_of_defs(defs), core_depth(body)),
        CoreExpr::Case { arg, clauses } => above(core_depth(arg), depth_of_clauses(clauses)),
        CoreExpr::Apply { target, args } => above(core_depth(target), depth_of_all(args)),
        CoreExpr::Call {
            module,
            function,
            args,
        } => above(
            core_depth(module),
            core_depth(function).max(depth_of_all(args)),
        ),
        CoreExpr::Primop { args, .. } => above(depth_of_all(args), 0),
        CoreExpr::Do { first, second } => above(core_depth(first), core_depth(second)),
        CoreExpr::Receive {
            clauses,
            timeout,
            body,
        } => above(
            depth_of_clauses(clauses),
            core_depth(timeout).max(core_depth(body)),
        ),
        CoreExpr::Try {
            arg,
            body,
            handler,
            ..
        } => above(core_depth(arg), core_depth(body).max(core_depth(handler))),
    }
}

// One level above the greater of the two.
fn above(some: u32, others: u32) -> u32
    ensures { result ≡ min (max some others + 1) (2 ^ 32 - 1) }
{
    some.max(others).saturating_add(1)
}

// The depth of a literal.
#[cycle(literal_depth)]
#[tactic(auto, using(crate::specs::Laws::plain_laws))]
fn depth_of_literal(literal: &CoreLit) -> u32
    ensures { result ≡ min (lit_depth (plain_lit literal.now)) (2 ^ 32 - 1) }
{
    match literal {
        CoreLit::Int(_) | CoreLit::Atom(_) => 1,
        CoreLit::List { items, tail } => match tail {
            None => above(depth_of_literals(items), 0),
            Some(tail) => above(depth_of_literals(items), depth_of_literal(tail)),
        },
        CoreLit::Tuple(items) => above(depth_of_literals(items), 0),
    }
}

// The greatest depth of these, and so below.
#[cycle(literal_depth)]
fn depth_of_literals(literals: &[CoreLit]) -> u32
    ensures { result ≡ min (lits_depth (plain_lits literals.now)) (2 ^ 32 - 1) }
{
    let mut so_far = 0;
    for literal in literals {
        so_far = so_far.max(depth_of_literal(literal));
    }
    so_far
}

#[cycle(depth)]
fn depth_of_all(exprs: &[CoreExpr]) -> u32
    ensures { result ≡ min (all_depth (plain_all exprs.now)) (2 ^ 32 - 1) }
{
    let mut so_far = 0;
    for expr in exprs {
        so_far = so_far.max(core_depth(expr));
    }
    so_far
}

#[cycle(depth)]
fn depth_of_segments(segments: &[CoreSegment]) -> u32
    ensures { result ≡ min (segments_depth (plain_segments segments.now)) (2 ^ 32 - 1) }
{
    let mut so_far = 0;
    for segment in segments {
        let parts = core_depth(&segment.value).max(core_depth(&segment.size));
        so_far = so_far.max(parts.max(depth_of_literal(&segment.flags)));
    }
    so_far
}

#[cycle(depth)]
fn depth_of_steps(steps: &[LetStep]) -> u32
    ensures { result ≡ min (steps_depth (plain_steps steps.now)) (2 ^ 32 - 1) }
{
    let mut so_far = 0;
    for step in steps {
        so_far = so_far.max(core_depth(&step.value));
    }
    so_far
}

#[cycle(depth)]
fn depth_of_defs(defs: &[CoreDef]) -> u32
    ensures { result ≡ min (defs_depth (plain_defs defs.now)) (2 ^ 32 - 1) }
{
    let mut so_far = 0;
    for def in defs {
        so_far = so_far.max(core_depth(&def.body));
    }
    so_far
}

#[cycle(depth)]
fn depth_of_clauses(clauses: &[CoreClause]) -> u32
    ensures { result ≡ min (clauses_depth (plain_clauses clauses.now)) (2 ^ 32 - 1) }
{
    let mut so_far = 0;
    for clause in clauses {
        let parts = core_depth(&clause.guard).max(core_depth(&clause.body));
        so_far = so_far.max(parts.max(depth_of_patterns(&clause.pats)));
    }
    so_far
}

// The depth of a pattern.
#[cycle(depth)]
#[tactic(auto, using(crate::specs::Laws::plain_laws))]
fn depth_of_pattern(pat: &CorePat) -> u32
    ensures { result ≡ min (pat_depth (plain_pat pat.now)) (2 ^ 32 - 1) }
{
    match pat {
        CorePat::Var(_) => 1,
        CorePat::Lit(literal) => depth_of_literal(literal),
        CorePat::Tuple(pats) => above(depth_of_patterns(pats), 0),
        CorePat::List { items, tail } => match tail {
            None => above(depth_of_patterns(items), 0),
            Some(tail) => above(depth_of_patterns(items), depth_of_pattern(tail)),
        },
        CorePat::Alias { pat, .. } => above(depth_of_pattern(pat), 0),
        CorePat::Bin(segments) => above(depth_of_pattern_segments(segments), 0),
    }
}

#[cycle(depth)]
fn depth_of_patterns(pats: &[CorePat]) -> u32
    ensures { result ≡ min (pats_depth (plain_pats pats.now)) (2 ^ 32 - 1) }
{
    let mut so_far = 0;
    for pat in pats {
        so_far = so_far.max(depth_of_pattern(pat));
    }
    so_far
}

#[cycle(depth)]
fn depth_of_pattern_segments(segments: &[CorePatSegment]) -> u32
    ensures { result ≡ min (pat_segments_depth (plain_pat_segments segments.now)) (2 ^ 32 - 1) }
{
    let mut so_far = 0;
    for segment in segments {
        let parts = depth_of_pattern(&segment.value).max(core_depth(&segment.size));
        so_far = so_far.max(parts.max(depth_of_literal(&segment.flags)));
    }
    so_far
}
