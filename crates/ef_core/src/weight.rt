// How many parts a tree has.
ghost use Rattle.std.specs.Prelude.{◌≡◌, ◌+◌, ◌-◌, ◌^◌, min, length};
ghost use Rattle.ef_core.specs.Plain.{plain, plain_all, plain_clauses, plain_defs, plain_lit, plain_lits, plain_pat, plain_pat_segments, plain_pats, plain_segments, plain_steps};
ghost use Rattle.ef_core.specs.Weight.{all_weight, clauses_weight, defs_weight, lit_weight, lits_weight, pat_segments_weight, pat_weight, pats_weight, segments_weight, steps_weight, weight};

use crate::{
    CoreClause, CoreDef, CoreExpr, CoreLit, CorePat, CorePatSegment, CoreSegment, CoreVar, LetStep,
};

/// The number of expressions, patterns, literals, and variables in lists; at most 2^64 - 1.
#[cycle(weight)]
#[tactic(auto, using(crate::specs::Laws::plain_laws))]
pub fn core_weight(expr: &CoreExpr) -> u64
    ensures { result ≡ min (weight (plain expr.now)) (2 ^ 64 - 1) }
{
    match expr {
        CoreExpr::Var(_) | CoreExpr::FunName(_) => 1,
        CoreExpr::Lit(literal) => weight_of_literal(literal),
        CoreExpr::Fun { params, body } => node(count(params), core_weight(body)),
        CoreExpr::ValueList(exprs) | CoreExpr::Tuple(exprs) => node(weight_of_all(exprs), 0),
        CoreExpr::List { items, tail: None } => node(weight_of_all(items), 0),
        CoreExpr::List {
            items,
            tail: Some(tail),
        } => node(weight_of_all(items), core_weight(tail)),
        CoreExpr::Bin(segments) => node(weight_of_segments(segments), 0),
        CoreExpr::Lets { steps, body } => node(weight_of_steps(steps), core_weight(body)),
        CoreExpr::Letrec { defs, body } => node(weight_of_defs(defs), core_weight(body)),
        CoreExpr::Case { arg, clauses } => node(core_weight(arg), weight_of_clauses(clauses)),
        CoreExpr::Apply { target, args } => node(core_weight(target), weight_of_all(args)),
        CoreExpr::Call {
            module,
            function,
            args,
        } => node(
            core_weight(module),
            sum(core_weight(function), weight_of_all(args)),
        ),
        CoreExpr::Primop { args, .. } => node(weight_of_all(args), 0),
        CoreExpr::Do { first, second } => node(core_weight(first), core_weight(second)),
        CoreExpr::Receive {
            clauses,
            timeout,
            body,
        } => node(
            weight_of_clauses(clauses),
            sum(core_weight(timeout), core_weight(body)),
        ),
        CoreExpr::Try {
            arg,
            vars,
            body,
            catch_vars,
            handler,
        } => {
            let taken = sum(count(vars), core_weight(body));
            let caught = sum(count(catch_vars), core_weight(handler));
            node(core_weight(arg), sum(taken, caught))
        }
    }
}

// Two numbers of parts together.
fn sum(some: u64, others: u64) -> u64
    ensures { result ≡ min (some + others) (2 ^ 64 - 1) }
{
    some.saturating_add(others)
}

// A node, with its parts.
fn node(some: u64, others: u64) -> u64
    ensures { result ≡ min (1 + (some + others)) (2 ^ 64 - 1) }
{
    some.saturating_add(others).saturating_add(1)
}

// The number of variables in a list.
fn count(vars: &[CoreVar]) -> u64
    ensures { result ≡ min (length vars.now) (2 ^ 64 - 1) }
{
    vars.len() as u64
}

// The weight of a literal.
#[cycle(literal_weight)]
#[tactic(auto, using(crate::specs::Laws::plain_laws))]
fn weight_of_literal(literal: &CoreLit) -> u64
    ensures { result ≡ min (lit_weight (plain_lit literal.now)) (2 ^ 64 - 1) }
{
    match literal {
        CoreLit::Int(_) | CoreLit::Atom(_) => 1,
        CoreLit::List { items, tail } => match tail {
            None => node(weight_of_literals(items), 0),
            Some(tail) => node(weight_of_literals(items), weight_of_literal(tail)),
        },
        CoreLit::Tuple(items) => node(weight_of_literals(items), 0),
    }
}

// The weights of these together, and so below.
#[cycle(literal_weight)]
fn weight_of_literals(literals: &[CoreLit]) -> u64
    ensures { result ≡ min (lits_weight (plain_lits literals.now)) (2 ^ 64 - 1) }
{
    let mut so_far = 0;
    for literal in literals {
        so_far = sum(so_far, weight_of_literal(literal));
    }
    so_far
}

#[cycle(weight)]
fn weight_of_all(exprs: &[CoreExpr]) -> u64
    ensures { result ≡ min (all_weight (plain_all exprs.now)) (2 ^ 64 - 1) }
{
    let mut so_far = 0;
    for expr in exprs {
        so_far = sum(so_far, core_weight(expr));
    }
    so_far
}

#[cycle(weight)]
fn weight_of_segments(segments: &[CoreSegment]) -> u64
    ensures { result ≡ min (segments_weight (plain_segments segments.now)) (2 ^ 64 - 1) }
{
    let mut so_far = 0;
    for segment in segments {
        let flags = weight_of_literal(&segment.flags);
        let own = sum(
            core_weight(&segment.value),
            sum(core_weight(&segment.size), flags),
        );
        so_far = sum(so_far, own);
    }
    so_far
}

#[cycle(weight)]
fn weight_of_steps(steps: &[LetStep]) -> u64
    ensures { result ≡ min (steps_weight (plain_steps steps.now)) (2 ^ 64 - 1) }
{
    let mut so_far = 0;
    for step in steps {
        so_far = sum(so_far, sum(count(&step.vars), core_weight(&step.value)));
    }
    so_far
}

#[cycle(weight)]
fn weight_of_defs(defs: &[CoreDef]) -> u64
    ensures { result ≡ min (defs_weight (plain_defs defs.now)) (2 ^ 64 - 1) }
{
    let mut so_far = 0;
    for def in defs {
        so_far = sum(so_far, sum(count(&def.params), core_weight(&def.body)));
    }
    so_far
}

#[cycle(weight)]
fn weight_of_clauses(clauses: &[CoreClause]) -> u64
    ensures { result ≡ min (clauses_weight (plain_clauses clauses.now)) (2 ^ 64 - 1) }
{
    let mut so_far = 0;
    for clause in clauses {
        let behind = sum(core_weight(&clause.guard), core_weight(&clause.body));
        so_far = sum(so_far, sum(weight_of_patterns(&clause.pats), behind));
    }
    so_far
}

// The weight of a pattern.
#[cycle(weight)]
#[tactic(auto, using(crate::specs::Laws::plain_laws))]
fn weight_of_pattern(pat: &CorePat) -> u64
    ensures { result ≡ min (pat_weight (plain_pat pat.now)) (2 ^ 64 - 1) }
{
    match pat {
        CorePat::Var(_) => 1,
        CorePat::Lit(literal) => weight_of_literal(literal),
        CorePat::Tuple(pats) => node(weight_of_patterns(pats), 0),
        CorePat::List { items, tail } => match tail {
            None => node(weight_of_patterns(items), 0),
            Some(tail) => node(weight_of_patterns(items), weight_of_pattern(tail)),
        },
        CorePat::Alias { pat, .. } => node(weight_of_pattern(pat), 0),
        CorePat::Bin(segments) => node(weight_of_pattern_segments(segments), 0),
    }
}

#[cycle(weight)]
fn weight_of_patterns(pats: &[CorePat]) -> u64
    ensures { result ≡ min (pats_weight (plain_pats pats.now)) (2 ^ 64 - 1) }
{
    let mut so_far = 0;
    for pat in pats {
        so_far = sum(so_far, weight_of_pattern(pat));
    }
    so_far
}

#[cycle(weight)]
fn weight_of_pattern_segments(segments: &[CorePatSegment]) -> u64
    ensures { result ≡ min (pat_segments_weight (plain_pat_segments segments.now)) (2 ^ 64 - 1) }
{
    let mut so_far = 0;
    for segment in segments {
        let flags = weight_of_literal(&segment.flags);
        let own = sum(
            weight_of_pattern(&segment.value),
            sum(core_weight(&segment.size), flags),
        );
        so_far = sum(so_far, own);
    }
    so_far
}
