// Whether every argument is a variable or a literal.
ghost use Rattle.std.specs.Prelude.{IsTrue, ◌↔◌};
ghost use Rattle.ef_core.specs.Everywhere.{AllHold, ClausesHold, DefsHold, PatHolds, PatSegmentsHold, PatsHold, StepsHold};
ghost use Rattle.ef_core.specs.LetForm.{AreSimple, AreSimpleSegments, HaveSimpleSizes, IsLetForm, IsSimple, let_form};
ghost use Rattle.ef_core.specs.Plain.{plain, plain_all, plain_clauses, plain_defs, plain_pat, plain_pat_segments, plain_pats, plain_segments, plain_steps};

use crate::{CoreClause, CoreDef, CoreExpr, CorePat, CorePatSegment, CoreSegment, LetStep};

/// Whether it is a variable or a literal.
#[tactic(auto, using(crate::specs::Laws::plain_laws))]
pub fn is_simple(expr: &CoreExpr) -> bool
    ensures { IsTrue result ↔ IsSimple (plain expr.now) }
{
    matches!(expr, CoreExpr::Var(_) | CoreExpr::Lit(_))
}

/// Whether every argument, element, segment value, segment size and timeout in the tree is a variable or a literal.
#[cycle(let_form)]
#[tactic(auto, using(crate::specs::Laws::plain_laws, crate::proofs::LetForms::simple_laws))]
pub fn is_let_form(expr: &CoreExpr) -> bool
    ensures { IsTrue result ↔ IsLetForm (plain expr.now) }
{
    match expr {
        CoreExpr::Var(_) | CoreExpr::Lit(_) | CoreExpr::FunName(_) => true,
        CoreExpr::Fun { body, .. } => is_let_form(body),
        CoreExpr::ValueList(exprs) => are_let_forms(exprs),
        CoreExpr::Tuple(exprs) => are_simple(exprs),
        CoreExpr::List { items, tail } => match tail {
            None => are_simple(items),
            Some(tail) => are_simple(items) && is_simple(tail),
        },
        CoreExpr::Bin(segments) => are_simple_segments(segments),
        CoreExpr::Lets { steps, body } => are_let_form_steps(steps) && is_let_form(body),
        CoreExpr::Letrec { defs, body } => are_let_form_defs(defs) && is_let_form(body),
        CoreExpr::Case { arg, clauses } => is_let_form(arg) && are_let_form_clauses(clauses),
        CoreExpr::Apply { target, args } => is_let_form(target) && are_simple(args),
        CoreExpr::Call {
            module,
            function,
            args,
        } => { are_simple(args) && is_let_form(module) && is_let_form(function) }
        CoreExpr::Primop { args, .. } => are_simple(args),
        CoreExpr::Do { first, second } => is_let_form(first) && is_let_form(second),
        CoreExpr::Receive {
            clauses,
            timeout,
            body,
        } => { is_simple(timeout) && are_let_form_clauses(clauses) && is_let_form(body) }
        CoreExpr::Try {
            arg,
            body,
            handler,
            ..
        } => is_let_form(arg) && is_let_form(body) && is_let_form(handler),
    }
}

fn are_simple(exprs: &[CoreExpr]) -> bool
    ensures { IsTrue result ↔ AreSimple (plain_all exprs.now) }
{
    for expr in exprs {
        if !is_simple(expr) {
            return false;
        }
    }
    true
}

fn are_simple_segments(segments: &[CoreSegment]) -> bool
    ensures { IsTrue result ↔ AreSimpleSegments (plain_segments segments.now) }
{
    for segment in segments {
        if !is_simple(&segment.value) || !is_simple(&segment.size) {
            return false;
        }
    }
    true
}

#[cycle(let_form)]
fn are_let_forms(exprs: &[CoreExpr]) -> bool
    ensures { IsTrue result ↔ AllHold let_form (plain_all exprs.now) }
{
    for expr in exprs {
        if !is_let_form(expr) {
            return false;
        }
    }
    true
}

#[cycle(let_form)]
fn are_let_form_steps(steps: &[LetStep]) -> bool
    ensures { IsTrue result ↔ StepsHold let_form (plain_steps steps.now) }
{
    for step in steps {
        if !is_let_form(&step.value) {
            return false;
        }
    }
    true
}

#[cycle(let_form)]
fn are_let_form_defs(defs: &[CoreDef]) -> bool
    ensures { IsTrue result ↔ DefsHold let_form (plain_defs defs.now) }
{
    for def in defs {
        if !is_let_form(&def.body) {
            return false;
        }
    }
    true
}

#[cycle(let_form)]
fn are_let_form_clauses(clauses: &[CoreClause]) -> bool
    ensures { IsTrue result ↔ ClausesHold let_form (plain_clauses clauses.now) }
{
    for clause in clauses {
        if !have_simple_sizes(&clause.pats)
            || !is_let_form(&clause.guard)
            || !is_let_form(&clause.body)
        {
            return false;
        }
    }
    true
}

// Whether every segment size in the pattern is a variable or a literal, and so in these patterns.
#[cycle(sizes)]
#[tactic(auto, using(crate::specs::Laws::plain_laws, crate::proofs::LetForms::simple_laws))]
fn has_simple_sizes(pat: &CorePat) -> bool
    ensures { IsTrue result ↔ PatHolds let_form (plain_pat pat.now) }
{
    match pat {
        CorePat::Var(_) | CorePat::Lit(_) => true,
        CorePat::Tuple(pats) => have_simple_sizes(pats),
        CorePat::List { items, tail } => match tail {
            None => have_simple_sizes(items),
            Some(tail) => have_simple_sizes(items) && has_simple_sizes(tail),
        },
        CorePat::Alias { pat, .. } => has_simple_sizes(pat),
        CorePat::Bin(segments) => are_segments_of_simple_size(segments),
    }
}

#[cycle(sizes)]
fn have_simple_sizes(pats: &[CorePat]) -> bool
    ensures { IsTrue result ↔ PatsHold let_form (plain_pats pats.now) }
{
    for pat in pats {
        if !has_simple_sizes(pat) {
            return false;
        }
    }
    true
}

#[cycle(sizes)]
fn are_segments_of_simple_size(segments: &[CorePatSegment]) -> bool
    ensures { IsTrue result ↔ HaveSimpleSizes (plain_pat_segments segments.now) × PatSegmentsHold let_form (plain_pat_segments segments.now) }
{
    for segment in segments {
        if !is_simple(&segment.size) || !has_simple_sizes(&segment.value) {
            return false;
        }
    }
    true
}
