// How deep and how heavy functions are.
ghost use Rattle.std.specs.Prelude.{◌≡◌, ◌∷◌, []};
ghost use Rattle.ef_forms.specs.Depth as d;
ghost use Rattle.ef_forms.specs.Plain.{plain, plain_all, plain_clauses, plain_function, plain_guard};
ghost use Rattle.ef_forms.specs.Weight as w;
ghost use Rattle.ef_front.specs.Sizes as s;

use ef_forms::{Clause, Expr, Function, depth, weight};

// The greatest depth and weight of a function.
const MOST_DEPTH: u32 = 128;

const MOST_WEIGHT: u64 = 1 << 22;

// One more than the greatest weight, at which the count ends.
const OVER: u64 = MOST_WEIGHT + 1;

// The depth of some trees, and their weight, at most `OVER`.
#[derive(Clone, Copy)]
struct Size {
    depth: u32,
    weight: u64,
}

impl Size {
    fn none() -> Size
        ensures { result ≡ s.size 0 0 }
    {
        Size {
            depth: 0,
            weight: 0,
        }
    }

    // Of these trees and the others.
    fn joined(self, other: Size) -> Size
        ensures { result ≡ s.joined self other }
    {
        Size {
            depth: self.depth.max(other.depth),
            weight: self.weight.saturating_add(other.weight).min(OVER),
        }
    }
}

/// Whether the function is deeper or heavier than one may be.
#[tactic(auto, using(crate::proofs::Counted::too_large))]
pub fn is_too_large(function: &Function) -> bool
    ensures { result ≡ s.is_too_large (plain_function function.now) }
{
    let size = size_of_clauses(&function.clauses);
    size.depth > MOST_DEPTH || size.weight > MOST_WEIGHT
}

fn size_of_clauses(clauses: &[Clause]) -> Size
    ensures { result ≡ s.size (d.clauses_depth (plain_clauses clauses.now)) (w.clauses_weight (plain_clauses clauses.now)) }
{
    let mut so_far = Size::none();
    for clause in clauses {
        so_far = so_far.joined(size_of_clause(clause));
    }
    so_far
}

#[tactic(auto, using(crate::proofs::Counted::clause_counted))]
fn size_of_clause(clause: &Clause) -> Size
    ensures { result ≡ s.size (d.clauses_depth (plain_clauses (clause.now ∷ []))) (w.clauses_weight (plain_clauses (clause.now ∷ []))) }
{
    let head = size_of_all(&clause.patterns).joined(size_of_guard(&clause.guard));
    head.joined(size_of_all(&clause.body))
}

fn size_of_guard(guard: &[Vec<Expr>]) -> Size
    ensures { result ≡ s.size (d.guards_depth (plain_guard guard.now)) (w.guards_weight (plain_guard guard.now)) }
{
    let mut so_far = Size::none();
    for tests in guard {
        so_far = so_far.joined(size_of_all(tests));
    }
    so_far
}

fn size_of_all(exprs: &[Expr]) -> Size
    ensures { result ≡ s.size (d.all_depth (plain_all exprs.now)) (w.all_weight (plain_all exprs.now)) }
{
    let mut so_far = Size::none();
    for expr in exprs {
        so_far = so_far.joined(size_of(expr));
    }
    so_far
}

fn size_of(expr: &Expr) -> Size
    ensures { result ≡ s.size (d.depth (plain expr.now)) (w.weight (plain expr.now)) }
{
    Size {
        depth: depth(expr),
        weight: weight(expr, &[]),
    }
}
