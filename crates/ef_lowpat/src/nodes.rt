// Nodes of patterns: what can be a literal is one.
ghost use Rattle.std.specs.Prelude.{◌≡◌, IfOk, IsTrue, ◌↔◌, map};
ghost use Rattle.ef_core.specs.Normal.{ArePatLits, IsPatLit};
ghost use Rattle.ef_core.specs.Plain.{plain_lit, plain_lits, plain_pat, plain_pats};
ghost use Rattle.ef_core.specs.Tree as c;
ghost use Rattle.ef_core.specs.WellFormed.{IsInRange};
ghost use Rattle.ef_lowpat.specs.Nodes.{Finishes, FinishesTo, lit_pats};

use ef_base::{Name, NoMemory};
use ef_core::{CoreLit, CorePat, CoreVar};
use std::alloc::Global;

/// The pattern of a variable.
#[tactic(auto, using(ef_core::specs::Laws::plain_laws))]
pub fn variable(var: CoreVar) -> CorePat
    ensures { plain_pat result ≡ c.pat_var var }
{
    CorePat::Var(var)
}

/// The pattern of an integer, which has its range.
#[tactic(auto, using(ef_core::specs::Laws::plain_laws))]
pub fn integer(value: i128) -> CorePat
    ensures literal { plain_pat result ≡ c.pat_lit (c.int value) }
    ensures in_range { IsInRange value }
{
    CorePat::Lit(CoreLit::Int(value))
}

/// The pattern of an atom.
#[tactic(auto, using(ef_core::specs::Laws::plain_laws))]
pub fn atom(name: Name) -> CorePat
    ensures { plain_pat result ≡ c.pat_lit (c.atom name) }
{
    CorePat::Lit(CoreLit::Atom(name))
}

/// The pattern of a tuple.
#[tactic(auto, using(ef_core::specs::Laws::plain_laws))]
pub fn tuple(alloc: Global, pats: Vec<CorePat>) -> Result<CorePat, NoMemory>
    ensures { IfOk result (λ p. Finishes (c.pat_tuple (plain_pats pats.items)) (plain_pat p)) }
{
    if are_literals(&pats) {
        return Ok(CorePat::Lit(CoreLit::Tuple(literals(alloc, pats)?)));
    }
    Ok(CorePat::Tuple(pats))
}

/// The pattern of a list without a tail.
#[tactic(auto, using(ef_core::specs::Laws::plain_laws))]
pub fn list(alloc: Global, pats: Vec<CorePat>) -> Result<CorePat, NoMemory>
    ensures { IfOk result (λ p. Finishes (c.pat_list (plain_pats pats.items)) (plain_pat p)) }
{
    if are_literals(&pats) {
        let items = literals(alloc, pats)?;
        return Ok(CorePat::Lit(CoreLit::List { items, tail: None }));
    }
    Ok(CorePat::List {
        items: pats,
        tail: None,
    })
}

/// The pattern of a list with a tail.
#[tactic(auto, using(ef_core::specs::Laws::plain_laws))]
pub fn list_to(alloc: Global, pats: Vec<CorePat>, tail: CorePat) -> Result<CorePat, NoMemory>
    ensures { IfOk result (λ p. FinishesTo (plain_pats pats.items) (plain_pat tail) (plain_pat p)) }
{
    if pats.is_empty() {
        return Ok(tail);
    }
    if is_literal(&tail) && are_literals(&pats) {
        let items = literals(alloc, pats)?;
        let tail = Some(Box::new(alloc, literal_of(tail))?);
        return Ok(CorePat::Lit(CoreLit::List { items, tail }));
    }
    Ok(CorePat::List {
        items: pats,
        tail: Some(Box::new(alloc, tail)?),
    })
}

#[tactic(auto, using(ef_core::specs::Laws::plain_laws))]
fn is_literal(pat: &CorePat) -> bool
    ensures { IsTrue result ↔ IsPatLit (plain_pat pat.now) }
{
    matches!(pat, CorePat::Lit(_))
}

// Whether all are literals.
fn are_literals(pats: &[CorePat]) -> bool
    ensures { IsTrue result ↔ ArePatLits (plain_pats pats.now) }
{
    for pat in pats {
        if !is_literal(pat) {
            return false;
        }
    }
    true
}

// Patterns that are literals, as these.
fn literals(alloc: Global, pats: Vec<CorePat>) -> Result<Vec<CoreLit>, NoMemory>
    requires { ArePatLits (plain_pats pats.items) }
    ensures { IfOk result (λ ls. plain_pats pats.items ≡ lit_pats (plain_lits ls.items)) }
{
    let mut literals = Vec::with_capacity(alloc, pats.len())?;
    for pat in pats {
        literals.push(literal_of(pat))?;
    }
    Ok(literals)
}

#[tactic(auto, using(ef_core::specs::Laws::plain_laws))]
fn literal_of(pat: CorePat) -> CoreLit
    requires { IsPatLit (plain_pat pat) }
    ensures { plain_pat pat ≡ c.pat_lit (plain_lit result) }
{
    let CorePat::Lit(literal) = pat else {
        unreachable!()
    };
    literal
}
