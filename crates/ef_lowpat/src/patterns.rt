// Patterns: variables that differ, and tests beside them.
ghost use Rattle.std.specs.Prelude.{◌≡◌, ◌+◌, ◌*◌, ◌<◌, ◌≤◌, ◌++◌, ◌⊎◌, IfOk, OnOk, None, Some, length, map, ℕ, List, ◌||◌};
ghost use Rattle.ef_core.specs.declared.literal.CoreVar.{CoreVar};
ghost use Rattle.ef_core.specs.declared.literal.FName.{FName};
ghost use Rattle.ef_core.specs.Conditions.{NoneTwice};
ghost use Rattle.ef_core.specs.Depth.{pats_depth};
ghost use Rattle.ef_core.specs.Env.{NamesDiffer, held};
ghost use Rattle.ef_core.specs.Everywhere.{Each, PatsHold};
ghost use Rattle.ef_core.specs.Fresh.{DrawsAtMost, IsDrawnIn, most_variables};
ghost use Rattle.ef_core.specs.Lowered.{IsReadableBind, IsReadableTest, lowered};
ghost use Rattle.ef_core.specs.Plain.{plain_pat, plain_pats};
ghost use Rattle.ef_core.specs.Scope.{IsAmong, SizesInScope, pats_vars};
ghost use Rattle.ef_forms.specs.Built.{ArePatterns, IsPattern};
ghost use Rattle.ef_forms.specs.Depth.{all_depth};
ghost use Rattle.ef_forms.specs.OfTable.{TreesOf};
ghost use Rattle.ef_forms.specs.Plain.{plain, plain_all};
ghost use Rattle.ef_forms.specs.Ways.{all_names};
ghost use Rattle.ef_forms.specs.Weight.{all_weight, weight};
ghost use Rattle.ef_lowpat.specs.Budgets.{variables_per_pattern};
ghost use Rattle.ef_lowpat.specs.Lowers.{IsVariableOf, LowersItems, LowersPattern, Notes};
ghost use Rattle.ef_meaning.specs.Lowers.{AreBelow};
ghost use Rattle.ef_meaning.specs.Named.{bound_names};
ghost use Rattle.ef_meaning.specs.Patterns.{KeepsPatterns};

use crate::draws::draw;
use crate::nodes::{atom, integer, list, list_to, tuple, variable};
use ef_base::{Name, Names, NoMemory};
use ef_core::{Bind, CorePat, CoreVar, Env, Fresh, Lowered, Test};
use ef_forms::{Expr, Node};
use std::alloc::Global;

/// Patterns as Core patterns. A name that is bound, and one that stands for a second time, is a test.
pub fn pattern(
    alloc: Global,
    names: &Names,
    fresh: &mut Fresh,
    pats: &[Expr],
    bound: &Env,
    _sizes: &Env,
) -> Result<Lowered, NoMemory>
    requires patterns { ArePatterns (plain_all pats.now) }
    requires of_table { TreesOf names.now (plain_all pats.now) }
    requires readable { Each (IsReadableBind names.now) bound.now }
    requires below { AreBelow fresh.old bound.now }
    requires enough { fresh.old + variables_per_pattern * all_weight (plain_all pats.now) ≤ most_variables }
    ensures matched { IfOk result (λ l. KeepsPatterns names.now (plain_all pats.now) fresh.old bound.now (plain_pats l.pats.items) l.tests.items fresh.new l.binds.items) }
    ensures count { IfOk result (λ l. length l.pats.items ≡ length pats.now) }
    //
    ensures distinct { IfOk result (λ l. NoneTwice (pats_vars (plain_pats l.pats.items))) }
    ensures drawn_here { IfOk result (λ l. Each (IsDrawnIn fresh.old fresh.new) (pats_vars (plain_pats l.pats.items))) }
    ensures binds_in_pattern { IfOk result (λ l. Each (λ b. IsAmong (pats_vars (plain_pats l.pats.items)) b.var) l.binds.items) }
    ensures lefts_in_pattern { IfOk result (λ l. Each (λ t. IsAmong (pats_vars (plain_pats l.pats.items)) t.left) l.tests.items) }
    ensures rights_known { IfOk result (λ l. Each (λ t. IsAmong (pats_vars (plain_pats l.pats.items)) t.right ⊎ IsVariableOf bound.now t.right) l.tests.items) }
    //
    ensures names_differ { IfOk result (λ l. NamesDiffer l.binds.items) }
    ensures names_new { IfOk result (λ l. Each (λ b. held bound.now b.name ≡ None) l.binds.items) }
    ensures names_all { IfOk result (λ l. (y : ℕ) → bound_names (bound.now ++ l.binds.items) y ≡ (bound_names bound.now y || all_names (plain_all pats.now) y)) }
    //
    ensures lowered { IfOk result (λ l. PatsHold (lowered names.now) (plain_pats l.pats.items)) }
    ensures sizes { IfOk result (λ l. (vs : List CoreVar) (fs : List FName) → SizesInScope vs fs (plain_pats l.pats.items)) }
    ensures readable_binds { IfOk result (λ l. Each (IsReadableBind names.now) l.binds.items) }
    ensures readable_tests { IfOk result (λ l. Each (IsReadableTest names.now) l.tests.items) }
    ensures shallow { IfOk result (λ l. pats_depth (plain_pats l.pats.items) ≤ all_depth (plain_all pats.now)) }
    ensures drawn { IfOk result (λ l. DrawsAtMost (variables_per_pattern * all_weight (plain_all pats.now)) fresh.old fresh.new) }
{
    let mut found = Found {
        tests: Vec::new(alloc),
        binds: Vec::new(alloc),
        own: Env::new(alloc),
    };
    let pats = lower_all(alloc, pats, bound, fresh, &mut found)?;
    Ok(Lowered {
        pats,
        tests: found.tests,
        binds: found.binds,
    })
}

// What patterns need beside them, and the names that they bind, which are looked up in the environment.
#[derive(Drop)]
struct Found {
    tests: Vec<Test>,
    binds: Vec<Bind>,
    own: Env,
}

#[cycle(lower)]
fn lower(
    alloc: Global,
    pat: &Expr,
    bound: &Env,
    fresh: &mut Fresh,
    found: &mut Found,
) -> Result<CorePat, NoMemory>
    requires pattern { IsPattern (plain pat.now) }
    requires own { found.old.own ≡ found.old.binds.items }
    requires below { AreBelow fresh.old (bound.now ++ found.old.binds.items) }
    requires enough { fresh.old + weight (plain pat.now) ≤ most_variables }
    ensures own { IfOk result (λ p. found.new.own ≡ found.new.binds.items) }
    ensures lowers { IfOk result (λ p. LowersPattern (plain pat.now) bound.now fresh.old found.old.tests.items found.old.binds.items fresh.new found.new.tests.items found.new.binds.items (plain_pat p)) }
{
    match &pat.node {
        Node::Int(value) => Ok(integer(*value)),
        Node::Atom(name) => Ok(atom(*name)),
        Node::Var(name) => {
            let var = draw(fresh);
            note(bound, found, *name, var)?;
            Ok(variable(var))
        }
        Node::Any => Ok(variable(draw(fresh))),
        Node::Tuple(items) => {
            let pats = lower_all(alloc, items, bound, fresh, found)?;
            Ok(tuple(alloc, pats)?)
        }
        Node::List { items, tail } => {
            let pats = lower_all(alloc, items, bound, fresh, found)?;
            match tail {
                None => Ok(list(alloc, pats)?),
                Some(tail) => {
                    let tail = lower(alloc, tail, bound, fresh, found)?;
                    Ok(list_to(alloc, pats, tail)?)
                }
            }
        }
        _ => unreachable!(),
    }
}

#[cycle(lower)]
fn lower_all(
    alloc: Global,
    pats: &[Expr],
    bound: &Env,
    fresh: &mut Fresh,
    found: &mut Found,
) -> Result<Vec<CorePat>, NoMemory>
    requires patterns { ArePatterns (plain_all pats.now) }
    requires own { found.old.own ≡ found.old.binds.items }
    requires below { AreBelow fresh.old (bound.now ++ found.old.binds.items) }
    requires enough { fresh.old + all_weight (plain_all pats.now) ≤ most_variables }
    ensures own { IfOk result (λ ps. found.new.own ≡ found.new.binds.items) }
    ensures lowers { IfOk result (λ ps. LowersItems (map plain pats.now) bound.now fresh.old found.old.tests.items found.old.binds.items fresh.new found.new.tests.items found.new.binds.items (map plain_pat ps.items)) }
{
    let mut made = Vec::new(alloc);
    for pat in pats {
        made.push(lower(alloc, pat, bound, fresh, found)?)?;
    }
    Ok(made)
}

// What the variable of a name says: a test where the name is bound already, and else that it is bound now.
fn note(bound: &Env, found: &mut Found, name: Name, var: CoreVar) -> Result<(), NoMemory>
    requires own { found.old.own ≡ found.old.binds.items }
    ensures own { OnOk result (found.new.own ≡ found.new.binds.items) }
    ensures noted { OnOk result (Notes (held (bound.now ++ found.old.binds.items) name) name var found.old.tests.items found.old.binds.items found.new.tests.items found.new.binds.items) }
{
    match known(bound, &found.own, name) {
        Some(right) => found.tests.push(Test { left: var, right })?,
        None => {
            found.binds.push(Bind { name, var })?;
            found.own.push(name, var)?;
        }
    }
    Ok(())
}

// The variable of a name that is bound, or was bound by these patterns.
fn known(bound: &Env, own: &Env, name: Name) -> Option<CoreVar>
    ensures { result ≡ held (bound.now ++ own.now) name }
{
    match bound.var_of(name) {
        Some(var) => Some(var),
        None => own.var_of(name),
    }
}
