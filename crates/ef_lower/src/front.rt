// The front of a clause: its patterns and its guard.
ghost use Rattle.std.specs.Prelude.{◌+◌, ◌*◌, ◌≤◌, IfOk};
ghost use Rattle.ef_core.specs.Everywhere.{Each};
ghost use Rattle.ef_core.specs.Fresh.{most_variables};
ghost use Rattle.ef_core.specs.Lowered.{IsReadableBind};
ghost use Rattle.ef_core.specs.Plain.{plain, plain_pats};
ghost use Rattle.ef_forms.specs.Built.{ArePatterns};
ghost use Rattle.ef_forms.specs.OfTable.{TreesOf};
ghost use Rattle.ef_forms.specs.Plain as source;
ghost use Rattle.ef_forms.specs.Plain.{plain_all};
ghost use Rattle.ef_forms.specs.Weight.{all_weight};
ghost use Rattle.ef_lowpat.specs.Budgets.{variables_per_pattern};
ghost use Rattle.ef_lowpat.specs.Guards.{HoldsWords};
ghost use Rattle.ef_lower.specs.Arms.{IsFront};
ghost use Rattle.ef_lower.specs.Matches.{IsFrontOf};
ghost use Rattle.ef_lower.specs.Ready.{lower_words};
ghost use Rattle.ef_meaning.specs.Lowers.{AreBelow};

use crate::binds::bind_all;
use ef_base::{Names, NoMemory};
use ef_core::{Bind, CoreExpr, CorePat, Env, Fresh, Lowered};
use ef_forms::{Clause, Expr};
use ef_lowpat::{guard, pattern};
use std::alloc::Global;

/// The patterns of a clause, and the guard of the tests beside them.
#[derive(Drop)]
pub struct Front {
    pub pats: Vec<CorePat>,
    pub guard: CoreExpr,
}

/// A front, and the names that its patterns bind.
#[derive(Drop)]
pub struct BindingFront {
    pub front: Front,
    pub binds: Vec<Bind>,
}

/// The front of a clause. The names of its pattern are bound now.
pub fn front_of(
    alloc: Global,
    names: &Names,
    clause: &Clause,
    env: &mut Env,
    fresh: &mut Fresh,
) -> Result<Front, NoMemory>
    requires words { HoldsWords names.now lower_words }
    requires patterns { ArePatterns (source.trees (source.plain_clause clause.now).patterns) }
    requires of_table { TreesOf names.now (source.trees (source.plain_clause clause.now).patterns) }
    requires readable { Each (IsReadableBind names.now) env.old }
    requires below { AreBelow fresh.old env.old }
    requires enough { fresh.old + variables_per_pattern * all_weight (source.trees (source.plain_clause clause.now).patterns) + 2 ≤ most_variables }
    ensures { IfOk result (λ f. IsFront names.now (source.plain_clause clause.now) fresh.old env.old fresh.new env.new (plain_pats f.pats.items) (plain f.guard)) }
{
    let made = binding_front(alloc, names, &clause.patterns, env, fresh)?;
    let BindingFront { front, binds } = made;
    bind_all(&binds, env)?;
    Ok(front)
}

/// The front of a clause with these patterns, behind an environment.
pub fn binding_front(
    alloc: Global,
    names: &Names,
    pats: &[Expr],
    env: &Env,
    fresh: &mut Fresh,
) -> Result<BindingFront, NoMemory>
    requires words { HoldsWords names.now lower_words }
    requires patterns { ArePatterns (plain_all pats.now) }
    requires of_table { TreesOf names.now (plain_all pats.now) }
    requires readable { Each (IsReadableBind names.now) env.now }
    requires below { AreBelow fresh.old env.now }
    requires enough { fresh.old + variables_per_pattern * all_weight (plain_all pats.now) + 2 ≤ most_variables }
    ensures { IfOk result (λ f. IsFrontOf names.now (plain_all pats.now) fresh.old env.now fresh.new (plain_pats f.front.pats.items) (plain f.front.guard) f.binds.items) }
{
    let lowered = pattern(alloc, names, fresh, pats, env, env)?;
    let Lowered { pats, tests, binds } = lowered;
    let guard = guard(alloc, names, fresh, &tests)?;
    let front = Front { pats, guard };
    Ok(BindingFront { front, binds })
}
