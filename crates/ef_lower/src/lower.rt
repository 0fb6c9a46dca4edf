// The calls of this crate.
ghost use Rattle.std.specs.Prelude.{◌≡◌, ◌+◌, ◌*◌, ◌≤◌, [], ◌∷◌, IfOk, List, length, map};
ghost use Rattle.ef_base.specs.Texts.{AllDiffer, AllUtf8, Extends};
ghost use Rattle.ef_core.specs.Depth as deep;
ghost use Rattle.ef_core.specs.Everywhere.{Each};
ghost use Rattle.ef_core.specs.Fresh.{most_variables};
ghost use Rattle.ef_core.specs.Plain as core;
ghost use Rattle.ef_forms.specs.Built.{AreBuilt, AreNarrow, IsBuiltTree, IsNarrow};
ghost use Rattle.ef_forms.specs.Depth.{all_depth, depth};
ghost use Rattle.ef_forms.specs.OfTable.{TreeOf, TreesOf};
ghost use Rattle.ef_forms.specs.Plain.{plain, plain_all};
ghost use Rattle.ef_forms.specs.Sure.{all_sure, sure};
ghost use Rattle.ef_forms.specs.Tree.{end, more};
ghost use Rattle.ef_forms.specs.Ways.{body_faults, faults};
ghost use Rattle.ef_forms.specs.Weight.{all_weight, weight};
ghost use Rattle.ef_lowpat.specs.Budgets.{depth_per_level, variables_per_unit};
ghost use Rattle.ef_lowpat.specs.Guards.{HoldsWords};
ghost use Rattle.ef_lower.specs.Exports.{IsExported};
ghost use Rattle.ef_lower.specs.LastCalls.{KeepsLastCalls};
ghost use Rattle.ef_lower.specs.Lowers.{Draws, IsLowered};
ghost use Rattle.ef_lower.specs.Ready.{IsReadableBind, bound_names, lower_words};
ghost use Rattle.ef_lower.specs.Scope.{IsInScope};
ghost use Rattle.ef_meaning.specs.Lowers.{AreBelow, KeepsBody};

use crate::append::{append, append_body};
pub use crate::exports::LoweredExpr;
use crate::exports::with_names;
use crate::steps::finish;
use ef_base::{Names, NoMemory};
use ef_core::{CoreExpr, Env, Fresh};
use ef_forms::{Expr, Tables};
use std::alloc::Global;

/// Lowers an expression.
pub fn expression(
    alloc: Global,
    names: &mut Names,
    tables: &Tables,
    fresh: &mut Fresh,
    expr: &Expr,
    env: &Env,
) -> Result<LoweredExpr, NoMemory>
    requires words { HoldsWords names.old lower_words }
    requires built { IsBuiltTree names.old tables.now.functions.items (plain expr.now) }
    requires narrow { IsNarrow (plain expr.now) }
    requires of_table { TreeOf names.old (plain expr.now) }
    requires readable { Each (IsReadableBind names.old) env.now }
    requires no_faults { faults names.old (plain expr.now) (bound_names env.now ∷ []) ≡ [] }
    requires below { AreBelow fresh.old env.now }
    requires enough { fresh.old + variables_per_unit * weight (plain expr.now) ≤ most_variables }
    ensures kept { Extends names.old names.new }
    ensures differ { AllDiffer names.old → AllDiffer names.new }
    ensures utf8 { AllUtf8 names.old → AllUtf8 names.new }
    ensures lowered { IfOk result (λ r. IsLowered names.new (core.plain r.core)) }
    ensures in_scope { IfOk result (λ r. IsInScope names.old tables.now.functions.items env.now (core.plain r.core)) }
    ensures shallow { IfOk result (λ r. deep.depth (core.plain r.core) + 1 ≤ depth_per_level * depth (plain expr.now)) }
    ensures exports { IfOk result (λ r. IsExported env.now (sure (plain expr.now)) r.exports.items) }
    ensures drawn { IfOk result (λ r. Draws (variables_per_unit * weight (plain expr.now)) fresh.old fresh.new) }
    ensures last_calls { IfOk result (λ r. r.exports.items ≡ [] → KeepsLastCalls (bound_names env.now) (more (plain expr.now) end) (core.plain r.core)) }
    ensures means { IfOk result (λ r. KeepsBody names.new (plain expr.now ∷ []) env.now r.exports.items (core.plain r.core)) }
{
    let mut own = env.copy(alloc)?;
    let mut steps = Vec::new(alloc);
    let value = append(alloc, names, tables, expr, &mut own, fresh, &mut steps)?;
    Ok(with_names(alloc, &own, env.len(), fresh, steps, value)?)
}

/// Lowers a body, whose expressions are evaluated in order. It isn't empty.
pub fn body(
    alloc: Global,
    names: &mut Names,
    tables: &Tables,
    fresh: &mut Fresh,
    exprs: &[Expr],
    env: &Env,
) -> Result<LoweredExpr, NoMemory>
    requires words { HoldsWords names.old lower_words }
    requires some { 1 ≤ length exprs.now }
    requires built { AreBuilt names.old tables.now.functions.items (plain_all exprs.now) }
    requires narrow { AreNarrow (plain_all exprs.now) }
    requires of_table { TreesOf names.old (plain_all exprs.now) }
    requires readable { Each (IsReadableBind names.old) env.now }
    requires no_faults { body_faults names.old (plain_all exprs.now) (bound_names env.now ∷ []) ≡ [] }
    requires below { AreBelow fresh.old env.now }
    requires enough { fresh.old + variables_per_unit * all_weight (plain_all exprs.now) ≤ most_variables }
    ensures kept { Extends names.old names.new }
    ensures differ { AllDiffer names.old → AllDiffer names.new }
    ensures utf8 { AllUtf8 names.old → AllUtf8 names.new }
    ensures lowered { IfOk result (λ r. IsLowered names.new (core.plain r.core)) }
    ensures in_scope { IfOk result (λ r. IsInScope names.old tables.now.functions.items env.now (core.plain r.core)) }
    ensures shallow { IfOk result (λ r. deep.depth (core.plain r.core) + 1 ≤ depth_per_level * all_depth (plain_all exprs.now)) }
    ensures exports { IfOk result (λ r. IsExported env.now (all_sure (plain_all exprs.now)) r.exports.items) }
    ensures drawn { IfOk result (λ r. Draws (variables_per_unit * all_weight (plain_all exprs.now)) fresh.old fresh.new) }
    ensures last_calls { IfOk result (λ r. r.exports.items ≡ [] → KeepsLastCalls (bound_names env.now) (plain_all exprs.now) (core.plain r.core)) }
    ensures means { IfOk result (λ r. KeepsBody names.new (map plain exprs.now) env.now r.exports.items (core.plain r.core)) }
{
    let mut own = env.copy(alloc)?;
    let mut steps = Vec::new(alloc);
    let value = append_body(alloc, names, tables, exprs, &mut own, fresh, &mut steps)?;
    Ok(with_names(alloc, &own, env.len(), fresh, steps, value)?)
}

/// Lowers a body whose names nobody needs afterwards: its value alone.
pub fn closed_body(
    alloc: Global,
    names: &mut Names,
    tables: &Tables,
    fresh: &mut Fresh,
    exprs: &[Expr],
    mut env: Env,
) -> Result<CoreExpr, NoMemory>
    requires words { HoldsWords names.old lower_words }
    requires some { 1 ≤ length exprs.now }
    requires built { AreBuilt names.old tables.now.functions.items (plain_all exprs.now) }
    requires narrow { AreNarrow (plain_all exprs.now) }
    requires of_table { TreesOf names.old (plain_all exprs.now) }
    requires readable { Each (IsReadableBind names.old) env }
    requires no_faults { body_faults names.old (plain_all exprs.now) (bound_names env ∷ []) ≡ [] }
    requires below { AreBelow fresh.old env }
    requires enough { fresh.old + variables_per_unit * all_weight (plain_all exprs.now) ≤ most_variables }
    ensures kept { Extends names.old names.new }
    ensures differ { AllDiffer names.old → AllDiffer names.new }
    ensures utf8 { AllUtf8 names.old → AllUtf8 names.new }
    ensures lowered { IfOk result (λ e. IsLowered names.new (core.plain e)) }
    ensures in_scope { IfOk result (λ e. IsInScope names.old tables.now.functions.items env (core.plain e)) }
    ensures shallow { IfOk result (λ e. deep.depth (core.plain e) + 1 ≤ depth_per_level * all_depth (plain_all exprs.now)) }
    ensures drawn { IfOk result (λ e. Draws (variables_per_unit * all_weight (plain_all exprs.now)) fresh.old fresh.new) }
    ensures last_calls { IfOk result (λ e. KeepsLastCalls (bound_names env) (plain_all exprs.now) (core.plain e)) }
    ensures means { IfOk result (λ e. KeepsBody names.new (map plain exprs.now) env [] (core.plain e)) }
{
    let mut steps = Vec::new(alloc);
    let value = append_body(alloc, names, tables, exprs, &mut env, fresh, &mut steps)?;
    Ok(finish(alloc, steps, value)?)
}
