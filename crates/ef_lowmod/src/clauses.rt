// Clauses, as a case of the parameters.
ghost use Rattle.std.specs.Prelude.{◌≡◌, ◌+◌, ◌*◌, ◌≤◌, [], IfOk, map};
ghost use Rattle.ef_base.specs.Texts.{AllDiffer, AllUtf8, Extends, Texts};
ghost use Rattle.ef_core.specs.Env.{NamesDiffer};
ghost use Rattle.ef_core.specs.Everywhere.{Each};
ghost use Rattle.ef_core.specs.Fresh.{DrawsAtMost, most_variables, variables_from};
ghost use Rattle.ef_core.specs.Plain.{plain, plain_clause, plain_clauses, plain_pats};
ghost use Rattle.ef_core.specs.Tree as c;
ghost use Rattle.ef_forms.specs.declared.expr.Clause.{out-Clause};
ghost use Rattle.ef_forms.specs.Built.{ArePatterns, AreSome};
ghost use Rattle.ef_forms.specs.OfTable.{TreesOf};
ghost use Rattle.ef_forms.specs.Plain as source;
ghost use Rattle.ef_forms.specs.Weight.{all_weight, clauses_weight};
ghost use Rattle.ef_lower.specs.Matches.{IsFrontOf};
ghost use Rattle.ef_lowmod.specs.Clauses.{AreLoweredClauses, AreReadyClauses, IsLoweredBody, IsLoweredClause, IsReadyClause};
ghost use Rattle.ef_lowmod.specs.Function.{HasWords};
ghost use Rattle.ef_lowpat.specs.Budgets.{variables_per_case, variables_per_clause, variables_per_pattern};
ghost use Rattle.ef_meaning.specs.Cases as cases;

use ef_base::{Names, NoMemory};
use ef_core::{Bind, CoreClause, CoreExpr, CoreVar, Env, Fresh};
use ef_forms::{Clause, Tables};
use ef_lower::{
    BindingFront, Front, binding_front, closed_body, last_clause, push_values, together,
};
use std::alloc::Global;

/// A case of the parameters, which are the variables that were drawn so far. Where no clause is chosen it raises
/// `function_clause`.
pub fn case(
    alloc: Global,
    names: &mut Names,
    tables: &Tables,
    fresh: &mut Fresh,
    clauses: &[Clause],
    params: &[CoreVar],
) -> Result<CoreExpr, NoMemory>
    requires words { HasWords names.old }
    requires some { AreSome (source.plain_clauses clauses.now) }
    requires ready { (all : Texts) → Extends names.old all → AreReadyClauses all tables.now.functions.items fresh.old (source.plain_clauses clauses.now) }
    requires params { params.now ≡ variables_from 0 fresh.old }
    requires enough { fresh.old + variables_per_case * clauses_weight (source.plain_clauses clauses.now) ≤ most_variables }
    ensures kept { Extends names.old names.new }
    ensures differ { AllDiffer names.old → AllDiffer names.new }
    ensures utf8 { AllUtf8 names.old → AllUtf8 names.new }
    ensures lowered { IfOk result (λ e. IsLoweredBody names.new tables.now.functions.items (source.plain_clauses clauses.now) params.now (plain e)) }
    ensures drawn { IfOk result (λ e. DrawsAtMost (variables_per_case * clauses_weight (source.plain_clauses clauses.now)) fresh.old fresh.new) }
{
    let mut made = lower_clauses(alloc, names, tables, fresh, clauses)?;
    let last = last_clause(alloc, names, fresh, "function_clause", params.len())?;
    made.push(last)?;
    Ok(case_of(alloc, params, made)?)
}

// The case of variables together.
#[tactic(auto, using(ef_core::specs::Laws::plain_laws))]
fn case_of(alloc: Global, vars: &[CoreVar], clauses: Vec<CoreClause>) -> Result<CoreExpr, NoMemory>
    ensures { IfOk result (λ e. plain e ≡ c.case_of (cases.together (cases.variables vars.now)) (plain_clauses clauses.items)) }
{
    let mut values = Vec::with_capacity(alloc, vars.len())?;
    push_values(&mut values, vars)?;
    let arg = Box::new(alloc, together(values))?;
    Ok(CoreExpr::Case { arg, clauses })
}

// Clauses, in order.
fn lower_clauses(
    alloc: Global,
    names: &mut Names,
    tables: &Tables,
    fresh: &mut Fresh,
    clauses: &[Clause],
) -> Result<Vec<CoreClause>, NoMemory>
    requires words { HasWords names.old }
    requires ready { (all : Texts) → Extends names.old all → Each (IsReadyClause all tables.now.functions.items) clauses.now }
    requires enough { fresh.old + variables_per_clause * clauses_weight (source.plain_clauses clauses.now) ≤ most_variables }
    ensures kept { Extends names.old names.new }
    ensures differ { AllDiffer names.old → AllDiffer names.new }
    ensures utf8 { AllUtf8 names.old → AllUtf8 names.new }
    ensures lowered { IfOk result (λ cs. AreLoweredClauses names.new tables.now.functions.items clauses.now (map plain_clause cs.items)) }
    ensures drawn { IfOk result (λ cs. DrawsAtMost (variables_per_clause * clauses_weight (source.plain_clauses clauses.now)) fresh.old fresh.new) }
{
    let mut made = Vec::with_capacity(alloc, clauses.len() + 1)?;
    for clause in clauses {
        made.push(lower_clause(alloc, names, tables, fresh, clause)?)?;
    }
    Ok(made)
}

// A clause: its patterns, the guard that tests beside them hold, and its body.
fn lower_clause(
    alloc: Global,
    names: &mut Names,
    tables: &Tables,
    fresh: &mut Fresh,
    clause: &Clause,
) -> Result<CoreClause, NoMemory>
    requires words { HasWords names.old }
    requires ready { IsReadyClause names.old tables.now.functions.items clause.now }
    requires enough { fresh.old + variables_per_clause * (all_weight (source.plain_all (out-Clause clause.now).patterns.items) + all_weight (source.plain_all (out-Clause clause.now).body.items)) ≤ most_variables }
    ensures kept { Extends names.old names.new }
    ensures differ { AllDiffer names.old → AllDiffer names.new }
    ensures utf8 { AllUtf8 names.old → AllUtf8 names.new }
    ensures lowered { IfOk result (λ c. IsLoweredClause names.new tables.now.functions.items clause.now (plain_clause c)) }
    ensures drawn { IfOk result (λ c. DrawsAtMost (variables_per_clause * (all_weight (source.plain_all (out-Clause clause.now).patterns.items) + all_weight (source.plain_all (out-Clause clause.now).body.items))) fresh.old fresh.new) }
{
    let made = head(alloc, names, fresh, clause)?;
    let BindingFront { front, binds } = made;
    let env = env_of(alloc, &binds)?;
    let body = closed_body(alloc, names, tables, fresh, &clause.body, env)?;
    let Front { pats, guard } = front;
    Ok(CoreClause { pats, guard, body })
}

// The front of a clause, before which no name is bound.
fn head(
    alloc: Global,
    names: &Names,
    fresh: &mut Fresh,
    clause: &Clause,
) -> Result<BindingFront, NoMemory>
    requires words { HasWords names.now }
    requires patterns { ArePatterns (source.plain_all (out-Clause clause.now).patterns.items) }
    requires named { TreesOf names.now (source.plain_all (out-Clause clause.now).patterns.items) }
    requires enough { fresh.old + variables_per_pattern * all_weight (source.plain_all (out-Clause clause.now).patterns.items) + 2 ≤ most_variables }
    ensures { IfOk result (λ f. IsFrontOf names.now (source.plain_all (out-Clause clause.now).patterns.items) fresh.old [] fresh.new (plain_pats f.front.pats.items) (plain f.front.guard) f.binds.items) }
{
    let none = Env::new(alloc);
    let made = binding_front(alloc, names, &clause.patterns, &none, fresh)?;
    Ok(made)
}

// Names that differ, as an environment.
fn env_of(alloc: Global, binds: &[Bind]) -> Result<Env, NoMemory>
    requires { NamesDiffer binds.now }
    ensures { IfOk result (λ e. e ≡ binds.now) }
{
    let mut env = Env::new(alloc);
    for bind in binds {
        env.push(bind.name, bind.var)?;
    }
    Ok(env)
}
