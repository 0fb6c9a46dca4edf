// Functions.
ghost use Rattle.std.specs.Prelude.{◌≡◌, ◌+◌, ◌*◌, ◌≤◌, IfOk, IfSome, List, length};
ghost use Rattle.ef_base.specs.Texts.{AllDiffer, AllUtf8, Extends, Texts};
ghost use Rattle.ef_core.specs.declared.literal.FName.{FName};
ghost use Rattle.ef_core.specs.Env.{NamesDiffer};
ghost use Rattle.ef_core.specs.Everywhere.{Each};
ghost use Rattle.ef_core.specs.Fresh.{DrawsAtMost, most_variables, variables_from};
ghost use Rattle.ef_core.specs.Plain.{plain, plain_def};
ghost use Rattle.ef_forms.specs.declared.expr.Clause.{Clause, out-Clause};
ghost use Rattle.ef_forms.specs.Built.{AreSome};
ghost use Rattle.ef_forms.specs.Plain.{plain_all, plain_clauses, plain_function};
ghost use Rattle.ef_forms.specs.Weight.{clauses_weight};
ghost use Rattle.ef_lower.specs.Scope.{HasFunctions};
ghost use Rattle.ef_lowmod.specs.Clauses.{AreReadyClauses, IsLoweredBody};
ghost use Rattle.ef_lowmod.specs.Function.{HasWords, IsLoweredFunction, IsReadyFunction};
ghost use Rattle.ef_lowmod.specs.Parameters as p;
ghost use Rattle.ef_lowpat.specs.Budgets.{variables_per_case};
ghost use Rattle.ef_meaning.specs.Lowers.{KeepsDefinition};

use crate::clauses::case;
use ef_base::{Names, NoMemory};
use ef_core::{CoreDef, CoreExpr, CoreVar, Env, FName, Fresh};
use ef_forms::{Clause, Expr, Function, Node, Tables};
use ef_lower::{closed_body, draw_variables};
use std::alloc::Global;

/// Lowers a function: one clause of different variables and `_` to its body, and others to a case of the parameters.
pub fn lower_function(
    alloc: Global,
    names: &mut Names,
    tables: &Tables,
    function: &Function,
) -> Result<CoreDef, NoMemory>
    requires words { HasWords names.old }
    requires ready { (all : Texts) → Extends names.old all → IsReadyFunction all tables.now.functions.items (plain_function function.now) }
    ensures kept { Extends names.old names.new }
    ensures differ { AllDiffer names.old → AllDiffer names.new }
    ensures utf8 { AllUtf8 names.old → AllUtf8 names.new }
    ensures lowered { IfOk result (λ d. (fs : List FName) → HasFunctions names.new tables.now.functions.items fs → IsLoweredFunction names.new fs (plain_function function.now) (plain_def d)) }
    ensures means { IfOk result (λ d. KeepsDefinition names.new (plain_function function.now) (plain_def d)) }
{
    let mut fresh = Fresh::new();
    let params = draw_variables(alloc, &mut fresh, function.arity as usize)?;
    let body = body(alloc, names, tables, &mut fresh, &function.clauses, &params)?;
    Ok(CoreDef {
        name: FName {
            name: function.name,
            arity: function.arity,
        },
        params,
        body,
    })
}

// The body behind the parameters, which are the variables that were drawn so far.
fn body(
    alloc: Global,
    names: &mut Names,
    tables: &Tables,
    fresh: &mut Fresh,
    clauses: &[Clause],
    params: &[CoreVar],
) -> Result<CoreExpr, NoMemory>
    requires words { HasWords names.old }
    requires some { AreSome (plain_clauses clauses.now) }
    requires ready { (all : Texts) → Extends names.old all → AreReadyClauses all tables.now.functions.items fresh.old (plain_clauses clauses.now) }
    requires params { params.now ≡ variables_from 0 fresh.old }
    requires enough { fresh.old + variables_per_case * clauses_weight (plain_clauses clauses.now) ≤ most_variables }
    ensures kept { Extends names.old names.new }
    ensures differ { AllDiffer names.old → AllDiffer names.new }
    ensures utf8 { AllUtf8 names.old → AllUtf8 names.new }
    ensures lowered { IfOk result (λ e. IsLoweredBody names.new tables.now.functions.items (plain_clauses clauses.now) params.now (plain e)) }
    ensures drawn { IfOk result (λ e. DrawsAtMost (variables_per_case * clauses_weight (plain_clauses clauses.now)) fresh.old fresh.new) }
{
    if let Some(env) = own_names(alloc, clauses, params)? {
        return Ok(closed_body(alloc, names, tables, fresh, &clauses[0].body, env)?);
    }
    Ok(case(alloc, names, tables, fresh, clauses, params)?)
}

// The names of the parameters, where they are those of the one clause.
fn own_names(alloc: Global, clauses: &[Clause], params: &[CoreVar]) -> Result<Option<Env>, NoMemory>
    requires { Each (λ (c : Clause). length (out-Clause c).patterns.items ≡ length params.now) clauses.now }
    ensures { IfOk result (λ o. IfSome o (p.HasOwnNames clauses.now params.now)) }
{
    match clauses {
        [clause] => Ok(names_of(alloc, &clause.patterns, params)?),
        _ => Ok(None),
    }
}

/// The names of patterns that are different variables or `_`, each with the parameter at its place.
pub fn names_of(
    alloc: Global,
    patterns: &[Expr],
    params: &[CoreVar],
) -> Result<Option<Env>, NoMemory>
    requires { length patterns.now ≡ length params.now }
    ensures { IfOk result (λ o. IfSome o (λ env. p.AreParameters (plain_all patterns.now) × (env ≡ p.own_names (plain_all patterns.now) params.now) × NamesDiffer env)) }
{
    let mut env = Env::new(alloc);
    for (place, pattern) in patterns.iter().enumerate() {
        match &pattern.node {
            Node::Var(name) => {
                let None = env.var_of(*name) else {
                    return Ok(None);
                };
                env.push(*name, params[place])?;
            }
            Node::Any => {}
            _ => return Ok(None),
        }
    }
    Ok(Some(env))
}
