// Expressions that are made of arguments. What can be a literal is one.
ghost use Rattle.std.specs.Prelude.{◌≡◌, ◌≤◌, ◌↔◌, IfOk, IsTrue, Some, length, map, true};
ghost use Rattle.ef_core.specs.declared.literal.CoreVar.{CoreVar};
ghost use Rattle.ef_core.specs.Env.{held};
ghost use Rattle.ef_core.specs.Normal.{AreLits, IsLit};
ghost use Rattle.ef_core.specs.Plain.{lits, plain, plain_all, plain_lit};
ghost use Rattle.ef_core.specs.Tree as c;
ghost use Rattle.ef_core.specs.WellFormed.{IsInRange};
ghost use Rattle.ef_lower.specs.Nodes.{Joins, JoinsTo, literal_values};
ghost use Rattle.ef_lower.specs.Ready.{bound_names};

use ef_base::{Name, NoMemory};
use ef_core::{CoreExpr, CoreLit, Env, FName};
use std::alloc::Global;

/// The literal of an integer, which has its range.
#[tactic(auto, using(ef_core::specs::Laws::plain_laws))]
pub fn integer(value: i128) -> CoreExpr
    ensures literal { plain result ≡ c.lit (c.int value) }
    ensures in_range { IsInRange value }
{
    CoreExpr::Lit(CoreLit::Int(value))
}

/// The literal of an atom.
#[tactic(auto, using(ef_core::specs::Laws::plain_laws))]
pub fn atom(name: Name) -> CoreExpr
    ensures { plain result ≡ c.lit (c.atom name) }
{
    CoreExpr::Lit(CoreLit::Atom(name))
}

/// The variable that holds the value of a name.
#[tactic(auto, using(ef_core::specs::Laws::plain_laws))]
pub fn variable(env: &Env, name: Name) -> CoreExpr
    requires { bound_names env.now name.index ≡ true }
    ensures { (v : CoreVar) × (held env.now name ≡ Some v) × (plain result ≡ c.var v) }
{
    let Some(var) = env.var_of(name) else {
        unreachable!()
    };
    CoreExpr::Var(var)
}

/// An application of a function of the module.
#[tactic(auto, using(ef_core::specs::Laws::plain_laws))]
pub fn apply(alloc: Global, name: Name, args: Vec<CoreExpr>) -> Result<CoreExpr, NoMemory>
    requires { length args.items ≤ 255 }
    ensures { IfOk result (λ e. plain e ≡ c.apply (c.fun_name (record { name = name; arity = length args.items })) (plain_all args.items)) }
{
    let arity = args.len() as u32;
    let target = Box::new(alloc, CoreExpr::FunName(FName { name, arity }))?;
    Ok(CoreExpr::Apply { target, args })
}

/// A call of a function of another module.
#[tactic(auto, using(ef_core::specs::Laws::plain_laws))]
pub fn call(
    alloc: Global,
    module: Name,
    function: Name,
    args: Vec<CoreExpr>,
) -> Result<CoreExpr, NoMemory>
    ensures { IfOk result (λ e. plain e ≡ c.call (c.lit (c.atom «module»)) (c.lit (c.atom function)) (plain_all args.items)) }
{
    let module = Box::new(alloc, CoreExpr::Lit(CoreLit::Atom(module)))?;
    let function = Box::new(alloc, CoreExpr::Lit(CoreLit::Atom(function)))?;
    Ok(CoreExpr::Call {
        module,
        function,
        args,
    })
}

/// A tuple.
#[tactic(auto, using(ef_core::specs::Laws::plain_laws))]
pub fn tuple(alloc: Global, items: Vec<CoreExpr>) -> Result<CoreExpr, NoMemory>
    ensures { IfOk result (λ e. Joins (map plain items.items) (λ ls. c.lit_tuple (lits ls)) (c.tuple (plain_all items.items)) (plain e)) }
{
    if are_literals(&items) {
        return Ok(CoreExpr::Lit(CoreLit::Tuple(literals(alloc, items)?)));
    }
    Ok(CoreExpr::Tuple(items))
}

/// A list without a tail.
#[tactic(auto, using(ef_core::specs::Laws::plain_laws))]
pub fn list(alloc: Global, items: Vec<CoreExpr>) -> Result<CoreExpr, NoMemory>
    ensures { IfOk result (λ e. Joins (map plain items.items) (λ ls. c.lit_list (lits ls)) (c.list (plain_all items.items)) (plain e)) }
{
    if are_literals(&items) {
        let items = literals(alloc, items)?;
        return Ok(CoreExpr::Lit(CoreLit::List { items, tail: None }));
    }
    Ok(CoreExpr::List { items, tail: None })
}

/// A list with a tail, which stands for itself where there are no items.
#[tactic(auto, using(ef_core::specs::Laws::plain_laws))]
pub fn list_to(alloc: Global, items: Vec<CoreExpr>, tail: CoreExpr) -> Result<CoreExpr, NoMemory>
    ensures { IfOk result (λ e. JoinsTo (map plain items.items) (plain tail) (plain e)) }
{
    if items.is_empty() {
        return Ok(tail);
    }
    if is_literal(&tail) && are_literals(&items) {
        let items = literals(alloc, items)?;
        let tail = Some(Box::new(alloc, literal_of(tail))?);
        return Ok(CoreExpr::Lit(CoreLit::List { items, tail }));
    }
    Ok(CoreExpr::List {
        items,
        tail: Some(Box::new(alloc, tail)?),
    })
}

#[tactic(auto, using(ef_core::specs::Laws::plain_laws))]
fn is_literal(expr: &CoreExpr) -> bool
    ensures { IsTrue result ↔ IsLit (plain expr.now) }
{
    matches!(expr, CoreExpr::Lit(_))
}

// Whether all are literals.
fn are_literals(exprs: &[CoreExpr]) -> bool
    ensures { IsTrue result ↔ AreLits (plain_all exprs.now) }
{
    for expr in exprs {
        if !is_literal(expr) {
            return false;
        }
    }
    true
}

// Expressions that are literals, as these.
fn literals(alloc: Global, exprs: Vec<CoreExpr>) -> Result<Vec<CoreLit>, NoMemory>
    requires { AreLits (plain_all exprs.items) }
    ensures { IfOk result (λ ls. map plain exprs.items ≡ literal_values (map plain_lit ls.items)) }
{
    let mut literals = Vec::with_capacity(alloc, exprs.len())?;
    for expr in exprs {
        literals.push(literal_of(expr))?;
    }
    Ok(literals)
}

#[tactic(auto, using(ef_core::specs::Laws::plain_laws))]
fn literal_of(expr: CoreExpr) -> CoreLit
    requires { IsLit (plain expr) }
    ensures { plain expr ≡ c.lit (plain_lit result) }
{
    let CoreExpr::Lit(literal) = expr else {
        unreachable!()
    };
    literal
}
