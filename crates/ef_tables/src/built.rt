// Whether a module is one that is built.
ghost use Rattle.std.specs.Prelude.{◌≡◌, ◌↔◌, ◌∷◌, [], IsTrue, IfOk, MatchOption, map};
ghost use Rattle.ef_base.specs.Texts.{Extends, HasName, Texts};
ghost use Rattle.ef_forms.specs.Built.{AreBuilt, AreBuiltClauses, AreBuiltForms, ArePatterns, Each, IsAtom, IsBuilt, IsBuiltForm, IsBuiltFunction, IsBuiltTree, IsCallOf, IsDefined, IsDistinct, IsForeignModule, IsModuleInfo, IsPattern, defined_in, export_count_in, exports_in, functions_in, functions_of};
ghost use Rattle.ef_forms.specs.OfTable.{ClausesOf, FormOf, FormsOf, FunctionOf, ModuleOf, TreeOf, TreesOf};
ghost use Rattle.ef_forms.specs.Plain.{plain, plain_all, plain_clauses, plain_form, plain_function, plain_module, plain_placed};
ghost use Rattle.ef_forms.specs.Tree.{count};
ghost use Rattle.ef_forms.specs.declared.tables.FunctionName.{FunctionName as TheFunction};
ghost use Rattle.ef_tables.specs.Sets.{function};

use crate::function_set::FunctionSet;
use ef_base::{Name, Names, NoMemory};
use ef_forms::{Clause, Expr, Form, Function, FunctionName, Module, Node, PlacedForm, Tables};
use std::alloc::Global;

/// Whether the module is one that is built: its attributes are `module`, those that are dropped, and one `export`; the
/// functions that it exports and calls are defined in it, nothing is defined or exported twice, `module_info/0` and
/// `module_info/1` are not defined, and no call is of the module `erlang`. Clauses have no guards, each as many patterns
/// as its function has parameters, and a body that isn't empty. Expressions are variables, `_`, integers, atoms, lists,
/// tuples, matches with patterns, calls, and `case` with a clause or more, each of one pattern; patterns are the first
/// six. The tables are those of the module.
pub fn is_built(
    alloc: Global,
    names: &Names,
    module: &Module,
    tables: &Tables,
) -> Result<bool, NoMemory>
    requires names { ModuleOf names.now (plain_module «module».now) }
    requires functions { tables.now.functions.items ≡ defined_in (plain_module «module».now).forms }
    requires exports { tables.now.exports.items ≡ exports_in (plain_module «module».now).forms }
    ensures { IfOk result (λ b. (all : Texts) → Extends names.now all → (IsTrue b ↔ IsBuilt all (plain_module «module».now))) }
{
    let Some(defined) = distinct(alloc, &tables.functions)? else {
        return Ok(false);
    };
    let Some(_exported) = distinct(alloc, &tables.exports)? else {
        return Ok(false);
    };
    if !are_defined(names, &defined, &tables.exports) {
        return Ok(false);
    }
    if count_exports(&module.forms) != 1 {
        return Ok(false);
    }
    Ok(are_built_forms(names, &defined, &module.forms))
}

// The set of these functions, if none stands twice.
fn distinct(alloc: Global, functions: &[FunctionName]) -> Result<Option<FunctionSet>, NoMemory>
    ensures { IfOk result (λ set. MatchOption set (IsDistinct functions.now → ⊥) (λ s. IsDistinct functions.now × (s ≡ functions.now))) }
{
    let mut set = FunctionSet::new(alloc);
    for function in functions {
        if !set.insert(*function)? {
            return Ok(None);
        }
    }
    Ok(Some(set))
}

// Whether the function is one of the module, `module_info/0` and `module_info/1` among them.
fn is_defined(names: &Names, defined: &FunctionSet, name: Name, arity: usize) -> bool
    requires { HasName names.now name }
    ensures { IsTrue result ↔ IsDefined names.now defined.now (function name arity) }
{
    defined.has(name, arity) || is_module_info(names, name, arity)
}

fn is_module_info(names: &Names, name: Name, arity: usize) -> bool
    requires { HasName names.now name }
    ensures { IsTrue result ↔ IsModuleInfo names.now (function name arity) }
{
    arity <= 1 && names.text(name) == "module_info"
}

// Whether all of these functions are.
fn are_defined(names: &Names, defined: &FunctionSet, functions: &[FunctionName]) -> bool
    requires { Each (λ (f : TheFunction). HasName names.now f.name) functions.now }
    ensures { IsTrue result ↔ Each (IsDefined names.now defined.now) functions.now }
{
    for function in functions {
        if !is_defined(names, defined, function.name, function.arity as usize) {
            return false;
        }
    }
    true
}

// How many export attributes there are.
fn count_exports(forms: &[PlacedForm]) -> usize
    ensures { result ≡ export_count_in (map plain_placed forms.now) }
{
    let mut count = 0;
    for placed in forms {
        if let Form::Export(_) = &placed.form {
            count += 1;
        }
    }
    count
}

// Whether the forms are of the kinds that are built, and so are the functions among them.
fn are_built_forms(names: &Names, defined: &FunctionSet, forms: &[PlacedForm]) -> bool
    requires { FormsOf names.now (map plain_placed forms.now) }
    ensures { IsTrue result ↔ (AreBuiltForms (map plain_placed forms.now) × Each (IsBuiltFunction names.now defined.now) (functions_in (map plain_placed forms.now))) }
{
    for placed in forms {
        if !is_built_form(names, defined, placed) {
            return false;
        }
    }
    true
}

fn is_built_form(names: &Names, defined: &FunctionSet, placed: &PlacedForm) -> bool
    requires { FormOf names.now (plain_form placed.now.form) }
    ensures { IsTrue result ↔ (IsBuiltForm (plain_form placed.now.form) × Each (IsBuiltFunction names.now defined.now) (functions_of (plain_form placed.now.form))) }
{
    match &placed.form {
        Form::FunctionOf(function) => is_built_function(names, defined, function),
        Form::ModuleName(_) | Form::Export(_) | Form::Dropped => true,
        _ => false,
    }
}

fn is_built_function(names: &Names, defined: &FunctionSet, function: &Function) -> bool
    requires { FunctionOf names.now (plain_function function.now) }
    ensures { IsTrue result ↔ IsBuiltFunction names.now defined.now (plain_function function.now) }
{
    let arity = function.arity as usize;
    !is_module_info(names, function.name, arity)
        && are_built_clauses(names, defined, arity, &function.clauses)
}

// Whether the clauses have so many patterns each, no guards, and patterns and bodies that are built.
#[cycle(built)]
fn are_built_clauses(names: &Names, defined: &FunctionSet, arity: usize, clauses: &[Clause]) -> bool
    requires { ClausesOf names.now (plain_clauses clauses.now) }
    ensures { IsTrue result ↔ AreBuiltClauses names.now defined.now arity (plain_clauses clauses.now) }
{
    for clause in clauses {
        if !is_built_clause(names, defined, arity, clause) {
            return false;
        }
    }
    true
}

#[cycle(built)]
fn is_built_clause(names: &Names, defined: &FunctionSet, arity: usize, clause: &Clause) -> bool
    requires { ClausesOf names.now (plain_clauses (clause.now ∷ [])) }
    ensures { IsTrue result ↔ AreBuiltClauses names.now defined.now arity (plain_clauses (clause.now ∷ [])) }
{
    if !clause.guard.is_empty() {
        return false;
    }
    if clause.patterns.len() != arity {
        return false;
    }
    if clause.body.is_empty() {
        return false;
    }
    are_patterns(&clause.patterns) && are_built(names, defined, &clause.body)
}

// Whether the expression is a pattern of variables, integers, atoms, lists and tuples.
#[cycle(pattern)]
#[tactic(auto, using(ef_forms::proofs::Plain::laws))]
fn is_pattern(expr: &Expr) -> bool
    ensures { IsTrue result ↔ IsPattern (plain expr.now) }
{
    match &expr.node {
        Node::Int(_) | Node::Atom(_) | Node::Var(_) | Node::Any => true,
        Node::List { items, tail: None } => are_patterns(items),
        Node::List {
            items,
            tail: Some(tail),
        } => are_patterns(items) && is_pattern(tail),
        Node::Tuple(items) => are_patterns(items),
        _ => false,
    }
}

#[cycle(pattern)]
fn are_patterns(exprs: &[Expr]) -> bool
    ensures { IsTrue result ↔ ArePatterns (plain_all exprs.now) }
{
    for expr in exprs {
        if !is_pattern(expr) {
            return false;
        }
    }
    true
}

#[cycle(built)]
#[tactic(auto, using(ef_forms::proofs::Plain::laws))]
fn is_built_expr(names: &Names, defined: &FunctionSet, expr: &Expr) -> bool
    requires { TreeOf names.now (plain expr.now) }
    ensures { IsTrue result ↔ IsBuiltTree names.now defined.now (plain expr.now) }
{
    match &expr.node {
        Node::Int(_) | Node::Atom(_) | Node::Var(_) | Node::Any => true,
        Node::List { items, tail: None } => are_built(names, defined, items),
        Node::List {
            items,
            tail: Some(tail),
        } => are_built(names, defined, items) && is_built_expr(names, defined, tail),
        Node::Tuple(items) => are_built(names, defined, items),
        Node::Match { left, right } => is_pattern(left) && is_built_expr(names, defined, right),
        Node::Call { target, args } => {
            is_call_of(names, defined, target, args) && are_built(names, defined, args)
        }
        Node::Remote {
            module,
            function,
            args,
        } => is_foreign_module(names, module)
            && is_atom(function)
            && are_built(names, defined, args),
        Node::Case { arg, clauses } => {
            if clauses.is_empty() {
                return false;
            }
            is_built_expr(names, defined, arg) && are_built_clauses(names, defined, 1, clauses)
        }
        _ => false,
    }
}

#[cycle(built)]
fn are_built(names: &Names, defined: &FunctionSet, exprs: &[Expr]) -> bool
    requires { TreesOf names.now (plain_all exprs.now) }
    ensures { IsTrue result ↔ AreBuilt names.now defined.now (plain_all exprs.now) }
{
    for expr in exprs {
        if !is_built_expr(names, defined, expr) {
            return false;
        }
    }
    true
}

// Whether the target is an atom that names a function of the module with so many arguments.
fn is_call_of(names: &Names, defined: &FunctionSet, target: &Expr, args: &[Expr]) -> bool
    requires { TreeOf names.now (plain target.now) }
    ensures { IsTrue result ↔ IsCallOf names.now defined.now (plain target.now) (count (plain_all args.now)) }
{
    match &target.node {
        Node::Atom(name) => is_defined(names, defined, *name, args.len()),
        _ => false,
    }
}

// Whether the expression is an atom other than `erlang`.
fn is_foreign_module(names: &Names, module: &Expr) -> bool
    requires { TreeOf names.now (plain «module».now) }
    ensures { IsTrue result ↔ IsForeignModule names.now (plain «module».now) }
{
    match &module.node {
        Node::Atom(name) => names.text(*name) != "erlang",
        _ => false,
    }
}

fn is_atom(function: &Expr) -> bool
    ensures { IsTrue result ↔ IsAtom (plain function.now) }
{
    matches!(&function.node, Node::Atom(_))
}
