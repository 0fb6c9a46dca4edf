// The names that every module has, and `module_info/0` and `/1`.
ghost use Rattle.std.specs.Prelude.{◌≡◌, [], ◌∷◌, ◌++◌, IfOk, codes, map};
ghost use Rattle.ef_base.specs.Texts.{AllDiffer, AllUtf8, Extends, IsNameOf, Texts};
ghost use Rattle.ef_core.specs.Plain.{plain, plain_all, plain_def};
ghost use Rattle.ef_core.specs.Tree as c;
ghost use Rattle.ef_core.specs.declared.literal.CoreVar.TheVariants.{Numbered};
ghost use Rattle.ef_lowmod.specs.Info.{AreFixed, info_def, item_def};

use ef_base::{Name, Names, NoMemory};
use ef_core::{CoreDef, CoreExpr, CoreLit, CoreVar, FName};
use std::alloc::Global;

/// The names of `module_info`, `erlang` and `get_module_info`.
#[derive(Clone, Copy, Debug, PartialEq, Eq)]
pub struct Fixed {
    pub module_info: Name,
    pub erlang: Name,
    pub get_module_info: Name,
}

/// The names that every lowered module mentions.
pub fn fixed_names(names: &mut Names) -> Result<Fixed, NoMemory>
    ensures kept { Extends names.old names.new }
    ensures fixed { IfOk result (λ f. (all : Texts) → Extends names.new all → AreFixed all f) }
    ensures differ { IfOk result (λ f. AllDiffer names.new) }
    ensures utf8 { IfOk result (λ f. AllUtf8 names.new) }
{
    let module_info = names.intern("module_info")?;
    let erlang = names.intern("erlang")?;
    let get_module_info = names.intern("get_module_info")?;
    Ok(Fixed {
        module_info,
        erlang,
        get_module_info,
    })
}

/// `module_info/0`.
pub fn info(alloc: Global, fixed: Fixed, module: Name) -> Result<CoreDef, NoMemory>
    ensures { IfOk result (λ d. plain_def d ≡ info_def fixed «module») }
{
    let mut args = Vec::new(alloc);
    args.push(CoreExpr::Lit(CoreLit::Atom(module)))?;
    Ok(CoreDef {
        name: FName {
            name: fixed.module_info,
            arity: 0,
        },
        params: Vec::new(alloc),
        body: call(alloc, fixed, args)?,
    })
}

/// `module_info/1`.
pub fn item(alloc: Global, fixed: Fixed, module: Name) -> Result<CoreDef, NoMemory>
    ensures { IfOk result (λ d. plain_def d ≡ item_def fixed «module») }
{
    let var = CoreVar::Numbered(0);
    let mut params = Vec::new(alloc);
    params.push(var)?;
    let mut args = Vec::new(alloc);
    args.push(CoreExpr::Lit(CoreLit::Atom(module)))?;
    args.push(CoreExpr::Var(var))?;
    Ok(CoreDef {
        name: FName {
            name: fixed.module_info,
            arity: 1,
        },
        params,
        body: call(alloc, fixed, args)?,
    })
}

// A call of `erlang:get_module_info`.
#[tactic(auto, using(ef_core::specs::Laws::plain_laws))]
fn call(alloc: Global, fixed: Fixed, args: Vec<CoreExpr>) -> Result<CoreExpr, NoMemory>
    ensures { IfOk result (λ e. plain e ≡ c.call (c.lit (c.atom fixed.erlang)) (c.lit (c.atom fixed.get_module_info)) (plain_all args.items)) }
{
    let module = Box::new(alloc, CoreExpr::Lit(CoreLit::Atom(fixed.erlang)))?;
    let function = Box::new(alloc, CoreExpr::Lit(CoreLit::Atom(fixed.get_module_info)))?;
    Ok(CoreExpr::Call {
        module,
        function,
        args,
    })
}
