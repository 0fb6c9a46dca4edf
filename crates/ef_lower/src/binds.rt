// Names that are bound, one after another.
ghost use Rattle.std.specs.Prelude.{◌≡◌, ◌+◌, ◌≤◌, ◌++◌, OnOk, None, length};
ghost use Rattle.ef_core.specs.Env.{NamesDiffer, held};
ghost use Rattle.ef_core.specs.Everywhere.{Each};
ghost use Rattle.ef_core.specs.Fresh.{most_variables};
ghost use Rattle.ef_meaning.specs.Cases.{names_of};
ghost use Rattle.ef_meaning.specs.Lowers.{env_from, params_from};

use ef_base::NoMemory;
use ef_core::{Bind, CoreVar, Env, Fresh};
use ef_lowpat::draw;

/// These names are bound now, to their variables.
pub fn bind_all(binds: &[Bind], env: &mut Env) -> Result<(), NoMemory>
    requires differ { NamesDiffer binds.now }
    requires new { Each (λ b. held env.old b.name ≡ None) binds.now }
    ensures { OnOk result (env.new ≡ env.old ++ binds.now) }
{
    for bind in binds {
        env.push(bind.name, bind.var)?;
    }
    Ok(())
}

/// These names are bound now, to variables that are drawn for them and go behind others.
pub fn rename(
    vars: &mut Vec<CoreVar>,
    binds: &[Bind],
    env: &mut Env,
    fresh: &mut Fresh,
) -> Result<(), NoMemory>
    requires differ { NamesDiffer binds.now }
    requires new { Each (λ b. held env.old b.name ≡ None) binds.now }
    requires enough { fresh.old + length binds.now ≤ most_variables }
    ensures drawn { OnOk result (fresh.new ≡ fresh.old + length binds.now) }
    ensures vars { OnOk result (vars.new.items ≡ vars.old.items ++ params_from fresh.old (names_of binds.now)) }
    ensures bound { OnOk result (env.new ≡ env.old ++ env_from fresh.old (names_of binds.now)) }
{
    for bind in binds {
        let var = draw(fresh);
        env.push(bind.name, var)?;
        vars.push(var)?;
    }
    Ok(())
}
