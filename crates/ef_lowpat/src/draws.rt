// One more variable.
ghost use Rattle.std.specs.Prelude.{◌<◌, Some};
ghost use Rattle.ef_core.specs.Fresh.{Draws, most_variables};

use ef_core::{CoreVar, Fresh};

/// The next variable.
pub fn draw(fresh: &mut Fresh) -> CoreVar
    requires { fresh.old < most_variables }
    ensures { Draws fresh.old fresh.new (Some result) }
{
    let Some(var) = fresh.next() else {
        unreachable!()
    };
    var
}
