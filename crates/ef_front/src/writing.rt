// The text of a module, in large pieces.
ghost use Rattle.std.specs.Prelude.{◌≡◌, [], drop, true};
ghost use Rattle.ef_core.specs.Layout.{text_of};
ghost use Rattle.ef_core.specs.OfTable.{CoreModuleOf};
ghost use Rattle.ef_core.specs.Plain.{plain_module};
ghost use Rattle.ef_io.specs.Sink.{HasWriteCause, Stays};
ghost use Rattle.ef_front.specs.Buffered.{HoldsNone, PutsThrough, PutsTold};

use crate::buffered::Buffered;
use ef_base::Names;
use ef_core::CoreModule;
use ef_io::{Failed, Sink};
use ef_print::print;

/// Writes the text of the module into an empty sink, gathered in the buffer. It takes no memory.
pub fn write_module<O: Sink>(
    names: &Names,
    module: &CoreModule,
    sink: &mut O,
    buffer: Vec<u8>,
) -> Result<(), Failed>
    requires is_open { (O.seen sink.old).is_open ≡ true }
    requires holds_none { HoldsNone (O.seen sink.old).written }
    requires named { CoreModuleOf names.now (plain_module «module».now) }
    requires buffer { buffer.items ≡ [] }
    ensures stays { Stays (O.seen sink.old) (O.seen sink.new) }
    ensures puts { PutsTold (O.seen sink.old) (O.seen sink.new) (text_of names.now (plain_module «module».now)) result }
    ensures cause { HasWriteCause (O.seen sink.old) (O.seen sink.new) result }
{
    let mut buffered = Buffered::new(sink, buffer);
    let result = print_through(names, module, &mut buffered);
    let sink = buffered.into_sink();
    // No effect at run time. The proof reads what the sink holds from this use of it.
    let _ = &*sink;
    result
}

// Prints the module and hands on all of it.
fn print_through<O: Sink>(
    names: &Names,
    module: &CoreModule,
    buffered: &mut Buffered<'_, O>,
) -> Result<(), Failed>
    requires is_open { (O.seen buffered.old.sink.now).is_open ≡ true }
    requires named { CoreModuleOf names.now (plain_module «module».now) }
    requires nothing_pending { buffered.old.pending.items ≡ [] }
    ensures same_reference { buffered.new.sink.ghost_name ≡ buffered.old.sink.ghost_name }
    ensures stays { Stays (O.seen buffered.old.sink.now) (O.seen buffered.new.sink.now) }
    ensures puts { PutsThrough (O.seen buffered.old.sink.now) (O.seen buffered.new.sink.now) (drop buffered.new.handed buffered.new.pending.items) (text_of names.now (plain_module «module».now)) result }
    ensures cause { HasWriteCause (O.seen buffered.old.sink.now) (O.seen buffered.new.sink.now) result }
{
    print(names, module, buffered)?;
    buffered.flush()
}
