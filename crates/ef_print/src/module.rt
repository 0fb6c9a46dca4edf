// Modules.
ghost use Rattle.std.specs.Prelude.{◌≡◌, chars, true, length, flat_map, map};
ghost use Rattle.ef_core.specs.Layout.{attribute_list, attribute_pieces, attributes_pieces, def_pieces, header_pieces, module_pieces, text_of};
ghost use Rattle.ef_core.specs.Lexeme.{HasOneCut};
ghost use Rattle.ef_core.specs.OfTable.{AttributeOf, CoreModuleOf, DefOf, Each};
ghost use Rattle.ef_core.specs.Plain.{plain_attribute, plain_def, plain_module};
ghost use Rattle.ef_core.specs.Readable.{IsReadBack};
ghost use Rattle.ef_io.specs.Sink.{FitsIn, HasWriteCause, Puts, Stays};
ghost use Rattle.ef_print.specs.Prints.{Finished, Prints};

use crate::bytes::write;
use crate::expr::print_def;
use crate::functions::print_fname_list;
use crate::lexeme::{print_atom, print_break, print_symbol, print_word};
use crate::literal::print_lit;
use ef_base::Names;
use ef_core::{CoreAttribute, CoreDef, CoreModule, Last, Symbol, Word};
use ef_io::{Failed, Sink};

/// Prints the module. Where the sink tells its room and the text fits in it, the answer is Ok. Its text is cut into lexemes in
/// one way, and is read as this module.
pub fn print<G: Sink>(names: &Names, module: &CoreModule, sink: &mut G) -> Result<(), Failed>
    requires is_open { (G.seen sink.old).is_open ≡ true }
    requires named { CoreModuleOf names.now (plain_module module.now) }
    ensures stays { Stays (G.seen sink.old) (G.seen sink.new) }
    ensures puts { Puts (G.seen sink.old) (G.seen sink.new) (text_of names.now (plain_module module.now)) result }
    ensures cause { HasWriteCause (G.seen sink.old) (G.seen sink.new) result }
    ensures fits { FitsIn (G.seen sink.old).room (length (text_of names.now (plain_module module.now))) result }
    ensures one_cut { HasOneCut (chars (text_of names.now (plain_module module.now))) }
    ensures read { IsReadBack names.now (plain_module module.now) }
{
    let last = print_module(names, sink, Ok(Last::Start), module);
    let written = finished(last);
    write(sink, written, b"\n")
}

fn finished(so_far: Result<Last, Failed>) -> Result<(), Failed>
    ensures { Finished so_far result }
{
    match so_far {
        Ok(_) => Ok(()),
        Err(failed) => Err(failed),
    }
}

fn print_module<G: Sink>(
    names: &Names,
    sink: &mut G,
    so_far: Result<Last, Failed>,
    module: &CoreModule,
) -> Result<Last, Failed>
    requires is_open { (G.seen sink.old).is_open ≡ true }
    requires named { CoreModuleOf names.now (plain_module module.now) }
    ensures is_open { (G.seen sink.new).is_open ≡ true }
    ensures prints { Prints (G.seen sink.old) so_far (module_pieces names.now (plain_module module.now)) (G.seen sink.new) result }
{
    let so_far = print_header(names, sink, so_far, module);
    let so_far = print_attributes(names, sink, so_far, module);
    let so_far = print_functions(names, sink, so_far, &module.defs);
    let so_far = print_break(so_far);
    print_word(sink, so_far, Word::End)
}

// The name and the exports.
fn print_header<G: Sink>(
    names: &Names,
    sink: &mut G,
    so_far: Result<Last, Failed>,
    module: &CoreModule,
) -> Result<Last, Failed>
    requires is_open { (G.seen sink.old).is_open ≡ true }
    requires named { CoreModuleOf names.now (plain_module module.now) }
    ensures is_open { (G.seen sink.new).is_open ≡ true }
    ensures prints { Prints (G.seen sink.old) so_far (header_pieces names.now (plain_module module.now)) (G.seen sink.new) result }
{
    let so_far = print_word(sink, so_far, Word::Module);
    let so_far = print_atom(names, sink, so_far, module.name);
    let so_far = print_symbol(sink, so_far, Symbol::LeftBracket);
    let so_far = print_fname_list(names, sink, so_far, &module.exports);
    print_symbol(sink, so_far, Symbol::RightBracket)
}

fn print_attributes<G: Sink>(
    names: &Names,
    sink: &mut G,
    so_far: Result<Last, Failed>,
    module: &CoreModule,
) -> Result<Last, Failed>
    requires is_open { (G.seen sink.old).is_open ≡ true }
    requires named { CoreModuleOf names.now (plain_module module.now) }
    ensures is_open { (G.seen sink.new).is_open ≡ true }
    ensures prints { Prints (G.seen sink.old) so_far (attributes_pieces names.now (plain_module module.now)) (G.seen sink.new) result }
{
    let so_far = print_break(so_far);
    let so_far = print_word(sink, so_far, Word::Attributes);
    let so_far = print_symbol(sink, so_far, Symbol::LeftBracket);
    let so_far = print_attribute_list(names, sink, so_far, &module.attributes);
    print_symbol(sink, so_far, Symbol::RightBracket)
}

fn print_attribute_list<G: Sink>(
    names: &Names,
    sink: &mut G,
    so_far: Result<Last, Failed>,
    attributes: &[CoreAttribute],
) -> Result<Last, Failed>
    requires is_open { (G.seen sink.old).is_open ≡ true }
    requires named { Each (AttributeOf names.now) (map plain_attribute attributes.now) }
    ensures is_open { (G.seen sink.new).is_open ≡ true }
    ensures prints { Prints (G.seen sink.old) so_far (attribute_list names.now (map plain_attribute attributes.now)) (G.seen sink.new) result }
{
    match attributes {
        [] => so_far,
        [first, rest @ ..] => {
            let mut so_far = print_attribute(names, sink, so_far, first);
            for attribute in rest {
                so_far = print_symbol(sink, so_far, Symbol::Comma);
                so_far = print_attribute(names, sink, so_far, attribute);
            }
            so_far
        }
    }
}

fn print_attribute<G: Sink>(
    names: &Names,
    sink: &mut G,
    so_far: Result<Last, Failed>,
    attribute: &CoreAttribute,
) -> Result<Last, Failed>
    requires is_open { (G.seen sink.old).is_open ≡ true }
    requires named { AttributeOf names.now (plain_attribute attribute.now) }
    ensures is_open { (G.seen sink.new).is_open ≡ true }
    ensures prints { Prints (G.seen sink.old) so_far (attribute_pieces names.now (plain_attribute attribute.now)) (G.seen sink.new) result }
{
    let so_far = print_atom(names, sink, so_far, attribute.name);
    let so_far = print_symbol(sink, so_far, Symbol::Equals);
    print_lit(names, sink, so_far, &attribute.term)
}

// The functions, each on a line of its own.
fn print_functions<G: Sink>(
    names: &Names,
    sink: &mut G,
    so_far: Result<Last, Failed>,
    defs: &[CoreDef],
) -> Result<Last, Failed>
    requires is_open { (G.seen sink.old).is_open ≡ true }
    requires named { Each (DefOf names.now) (map plain_def defs.now) }
    ensures is_open { (G.seen sink.new).is_open ≡ true }
    ensures prints { Prints (G.seen sink.old) so_far (flat_map (def_pieces names.now) (map plain_def defs.now)) (G.seen sink.new) result }
{
    let mut so_far = so_far;
    for def in defs {
        so_far = print_break(so_far);
        so_far = print_def(names, sink, so_far, def);
    }
    so_far
}
