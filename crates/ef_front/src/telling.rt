// What is told on the diagnostic sink, and what is written to the output.
ghost use Rattle.std.specs.Prelude.{◌≡◌, ◌≤◌, ◌++◌, [], true, false, IsUtf8};
ghost use Rattle.ef_io.specs.Sink.{Puts, HasWriteCause, Stays};
ghost use Rattle.ef_io.specs.declared.status.Status.TheVariants as answer;
ghost use Rattle.ef_front.specs.Lines.{memory_line, read_line, write_line};
ghost use Rattle.ef_front.specs.Runs.{EndsWith};
ghost use Rattle.ef_front.specs.Parts.{Tells, Delivers, Produces};
ghost use Rattle.ef_front.specs.Compiled.{IsWritable, text_in};

use crate::compiling::{Lowered, as_text};
use crate::writing::write_module;
use ef_base::Bytes;
use ef_io::{Failed, Output, Sink, Status, put};

pub const USAGE_LINE: &[u8] =
    b"usage: erlfront [-I dir] [-D name[=term]] [--lib app=dir] [-o out] [--check|--core|--gen] file\n";

const MEMORY_LINE: &[u8] = b"erlfront: out of memory\n";

const WRITE_LINE: &[u8] = b"erlfront: write fault\n";

/// The answer where memory ran out: its line is tried once.
pub fn give_up<G: Sink>(diag: &mut G) -> Status
    requires { (G.seen diag.old).is_open ≡ true }
    ensures answers { result ≡ answer.NoMemory }
    ensures stays { Stays (G.seen diag.old) (G.seen diag.new) }
    ensures ends { EndsWith (G.seen diag.old) (G.seen diag.new) [] memory_line }
    ensures count { (G.seen diag.old).faults ≤ (G.seen diag.new).faults }
{
    try_line(diag, MEMORY_LINE);
    Status::NoMemory
}

/// Tries the line of a read fault once.
pub fn try_read_line<G: Sink>(diag: &mut G, path: &[u8])
    requires { (G.seen diag.old).is_open ≡ true }
    ensures stays { Stays (G.seen diag.old) (G.seen diag.new) }
    ensures ends { EndsWith (G.seen diag.old) (G.seen diag.new) [] (read_line path.now) }
    ensures count { (G.seen diag.old).faults ≤ (G.seen diag.new).faults }
{
    let _ = put_three(diag, b"erlfront: ", path, b": read fault\n");
}

/// Tells a text, or the write fault.
#[tactic(auto, using(crate::proofs::Told::ends_after, crate::proofs::Told::rose_on))]
pub fn tell<G: Sink>(diag: &mut G, text: &[u8]) -> Result<(), Failed>
    requires { (G.seen diag.old).is_open ≡ true }
    ensures stays { Stays (G.seen diag.old) (G.seen diag.new) }
    ensures tells { Tells (G.seen diag.old) (G.seen diag.new) text.now result }
{
    match put(diag, text) {
        Ok(()) => Ok(()),
        Err(failed) => {
            try_line(diag, WRITE_LINE);
            Err(failed)
        }
    }
}

/// Creates the output and writes the text, or tells the write fault. It takes no memory.
pub fn deliver<O: Output, G: Sink>(
    out: &Bytes,
    lowered: Lowered,
    output: &mut O,
    diag: &mut G,
) -> Status
    requires utf8 { IsUtf8 out.now }
    requires writable { IsWritable lowered }
    requires closed { (O.seen output.old).is_open ≡ false }
    requires is_open { (G.seen diag.old).is_open ≡ true }
    ensures stays { Stays (G.seen diag.old) (G.seen diag.new) }
    ensures delivers { Delivers out.now (text_in lowered) (O.seen output.old) (O.seen output.new) (G.seen diag.old) (G.seen diag.new) result }
{
    match produce(out, lowered, output) {
        Ok(()) => Status::Written,
        Err(Failed) => {
            try_line(diag, WRITE_LINE);
            Status::WriteFault
        }
    }
}

// Creates the output and writes the text.
fn produce<O: Output>(out: &Bytes, lowered: Lowered, output: &mut O) -> Result<(), Failed>
    requires utf8 { IsUtf8 out.now }
    requires writable { IsWritable lowered }
    requires closed { (O.seen output.old).is_open ≡ false }
    ensures { Produces out.now (text_in lowered) (O.seen output.old) (O.seen output.new) result }
{
    let Lowered {
        names,
        module,
        buffer,
    } = lowered;
    output.create(as_text(out))?;
    write_module(&names, &module, output, buffer)
}

// Tries a line once.
fn try_line<G: Sink>(diag: &mut G, line: &[u8])
    requires { (G.seen diag.old).is_open ≡ true }
    ensures stays { Stays (G.seen diag.old) (G.seen diag.new) }
    ensures ends { EndsWith (G.seen diag.old) (G.seen diag.new) [] line.now }
    ensures count { (G.seen diag.old).faults ≤ (G.seen diag.new).faults }
{
    let _ = put(diag, line);
}

// Writes three texts, one behind another.
#[tactic(auto, using(ef_io::specs::Laws::put_then, ef_io::specs::Laws::put_stops))]
fn put_three<G: Sink>(sink: &mut G, first: &[u8], second: &[u8], third: &[u8]) -> Result<(), Failed>
    requires { (G.seen sink.old).is_open ≡ true }
    ensures stays { Stays (G.seen sink.old) (G.seen sink.new) }
    ensures puts { Puts (G.seen sink.old) (G.seen sink.new) (first.now ++ (second.now ++ third.now)) result }
    ensures cause { HasWriteCause (G.seen sink.old) (G.seen sink.new) result }
{
    put(sink, first)?;
    put(sink, second)?;
    put(sink, third)
}
