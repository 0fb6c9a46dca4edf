// From a file to its module in Core or its faults.
ghost use Rattle.std.specs.Prelude.{◌≡◌, IfOk, IfErr, OnOk, IsUtf8};
ghost use Rattle.ef_front.specs.Compiled.{IsCompiled};
ghost use Rattle.ef_front.specs.Parts.{HasStop, HasSameCount};

use crate::refused::{absent, too_large};
use crate::source::compile_text;
use ef_base::{Bytes, FaultList, Names, NoMemory};
use ef_core::CoreModule;
use ef_io::{ReadRefusal, Sources};
use std::alloc::Global;

/// A module in Core, with the table of its names, and the empty vector that will gather its text.
#[derive(Drop)]
pub struct Lowered {
    pub names: Names,
    pub module: CoreModule,
    pub buffer: Vec<u8>,
}

/// The module in Core of a file without faults, or the faults.
#[derive(Drop)]
pub enum Compiled {
    Module(Lowered),
    Faulty(FaultList),
}

/// Why there is neither.
#[derive(Drop)]
pub enum Stop {
    /// The path that was not read.
    ReadFault(Bytes),
    NoMemory,
}

impl From<NoMemory> for Stop {
    ghost use Rattle.std.specs.Prelude.{◌≡◌};
    ghost use Rattle.ef_front.specs.declared.compiling.Stop.TheVariants.{NoMemory as no_memory};

    ghost from_gives = { λ _ e. e ≡ no_memory };

    fn from(_: NoMemory) -> Self {
        Stop::NoMemory
    }
}

// The most bytes of a file.
const LIMIT: usize = 4_194_304;

/// Reads the file of the path and compiles it.
pub fn compile<S: Sources>(alloc: Global, sources: &mut S, path: &Bytes) -> Result<Compiled, Stop>
    requires { IsUtf8 path.now }
    ensures told { (S.seen sources.new).files ≡ (S.seen sources.old).files }
    ensures compiled { IfOk result (IsCompiled (S.seen sources.old).files path.now) }
    ensures count { OnOk result (HasSameCount (S.seen sources.old) (S.seen sources.new)) }
    ensures stop { IfErr result (HasStop (S.seen sources.old) (S.seen sources.new) path.now) }
{
    let mut source = Vec::new(alloc);
    match sources.read(as_text(path), LIMIT, &mut source) {
        Ok(()) => Ok(compile_text(alloc, &source)?),
        Err(ReadRefusal::Absent) => Ok(Compiled::Faulty(absent(alloc, path)?)),
        Err(ReadRefusal::TooLarge) => Ok(Compiled::Faulty(too_large(alloc)?)),
        Err(ReadRefusal::Failed) => Err(Stop::ReadFault(Bytes::from_slice(
            alloc,
            path.as_slice(),
        )?)),
        Err(ReadRefusal::NoMemory) => Err(Stop::NoMemory),
    }
}

/// The bytes as text.
pub fn as_text(bytes: &Bytes) -> &str
    requires { IsUtf8 bytes.now }
    ensures { result.now ≡ bytes.now }
{
    let Ok(text) = str::from_utf8(bytes.as_slice()) else {
        unreachable!()
    };
    text
}
