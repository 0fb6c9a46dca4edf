// Each fault by its name.
ghost use Rattle.std.specs.Prelude.{◌≡◌, IfOk};
ghost use Rattle.ef_base.specs.NamedFaults as fault;

use crate::codes::{
    FILE_TOO_LARGE, NO_FILE, NO_MODULE, NOT_BUILT, SYNTAX_ERROR, TOO_DEEP, UNBOUND, UNSAFE,
};
use crate::{Bytes, Fault, NoMemory, Place};
use std::alloc::Global;

// The start of the main file.
const START: Place = Place {
    file: 0,
    line: 1,
    column: 1,
};

impl Fault {
    /// A fault without words.
    pub fn plain(alloc: Global, place: Place, code: u16) -> Fault
        ensures { result ≡ fault.plain place code }
    {
        Fault {
            place,
            code,
            words: Bytes::new(alloc),
        }
    }

    /// A fault that names something.
    pub fn naming(alloc: Global, place: Place, code: u16, words: &[u8]) -> Result<Fault, NoMemory>
        ensures { IfOk result (λ made. made ≡ fault.naming place code words.now) }
    {
        let words = Bytes::from_slice(alloc, words)?;
        Ok(Fault { place, code, words })
    }

    /// The tokens are no spelling.
    pub fn syntax_error(alloc: Global, place: Place) -> Fault
        ensures { result ≡ fault.syntax_error place }
    {
        Fault::plain(alloc, place, SYNTAX_ERROR)
    }

    /// The tokens are a spelling that is nested too deep.
    pub fn too_deep(alloc: Global, place: Place) -> Fault
        ensures { result ≡ fault.too_deep place }
    {
        Fault::plain(alloc, place, TOO_DEEP)
    }

    /// There is no file of the path.
    pub fn no_file(alloc: Global, path: &[u8]) -> Result<Fault, NoMemory>
        ensures { IfOk result (λ made. made ≡ fault.no_file path.now) }
    {
        Fault::naming(alloc, START, NO_FILE, path)
    }

    /// The module attribute lacks.
    pub fn no_module(alloc: Global) -> Fault
        ensures { result ≡ fault.no_module }
    {
        Fault::plain(alloc, START, NO_MODULE)
    }

    /// The tokens spell no module that is built.
    pub fn not_built(alloc: Global) -> Fault
        ensures { result ≡ fault.not_built }
    {
        Fault::plain(alloc, START, NOT_BUILT)
    }

    /// The file is past the limit.
    pub fn file_too_large(alloc: Global) -> Fault
        ensures { result ≡ fault.file_too_large }
    {
        Fault::plain(alloc, START, FILE_TOO_LARGE)
    }

    /// A variable of this name is used that is bound on no way.
    pub fn unbound(alloc: Global, place: Place, name: &str) -> Result<Fault, NoMemory>
        ensures { IfOk result (λ made. made ≡ fault.unbound place name.now) }
    {
        Fault::naming(alloc, place, UNBOUND, name.as_bytes())
    }

    /// A variable of this name is used that is bound on some ways and not on all.
    pub fn unsafe_use(alloc: Global, place: Place, name: &str) -> Result<Fault, NoMemory>
        ensures { IfOk result (λ made. made ≡ fault.unsafe place name.now) }
    {
        Fault::naming(alloc, place, UNSAFE, name.as_bytes())
    }
}
