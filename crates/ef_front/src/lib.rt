//! The top call: from the words of a command line to the printed faults of a module or to its written text.
#![tactic(auto)]

mod buffered;
mod compiling;
mod faults;
mod job;
mod left_out;
mod listing;
mod refused;
mod sizes;
mod source;
mod telling;
mod top;
mod writing;

pub use compiling::{Compiled, Lowered};
pub use source::{compile_text, take_forms};
pub use telling::give_up;
pub use top::erlfront;
