//! The words that all crates share: names and their texts, places, faults and want of memory.
#![tactic(auto)]

mod bytes;
pub mod codes;
mod escape;
mod fault;
mod fault_list;
mod front;
mod memory;
mod name;
mod named_faults;
mod names;
mod short_text;
mod words;

pub use bytes::{Bytes, Chars};
pub use escape::{escaped, hex_escape};
pub use fault::{Fault, Place, Refusal};
pub use fault_list::FaultList;
pub use front::{first_char, split_plain};
pub use memory::NoMemory;
pub use name::Name;
pub use names::Names;
pub use short_text::ShortText;
