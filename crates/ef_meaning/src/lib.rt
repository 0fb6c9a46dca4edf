//! What modules mean: values, the outside, the meaning of the source and the meaning of Core. All of it is definitions in
//! `specs`; nothing here is executed.
#![tactic(auto)]

mod promises;

pub use promises::{laws, rows};
