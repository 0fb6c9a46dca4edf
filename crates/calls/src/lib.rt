//! Calls that no case reaches: the adapters over the system, and what a program over these crates may call.
#![tactic(auto)]

#[cfg(test)]
mod adapters;
#[cfg(test)]
mod steady;
#[cfg(test)]
mod tokens;
#[cfg(test)]
mod trees;
