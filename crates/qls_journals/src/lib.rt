//! The open journals of a store: queues and the prepared list, each held live over its log, and the pools of empty files
//! that they share.
//!
//! Journals of earlier openings are read whole and then opened. Each later call of [`Journals`] writes in one journal and
//! leaves all others as they are. What a disk of such journals means is said by the laws.
#![tactic(auto)]

mod cause;
mod journals;
pub mod laws;
mod opening;
mod place;
mod release;

pub use cause::Cause;
pub use journals::Journals;
pub use opening::{Reading, read_all};

#[cfg(test)]
mod opening_tests;
#[cfg(test)]
mod tests;
