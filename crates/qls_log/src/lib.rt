//! One journal as a list of records: made, appended to, and flushed.
//!
//! A [`Log`] takes its files from the pool, writes batches of records behind one another, and syncs what it wrote. What
//! is read of its journal is the records of its batches, fillers included, in order.
#![tactic(auto)]

mod fault;
pub mod laws;
mod log;
mod opening;
mod release;
mod spot;
mod take;
mod trim;
mod write;

pub use fault::LogError;
pub use log::Log;
pub use spot::Spot;

#[cfg(test)]
mod tests;
#[cfg(test)]
mod trim_tests;
