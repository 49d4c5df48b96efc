//! One queue, held live over its log: its messages as the plain machine has them, and its journal always saying the same.
//!
//! A [`LiveQueue`] puts and takes messages and ends transactions. Each call that writes appends one batch of records to
//! the log and flushes it before it answers; what the records of the journal make is then the queue again.
#![tactic(auto)]

mod ends;
mod fault;
mod heads;
mod live;
mod release;
mod write;

pub use fault::QueueError;
pub use live::LiveQueue;

#[cfg(test)]
mod back_tests;
#[cfg(test)]
mod open_tests;
#[cfg(test)]
mod tests;
