//! A store: the plain machine's commands, carried out on queues that are held live over their journals, and the decision of
//! transactions over several queues in the prepared list.
//!
//! [`Store::open`] opens a store over its files: it trims, settles and gives back what an earlier run left. A [`Store`]
//! runs commands one after another. Each has the reply and the effect of the plain machine, all that it wrote
//! is flushed before it is answered, and files that nothing holds any more are back in their pools.
#![tactic(auto)]

mod commands;
mod doubts;
mod ending;
mod ends;
pub mod laws;
mod opening;
mod settling;
mod state;
mod store;
mod transactions;

pub use qls_journals::Cause;
pub use qls_look::OpenFault;
pub use store::{Stepped, Store};

#[cfg(test)]
mod opening_tests;
#[cfg(test)]
mod tests;
