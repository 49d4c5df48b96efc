//! What a store means, seen without writing to it.
//!
//! [`look`] scans a site, reads each journal whole and puts together the state that its files mean.
#![tactic(auto)]

mod fault;
mod list;
mod looking;
mod queue;
mod seen;
mod settle;

pub use fault::OpenFault;
pub use looking::look;

#[cfg(test)]
mod tests;
