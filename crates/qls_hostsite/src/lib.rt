//! The host: a site of files in a folder with its answers on standard output, a source on standard
//! input, and serials from the system's random numbers.
//!
//! This is the trusted edge. The adapters tell no content, so their clauses speak of counts alone:
//! each call answers an error only where its object's count of faults rose. What they do with real
//! files (which calls of the system, in which order, and what is synced when) is said at each method.
#![tactic(auto)]

mod folders;
mod handles;
mod lock;
mod names;
mod opening;
mod paths;
mod serials;
mod site;
mod source;
mod store;
#[cfg(test)]
mod tests;
mod trouble;

pub use lock::{Locking, StoreFile};
pub use serials::HostSerials;
pub use site::HostSite;
pub use source::HostSource;
