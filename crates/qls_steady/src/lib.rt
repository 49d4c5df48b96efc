//! Runs where no call fails: over a site, a script and serials in memory that are set to fail nowhere a run comes to its end, but
//! for want of memory, or where a command or the opening meets its end.
//!
//! [`SteadySite`], [`SteadySource`] and [`SteadySerials`] each hold one in memory of which no call is set to fail. None can be set so
//! while they hold it, and so their count of faults is 0 for good. [`run_steadily`] runs a job over them.
#![tactic(auto)]

mod serials;
mod site;
mod source;
mod steady;

pub use serials::SteadySerials;
pub use site::SteadySite;
pub use source::SteadySource;
pub use steady::run_steadily;

#[cfg(test)]
mod tests;
