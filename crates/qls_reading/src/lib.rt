//! A journal read whole.
//!
//! [`ReadLog::read`] reads all records of a journal's files, tests the damage rules on readings, and hands out the records
//! but the fillers. It writes nothing. [`ReadLog::trim`] makes a log of it, without the files past its reading.
#![tactic(auto)]

mod epoch;
mod fault;
mod groups;
mod laws;
mod log;
mod rules;
mod tally;
mod trim;

pub use fault::LogFault;
pub use laws::other_logs_leave_what_was_read;
pub use log::ReadLog;

#[cfg(test)]
mod tests;
#[cfg(test)]
mod trim_tests;
