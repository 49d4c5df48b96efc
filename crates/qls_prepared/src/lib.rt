//! The prepared list, held live over its log: its entries, and its journal always saying the same.
//!
//! A [`PreparedList`] enters transactions, decides them and ends them. Each call appends one batch of records to the log
//! and flushes it before it answers; what the records of the journal make are then the entries again. The list has no file
//! before its first entry.
#![tactic(auto)]

mod enter;
mod entries;
mod list;
mod records;
mod write;

pub use list::PreparedList;

#[cfg(test)]
mod open_tests;
#[cfg(test)]
mod tests;
