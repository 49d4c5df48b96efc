//! From the files of a site to its journals.
//!
//! `scan` lists a site, reads the header of each file in use and groups these files into journals. It answers the
//! damage exactly where one of the rules fails that are seen without reading a record, and then the first of them. It
//! never writes.
#![tactic(auto)]

mod answers;
mod groups;
mod heads;
mod rules;
mod scanning;

pub use answers::{Found, HeadedFile, JournalFiles, ScanFault};
pub use scanning::scan;

#[cfg(test)]
mod tests;
