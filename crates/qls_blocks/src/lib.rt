//! Batches of records, as bytes and over files.
//!
//! A batch starts at a block's end. Its records stand one behind another, with fillers up to the next block's end, and
//! the whole is cut over files where these end. [`Batch::plan`] says which files it takes and what their headers tell,
//! [`Batch::spell`] gives its bytes, [`write_part`] writes the part of one file, and [`sync_parts`] syncs each file.
#![tactic(auto)]

mod batch;
mod entry;
mod laws;
mod parts;
mod plan;
mod spell;

pub use batch::Batch;
pub use laws::batch_over_files;
pub use parts::{sync_parts, write_part};
pub use plan::{FreshFile, Plan};

#[cfg(test)]
mod tests;
