//! The reading of one epoch, record by record.
//!
//! The data areas of an epoch's files are joined to one stream. A [`Reader`] hands out the record that stands at its
//! place, whole and located in its files, and goes on behind it. It ends at the first place where no record is spelled
//! for the serial of the file that holds the place, whatever stands behind that. It reads ahead, each byte once.
#![tactic(auto)]

mod fault;
mod laws;
mod reader;
mod record;
mod spot;
mod window;

pub use fault::ReadFault;
pub use laws::spots_are_of_files;
pub use reader::{Next, Reader};
pub use spot::FileSpot;

#[cfg(test)]
mod tests;
