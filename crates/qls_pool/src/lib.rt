//! Pools of empty files, and the states of a file on its way into use and back.
//!
//! A pool knows every empty file of the site, and hands out the least of a partition and a size, or a new one only where
//! there is none. A file that is taken is blank, then headed, then linked; each move consumes the state before. A file
//! that is given back keeps all its bytes.
#![tactic(auto)]

mod fault;
mod file;
mod laws;
mod pool;
mod pooled;

pub use fault::TakeFault;
pub use file::{Blank, Headed, Linked};
pub use laws::{data_writes_leave_a_file, other_calls_leave_a_file, steps_join};
pub use pool::Pool;
pub use pooled::PooledFile;

#[cfg(test)]
mod tests;
