//! The operations of pending transactions: what each has put and taken in one queue, in order.
#![tactic(auto)]

mod table;
#[cfg(test)]
mod tests;

pub use table::TxnMap;

/// What a transaction did to a message of a queue; the number is the message's record id.
#[derive(Clone, Copy, Debug, PartialEq, Eq, Drop)]
pub enum Op {
    /// It put the message, which stays if it commits.
    Put(u64),
    /// It took the message, which goes if it commits.
    Take(u64),
}
