//! Laws over journals of any number of epochs: without their oldest file, without files past their reading, and with the files of
//! a later epoch behind them. Each is the contract of a function that does nothing: calling it hands its law to the caller, and its
//! check shows that the law holds.
#![tactic(auto)]

pub mod joins;
pub mod returns;
pub mod trims;
