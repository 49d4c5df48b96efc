//! The outside in memory: a site that tells all its moments, a script, and serials by counting.
#![tactic(auto)]

mod call;
mod calls;
mod files;
mod images;
mod memory;
mod past;
mod plan;
mod scene;
mod serials;
mod source;

pub use memory::MemSite;
pub use plan::CallKind;
pub use serials::MemSerials;
pub use source::MemSource;

#[cfg(test)]
mod tests;
