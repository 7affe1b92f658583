//! The command `source`: a file's packets, batch by batch.
#![tactic(auto)]

mod sending;

pub use sending::source;
