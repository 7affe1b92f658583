//! The source's outer code: the coded packets of a file.
#![tactic(auto)]

mod encoder;
mod row;

pub use encoder::{Encoder, OtherLength};
