//! The commands that solve for the file of packets: `sink` writes it, or says why there is none, and `check` writes what
//! is held of each batch and what the answer is.
#![tactic(auto)]

mod answers;
mod checking;
mod receiving;
mod sinking;

pub use answers::{finish_of, status_of_answer};
pub use checking::check;
pub use sinking::{sink, write_answer};
