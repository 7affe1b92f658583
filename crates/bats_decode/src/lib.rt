//! The sink's core: what was received of a file, and what it says of the file.
//!
//! A decoder holds the kept packets. To solve, these are peeled and what is left over is reduced (`elimination`), the plan
//! of that is run on the payload rows (`payload_rows`), and the answer is read off (`answering`).
#![tactic(auto)]

mod answering;
mod decoder;
mod elimination;
mod payload_rows;

pub use decoder::{Decoder, Solved};
