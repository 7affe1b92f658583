//! The payload rows in one buffer, cut into stripes of columns: several workers run a plan on them, each the whole plan on
//! its own stripe. What a plan leaves doesn't depend on the number of workers.
#![tactic(auto)]

mod gate;
mod inside;
mod laws;
mod layout;
mod payload;
mod pieces;
mod stripe;
mod stripes;

pub use gate::{Gate, OpenGate};
pub use laws::{one_replay, whole_rows_are_replayed};
pub use payload::Payload;
