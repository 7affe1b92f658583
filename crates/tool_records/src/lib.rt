//! The records of a packet file in a run: the walk over them, how a run ends whose input is refused, and the writing of
//! records. It knows no command.
#![tactic(auto)]

mod counters;
mod keeping;
mod records;
mod refusals;
mod walking;

pub use counters::Counters;
pub use keeping::{Holder, Keeper, keep_all};
pub use records::{write_header, write_packet};
pub use refusals::{input_refusal, unopened};
pub use walking::{Next, Taker, WalkEnd, walk};
