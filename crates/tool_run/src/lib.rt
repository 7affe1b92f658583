//! The run of a command: its streams, what it promises of them, how it ends, and the one call that flushes and reports.
//! It knows no command: what is proved here holds of every promise.
#![tactic(auto)]

mod concluding;
mod finish;
mod output;
mod reading;
mod reporting;
mod status;
mod stop;

pub use concluding::conclude;
pub use finish::{Finish, refusal};
pub use output::write_bytes;
pub use reading::read_file;
pub use status::Status;
pub use stop::Stop;
