//! Replay scripts, and the file of a trial: what a script's text means, and the bytes that a trial's number gives.
#![tactic(auto)]

mod lists;
mod parameters;
mod reading;
mod script;
mod script_end;
mod trial;
mod values;

pub use reading::read_script;
pub use script::{Events, Script};
pub use script_end::{ScriptEnd, ScriptKey};
pub use trial::trial_file;
