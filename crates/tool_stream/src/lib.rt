//! Commands that write packets or lines as they go through a packet file: `show`, `relay`.
#![tactic(auto)]

mod keeping;
mod relaying;
mod sending;
mod showing;

pub use relaying::relay;
pub use showing::show;
