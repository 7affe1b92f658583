//! The commands that play a network: `replay` does the events of a script, and `trial` sends a file that it makes over a
//! chain of relays. Both end as their sink does.
#![tactic(auto)]

mod chain;
mod hops;
mod playing;
mod refusals;
mod replaying;
mod trial_keys;
mod trialing;

pub use replaying::replay;
pub use trialing::trial;
