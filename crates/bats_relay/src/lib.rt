//! Relays: they keep the new packets of each batch, and send sums of them, so many for each batch as a rule says.
#![tactic(auto)]

mod laws;
mod mixer;
mod mixing;
mod relay;
mod rule;

pub use laws::{outputs_agree, outputs_come_one_by_one, relayed_packets_agree};
pub use mixer::{MAX_OUTPUTS, Mixer};
pub use relay::Relay;
pub use rule::{Rule, extra_outputs, fixed_outputs};
