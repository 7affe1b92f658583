//! A network of honest nodes: a source, relays and a sink, and the events that move packets between them.
#![tactic(auto)]

mod event;
mod laws;
mod link_table;
mod lists;
mod made;
mod relays;
mod world;

pub use event::{Event, WorldEnd};
pub use laws::{events_lead_on, honest_packets_agree};
pub use lists::{Links, Seeds};
pub use made::Made;
pub use world::{MAX_POOL, World, WorldStart};
