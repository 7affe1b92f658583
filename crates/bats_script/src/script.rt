use bats_model::{Bytes, Items, Session};
use bats_world::{Event, Links, Seeds};

/// A list of events, in their order.
pub type Events = Items<Event>;

/// A network's session, file, relays and links, and what happens in it.
#[derive(Debug, Drop)]
pub struct Script {
    /// The session.
    pub session: Session,
    /// The file's bytes, as many as the session says.
    pub file: Bytes,
    /// The seeds of nodes 1, 2 and so on, at most 16.
    pub relay_seeds: Seeds,
    /// At most 256 links, each from a node of 0 to r to a node of 1 to r + 1, where r is the number of relays.
    pub links: Links,
    /// What happens, in this order.
    pub events: Events,
}
