//! What a network is made from.
use bats_model::Items;

/// A list of relay seeds, of 16 bytes each.
pub type Seeds = Items<[u8; 16]>;

/// A list of links. Each is a pair of nodes, and leads from the first to the second.
pub type Links = Items<(u32, u32)>;
