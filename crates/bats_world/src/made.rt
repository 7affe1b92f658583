use bats_model::Packet;

/// A packet of the pool, and the node that made it.
#[derive(Debug, Drop)]
pub struct Made {
    /// The number of the node.
    pub maker: u32,
    /// What it made.
    pub packet: Packet,
}
