/// What happens in a network. Node 0 is the source, the relays follow from 1 on, and the sink is the last node.
#[derive(Clone, Copy, Debug, PartialEq, Eq)]
pub enum Event {
    /// The source makes its coded packet of this column of the batch.
    Send { batch: u32, column: u32 },
    /// The relay makes its next output of the batch.
    Mix { node: u32, batch: u32 },
    /// The packet at this place of the pool, counted from 0, is given to the node. It stays in the pool.
    Give { packet: u32, node: u32 },
}

/// Why an event doesn't take place.
#[derive(Clone, Copy, Debug, PartialEq, Eq)]
pub enum WorldEnd {
    /// Memory ran out.
    Memory,
    /// There is no such node.
    NoNode,
    /// The node is the source or the sink.
    NotARelay,
    /// There is no packet at this place of the pool.
    NoPacket,
    /// No link leads from the packet's maker to the node.
    NoLink,
    /// The relay doesn't hold the batch.
    NothingHeld,
    /// The packet is new to the node, and 8,192 packets are kept there.
    Full,
    /// The column isn't below M.
    ColumnTooLarge,
    /// The pool has 65,536 packets.
    PoolFull,
}
