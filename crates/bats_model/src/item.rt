use crate::Packet;

/// A record of a packet file, with the offset of its first byte in the file.
#[derive(Debug, Drop)]
pub enum Item {
    /// The header record, or a repeat of it.
    Header {
        /// Bytes of the file before the record.
        at: u64,
    },
    /// A packet record.
    Packet {
        /// Bytes of the file before the record.
        at: u64,
        /// The packet, of M coefficients and T payload bytes.
        packet: Packet,
    },
}
