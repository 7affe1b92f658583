use crate::Bytes;

/// A packet of a batch: with M coefficients and T payload bytes it says that the payload is, in each column, the
/// sum of the coefficients times the bytes of the batch's coded packets.
#[derive(Debug, Drop)]
pub struct Packet {
    /// The number of the batch.
    pub batch: u32,
    /// The coefficient vector, one byte for each of the M coded packets.
    pub coefs: Bytes,
    /// The payload of T bytes.
    pub payload: Bytes,
}
