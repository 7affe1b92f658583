use bats_model::{Bytes, Items, Packet, Session};
use gf_rows::Matrix;

/// The listed packets of a certificate.
pub type Packets = Items<Packet>;

/// What a certificate shows, with what shows it. Each row of factors has a byte for each listed packet.
#[derive(Debug, Drop)]
pub enum Body {
    /// The one file that agrees: the file, and for each symbol a row of factors, whose sum of the packets gives the symbol.
    One {
        file: Bytes,
        rows: Matrix,
    },
    /// Two files that agree and differ in a symbol, and for each symbol below it a row of factors, whose sum of the packets
    /// gives the symbol.
    Two {
        at_symbol: u32,
        first: Bytes,
        second: Bytes,
        rows: Matrix,
    },
    /// No file agrees: factors whose sum of the packets takes nothing from any symbol, and still isn't 0 in a column.
    Zero {
        column: u16,
        factors: Bytes,
    },
}

/// A session, packets that were received in it, and what they say of the file, with what shows it.
#[derive(Debug, Drop)]
pub struct Certificate {
    pub session: Session,
    pub packets: Packets,
    pub body: Body,
}
