//! What source, relays and sink speak of: sessions, packets and batches, and the definitions that the whole
//! program is proved against (`specs/`).
#![tactic(auto)]

mod answer;
mod batch;
mod bytes;
mod item;
mod laws;
mod numbers;
mod packet;
mod read_end;
mod session;
mod systematic;
mod taken;

pub use answer::Answer;
pub use batch::Batch;
pub use bytes::Bytes;
pub use item::Item;
pub use laws::{combinations_are_told, each_list_has_an_answer, kept_packets_stand_for_all};
pub use numbers::{Items, Nums};
pub use packet::Packet;
pub use read_end::{HeaderField, ReadEnd};
pub use session::{BadSession, MAX_BATCH_SIZE, MAX_SYMBOL_SIZE, MAX_SYMBOLS, Session};
pub use systematic::unit_batch;
pub use taken::Taken;
