//! Packet files, both ways: the header record and packet records are written and read, and what is read is refused at
//! its place. The definitions stand in bats_model (`Records`, `PacketFile`, `Refusal`).
#![tactic(auto)]

mod filling;
mod header;
mod laws;
mod reader;
mod records;
mod writing;

pub use header::{header_bytes, read_header};
pub use laws::{
    each_input, header_breaks_no_rule, joined_packet_files, longer_packet_file, one_next_record,
    one_packet_file, one_refusal,
};
pub use reader::Reader;
pub use writing::{WriteFault, write_header, write_packet};
