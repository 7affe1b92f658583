//! What holds between commands: laws on the endings that they promise, as functions with empty bodies.
#![tactic(auto)]

mod laws;

pub use laws::{
    check_ends_as_sink_does, one_ending, relay_sends_what_agrees, sink_after_source,
    sink_gives_a_file_sent_whole, sink_gives_the_file_that_agrees, sink_gives_what_source_sends,
    source_sends_a_packet_file,
};
