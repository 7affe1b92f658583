//! The commands of the program.

/// What the words of a command line ask for.
#[derive(Clone, Copy, Debug, PartialEq, Eq)]
pub enum Command {
    /// Sends the batches of the file that is read.
    Source {
        /// Packets of a batch.
        m: u8,
        /// Bytes of a symbol.
        t: u16,
        /// The degree table.
        table: u8,
        /// Whether the first batches hold the file's own symbols.
        systematic: bool,
        /// The session's seed.
        seed: [u8; 16],
        /// The number of the first batch.
        first: u32,
        /// How many batches, from the first on.
        batches: u32,
    },
    /// Mixes the packets that are read, batch by batch, and sends the sums.
    Relay {
        /// The relay's seed.
        seed: [u8; 16],
        /// Whether a batch's rank is added to the number of its outputs.
        extra: bool,
        /// How many outputs of each held batch, 0 to 64, beside its rank where that is added.
        count: u32,
    },
    /// Solves for the file of a session from the packets that are read.
    Sink {
        /// How many workers share the solving, 1 to 64.
        workers: u32,
        /// Whether both files are written where two agree.
        both: bool,
    },
    /// Carries out the script of a network that is read, and solves for the file from what comes to its sink.
    Replay {
        /// How many workers share the solving, 1 to 64.
        workers: u32,
        /// Whether both files are written where two agree.
        both: bool,
        /// Whether the packets that were made are written in place of the answer; never beside `both`.
        pool: bool,
    },
    /// Says what the packets that are read give: a line for each held batch, and one for the answer.
    Check {
        /// How many workers share the solving, 1 to 64.
        workers: u32,
    },
    /// Writes a line for each record that is read.
    Show,
    /// Sends a made file through a chain of relays that lose packets, and says whether it can be solved for; reads nothing.
    Trial {
        /// The number from which the file, the seeds and the losses are made.
        number: u64,
        /// Packets of a batch.
        m: u8,
        /// Bytes of a symbol.
        t: u16,
        /// The degree table.
        table: u8,
        /// Bytes of the file, at most 4,096 symbols.
        length: u64,
        /// How many batches the source sends, at most 8,192 packets.
        batches: u32,
        /// How many relays stand one behind another, 0 to 8.
        relays: u32,
        /// How many packets of a hundred are lost on each hop.
        loss: u32,
        /// How many workers share the solving, 1 to 64.
        workers: u32,
    },
    /// Writes what the commands are, and reads nothing.
    Help,
}
