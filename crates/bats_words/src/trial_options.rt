/// What `trial` is asked for: the number from which the file, the seeds and the losses are made, the packets of a batch, the
/// bytes of a symbol, the number of the degree table, the bytes of the file, how many batches the source sends, how many
/// relays stand one behind another, and how many packets of a hundred are lost on each hop.
#[derive(Clone, Copy, Debug, PartialEq, Eq)]
pub struct TrialOptions {
    pub number: u64,
    pub m: u8,
    pub t: u16,
    pub table: u8,
    pub length: u64,
    pub batches: u32,
    pub relays: u32,
    pub loss: u32,
}
