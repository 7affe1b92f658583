/// What `source` is asked for: the packets of a batch, the bytes of a symbol, the number of the degree table,
/// whether the first batches are systematic, the seed, the number of the first batch, and how many batches.
#[derive(Clone, Copy, Debug, PartialEq, Eq)]
pub struct SourceOptions {
    pub m: u8,
    pub t: u16,
    pub table: u8,
    pub systematic: bool,
    pub seed: [u8; 16],
    pub first: u32,
    pub batches: u32,
}
