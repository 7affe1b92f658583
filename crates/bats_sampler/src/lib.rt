//! The words of a key, and the sampler: the batch of each number, whose degree, contributors and generator are drawn from
//! the words of the batch's key.
#![tactic(auto)]

mod contributors;
mod degree;
mod key;
mod mix;
mod sampler;

pub use key::{key_bytes, key_word};
pub use mix::mix_bytes;
pub use sampler::batch;
