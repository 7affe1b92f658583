//! The field GF(256) with the polynomial x^8 + x^4 + x^3 + x^2 + 1 (0x11D), whose element x generates the
//! 255 elements other than 0. The definitions stand in specs/Field.antt, and lemmas for the crates above in the
//! files of proofs/ that proofs/Lib.antt marks `pub`.
#![tactic(auto)]

mod element;
pub mod laws;
mod tables;

pub use element::Gf;
