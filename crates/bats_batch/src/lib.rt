//! The packets of a batch that are kept, those whose coefficient vectors are no combinations of the kept ones before,
//! and the kept packets of all batches.
#![tactic(auto)]

mod basis;
mod combining;
mod entry;
mod held;
mod judged;
mod laws;
mod reduction;
mod slot;

pub use basis::Basis;
pub use held::{Held, HeldEnd, MAX_KEPT};
pub use laws::{contradictions_are_told, held_batches_stand_for_all};
