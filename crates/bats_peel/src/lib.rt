//! Peeling with inactivation: which symbols the kept packets give once some are taken as known, and the row operations
//! that bring it about.
//!
//! Each held batch is a small matrix over its contributors (`local`), which tells whether it fixes those that aren't known
//! (`fixing`). First the order is found: which batches are taken, and which symbols are inactive (`order`). Then come the
//! row operations in that order (`operations`).
#![tactic(auto)]

mod counts;
mod fixing;
mod laws;
mod local;
mod operations;
mod order;
mod peeled;
mod terms;
mod work;

pub use laws::{
    few_packets, fixed_parts, one_inactive_list, one_stuck_set, stuck_sets_go_on, stuck_sets_grow,
};
pub use peeled::{Peeled, Place, Places, peel};
