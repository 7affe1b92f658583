//! Plain elimination on rows over the field: some rows are brought to reduced form, and others are cleared beside
//! them. `specs/Reduced.antt` says what the result is.
#![tactic(auto)]

mod dense;
mod laws;
mod progress;
mod rows;

pub use dense::{Dense, reduce};
pub use laws::completed_values_solve;
