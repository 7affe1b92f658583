//! Operations on rows of bytes over GF(256), each byte an element: sums of multiples of rows, plans of such
//! operations, and matrices. The definitions stand in specs/, and lemmas for the crates above in the files of
//! proofs/ that proofs/Lib.antt marks `pub`.
#![tactic(auto)]

mod halves;
mod inside;
mod kernels;
mod lanes;
mod matrix;
mod multiple;
mod operation;
mod plain;
mod plan;
mod rounds;
mod steps;

pub use kernels::{add_four, add_scaled, axpy, dot, scale, scale_row};
pub use matrix::Matrix;
pub use multiple::Multiple;
pub use operation::Op;
pub use plan::Plan;
pub use steps::Steps;
