//! The two counters of a run, as one value that goes through a walk.
use gf_rows::Steps;
use std::sync::ledger::Ledger;

/// The two counters of a run.
#[derive(Drop)]
pub struct Counters<C: Ledger, L: Ledger> {
    /// The steps of operations on coefficients.
    pub coef_steps: Steps<C>,
    /// The steps of operations on whole payloads.
    pub steps: Steps<L>,
}
