//! Whether a payload is a combination of the kept payloads.
ghost use Rattle.std.specs.Prelude.{◌≡◌, ◌↔◌, ◌+◌, ◌≤◌, IfOk, IsTrue, length, replicate};
ghost use Rattle.gf_core.specs.Combinations.{combination};
ghost use Rattle.gf_core.specs.Rows.{add_scaled_row};
ghost use Rattle.gf_core.specs.Triangular.{AreRows};
ghost use Rattle.bats_model.specs.Relay.{payloads_of};
ghost use Rattle.bats_batch.specs.steps.Entries.{offered_packets};

use crate::entry::Entry;
use gf_core::Gf;
use gf_rows::{Steps, axpy};
use std::alloc::AllocError;
use std::sync::ledger::Ledger;

// Adds a multiple of a payload. It is one step, or none where the factor is 0.
fn add_payload<L: Ledger>(sum: &mut [u8], factor: u8, payload: &[u8], steps: &mut Steps<L>)
    requires length { length sum.old ≡ length payload.now }
    ensures row { sum.new ≡ add_scaled_row sum.old factor payload.now }
    ensures steps { steps.new ≤ steps.old + 1 }
    ensures steps_rise { steps.old ≤ steps.new }
{
    if factor == 0 {
        return;
    }
    axpy(sum, Gf::new(factor), payload, steps);
}

// Adds the kept payloads, each times its factor, to a row of zeros. It is at most one step a kept packet.
fn add_payloads<L: Ledger>(entries: &[Entry], factors: &[u8], sum: &mut [u8], steps: &mut Steps<L>)
    requires few { length entries.now ≤ length factors.now }
    requires sizes { AreRows (length sum.old) (payloads_of (offered_packets entries.now)) }
    requires zeros { sum.old ≡ replicate (length sum.old) 0 }
    ensures sum { sum.new ≡ combination (length sum.old) factors.now (payloads_of (offered_packets entries.now)) }
    ensures steps { steps.new ≤ steps.old + length entries.now }
    ensures steps_rise { steps.old ≤ steps.new }
{
    for i in 0..entries.len() {
        add_payload(sum, factors[i], entries[i].packet.payload.as_slice(), steps);
    }
}

// Whether the payload is the sum of the kept payloads, each times its factor. The buffer is for that sum. It is at most
// one step a kept packet.
pub(crate) fn is_combined<L: Ledger>(
    entries: &[Entry],
    factors: &[u8],
    sum: &mut Vec<u8>,
    payload: &[u8],
    steps: &mut Steps<L>,
) -> Result<bool, AllocError>
    requires few { length entries.now ≤ length factors.now }
    requires sizes { AreRows (length payload.now) (payloads_of (offered_packets entries.now)) }
    ensures same { IfOk result (λ same. IsTrue same
        ↔ (combination (length payload.now) factors.now (payloads_of (offered_packets entries.now)) ≡ payload.now)) }
    ensures steps { steps.new ≤ steps.old + length entries.now }
    ensures steps_rise { steps.old ≤ steps.new }
{
    sum.clear();
    sum.resize(payload.len(), 0)?;
    add_payloads(entries, factors, sum, steps);
    Ok(sum.as_slice() == payload)
}
