//! What a packet is judged to be: new, or one that follows from the kept packets, or one that contradicts them.
ghost use Rattle.std.specs.Prelude.{◌≡◌, ◌+◌, ◌≤◌, All, IfOk, OnOk, MatchOption, length, take};
ghost use Rattle.gf_core.specs.Bytes.{AreBytes};
ghost use Rattle.gf_core.specs.Triangular.{AreRows, AreTriangular};
ghost use Rattle.bats_model.specs.Kept.{packet_row};
ghost use Rattle.bats_batch.specs.steps.Marked.{marked};
ghost use Rattle.bats_batch.specs.steps.IsBasis.{IsBasis};
ghost use Rattle.bats_batch.specs.steps.Reduction.{Reduces, IsLeading};
ghost use Rattle.bats_batch.specs.steps.Entries.{offered_packets, pivots_of, rows_of};
ghost use Rattle.bats_batch.specs.steps.Verdicts.{IsJudged};
ghost use Rattle.bats_batch.specs.Basis.{IsSized};

use crate::combining::is_combined;
use crate::entry::{Entry, write_row};
use crate::reduction::{first_nonzero, reduce_by};
use bats_model::Packet;
use gf_rows::Steps;
use std::alloc::AllocError;
use std::sync::ledger::Ledger;

// What becomes of a packet, with the place of the first coefficient that is left of a new one.
#[derive(Clone, Copy)]
pub(crate) enum Judged {
    New(usize),
    Dependent,
    Contradiction,
}

// Makes the buffer the packet's row, reduced by the entries. It gives the place of the first coefficient that is left.
fn reduce_packet<C: Ledger>(
    entries: &[Entry],
    row: &mut Vec<u8>,
    packet: &Packet,
    m: u8,
    coef_steps: &mut Steps<C>,
) -> Result<Option<usize>, AllocError>
    requires coefs { length packet.now.coefs ≡ m }
    requires rows { AreRows (m + m) (rows_of entries.now) }
    requires triangular { AreTriangular (pivots_of entries.now) (rows_of entries.now) }
    ensures coef_bytes { OnOk result (AreBytes packet.now.coefs) }
    ensures reduced { OnOk result (Reduces (m + m) (rows_of entries.now) (pivots_of entries.now)
        (packet_row (marked m (length entries.now) packet.now)) row.new.items) }
    ensures place { IfOk result (λ place. MatchOption place (All (λ byte. byte ≡ 0) (take m row.new.items))
        (IsLeading (take m row.new.items))) }
    ensures coef_steps { coef_steps.new ≤ coef_steps.old + length entries.now }
    ensures coef_steps_rise { coef_steps.old ≤ coef_steps.new }
{
    write_row(row, packet, entries.len(), m)?;
    reduce_by(entries, row, coef_steps);
    Ok(first_nonzero(&row[..usize::from(m)]))
}

// Judges a packet. The buffers are for its reduced row, which is left in the first, and for a sum of payloads.
pub(crate) fn judge_packet<C: Ledger, L: Ledger>(
    entries: &[Entry],
    row: &mut Vec<u8>,
    sum: &mut Vec<u8>,
    packet: &Packet,
    m: u8,
    coef_steps: &mut Steps<C>,
    steps: &mut Steps<L>,
) -> Result<Judged, AllocError>
    requires coefs { length packet.now.coefs ≡ m }
    requires basis { IsBasis m (length packet.now.payload) (offered_packets entries.now) (pivots_of entries.now)
        (rows_of entries.now) }
    ensures sized { OnOk result (IsSized m (length packet.now.payload) packet.now) }
    ensures judged { IfOk result (IsJudged m entries.now packet.now row.new.items) }
    ensures coef_steps { coef_steps.new ≤ coef_steps.old + length entries.now }
    ensures steps { steps.new ≤ steps.old + length entries.now }
    ensures coef_steps_rise { coef_steps.old ≤ coef_steps.new }
    ensures steps_rise { steps.old ≤ steps.new }
{
    let payload = packet.payload.as_slice();
    let place = reduce_packet(entries, row, packet, m, coef_steps)?;
    if let Some(place) = place {
        return Ok(Judged::New(place));
    }
    let factors = &row[usize::from(m)..];
    if is_combined(entries, factors, sum, payload, steps)? {
        return Ok(Judged::Dependent);
    }
    Ok(Judged::Contradiction)
}
