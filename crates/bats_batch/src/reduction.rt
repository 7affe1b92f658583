//! Elimination of one row, of coefficients and factors, by the reduced rows of kept packets.
ghost use Rattle.std.specs.Prelude.{◌≡◌, ◌≢◌, ◌+◌, ◌<◌, ◌≤◌, length, All, MatchOption, slice_index};
ghost use Rattle.gf_core.specs.Bytes.{AreBytes};
ghost use Rattle.gf_core.specs.Rows.{add_scaled_row};
ghost use Rattle.gf_core.specs.Triangular.{AreRows, AreTriangular};
ghost use Rattle.bats_batch.specs.steps.Reduction.{Reduces, IsNormalized, IsLeading};
ghost use Rattle.bats_batch.specs.steps.Entries.{pivots_of, rows_of};

use crate::entry::Entry;
use gf_core::Gf;
use gf_rows::{Steps, axpy, scale};
use std::sync::ledger::Ledger;

// The place of the first byte that isn't 0.
pub(crate) fn first_nonzero(row: &[u8]) -> Option<usize>
    ensures { MatchOption result (All (λ byte. byte ≡ 0) row.now) (IsLeading row.now) }
{
    for (place, byte) in row.iter().enumerate() {
        if *byte != 0 {
            return Some(place);
        }
    }
    None
}

// Adds the multiple of a reduced row, which is 1 at its pivot, that makes the row 0 there. It is one step, or none where
// the row is 0 there already.
fn clear_pivot<C: Ledger>(row: &mut [u8], pivot: usize, reduced: &[u8], coef_steps: &mut Steps<C>)
    requires pivot { pivot < length row.old }
    requires length { length row.old ≡ length reduced.now }
    ensures row { row.new ≡ add_scaled_row row.old (slice_index row.old pivot) reduced.now }
    ensures coef_steps { coef_steps.new ≤ coef_steps.old + 1 }
    ensures coef_steps_rise { coef_steps.old ≤ coef_steps.new }
{
    let factor = row[pivot];
    if factor == 0 {
        return;
    }
    axpy(row, Gf::new(factor), reduced, coef_steps);
}

// Makes the row 0 at the pivots of the reduced rows, one after another. It is at most one step a reduced row.
pub(crate) fn reduce_by<C: Ledger>(entries: &[Entry], row: &mut [u8], coef_steps: &mut Steps<C>)
    requires rows { AreRows (length row.old) (rows_of entries.now) }
    requires triangular { AreTriangular (pivots_of entries.now) (rows_of entries.now) }
    ensures row { Reduces (length row.old) (rows_of entries.now) (pivots_of entries.now) row.old row.new }
    ensures coef_steps { coef_steps.new ≤ coef_steps.old + length entries.now }
    ensures coef_steps_rise { coef_steps.old ≤ coef_steps.new }
{
    for entry in entries {
        clear_pivot(row, entry.pivot, &entry.row, coef_steps);
    }
}

// Makes the row 1 at the pivot, where it isn't 0. It is at most one step.
pub(crate) fn make_one<C: Ledger>(row: &mut [u8], pivot: usize, coef_steps: &mut Steps<C>)
    requires bytes { AreBytes row.old }
    requires pivot { pivot < length row.old }
    requires entry { slice_index row.old pivot ≢ 0 }
    ensures row { IsNormalized pivot row.old row.new }
    ensures coef_steps { coef_steps.new ≤ coef_steps.old + 1 }
    ensures coef_steps_rise { coef_steps.old ≤ coef_steps.new }
{
    let entry = Gf::new(row[pivot]);
    if entry == Gf::ONE {
        return;
    }
    let factor = entry.inv();
    scale(row, factor, coef_steps);
}
