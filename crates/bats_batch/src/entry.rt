//! The entries of a basis: kept packets, each beside its reduced row.
ghost use Rattle.std.specs.Prelude.{◌≡◌, ◌≢◌, ◌<◌, ◌+◌, ◌≤◌, ◌++◌, length, replicate, slice_set, IfOk, OnOk, OnErr, slice_index};
ghost use Rattle.gf_core.specs.Bytes.{AreBytes};
ghost use Rattle.bats_model.specs.Kept.{packet_row};
ghost use Rattle.bats_batch.specs.steps.Marked.{marked};
ghost use Rattle.bats_batch.specs.steps.Entries.{Keeps};

use crate::reduction::make_one;
use bats_model::{Bytes, Packet};
use gf_rows::Steps;
use std::alloc::{AllocError, Global};
use std::sync::ledger::Ledger;

// A kept packet as it was offered, and beside it its reduced row: M coefficients, 1 at the pivot, and behind them M
// factors. The coefficients are the combination of the kept packets' vectors by these factors, of which number k is
// that of the packet kept as number k.
#[derive(Drop)]
pub(crate) struct Entry {
    pub(crate) packet: Packet,
    pub(crate) pivot: usize,
    pub(crate) row: Vec<u8>,
}

// Makes the buffer the packet's coefficients and as many zeros.
fn write_coefs(row: &mut Vec<u8>, packet: &Packet, m: u8) -> Result<(), AllocError>
    requires { length packet.now.coefs ≡ m }
    ensures row { OnOk result (row.new.items ≡ packet.now.coefs ++ replicate m 0) }
    ensures coef_bytes { OnOk result (AreBytes packet.now.coefs) }
{
    let size = 2 * usize::from(m);
    row.clear();
    row.try_reserve_exact(size)?;
    row.extend_from_slice(packet.coefs.as_slice())?;
    row.resize(size, 0)?;
    Ok(())
}

// Makes the factor with this number 1, if there is one. Behind the coefficients of the row stand as many factors.
fn mark(row: &mut [u8], number: usize, m: u8)
    requires { length row.old ≡ m + m }
    ensures { row.new ≡ slice_set row.old (m + number) 1 }
{
    let m = usize::from(m);
    if number < m {
        row[m + number] = 1;
    }
}

// Makes the buffer the packet's coefficients, and behind them its factors: 1 at its number, and 0 elsewhere.
pub(crate) fn write_row(
    row: &mut Vec<u8>,
    packet: &Packet,
    number: usize,
    m: u8,
) -> Result<(), AllocError>
    requires { length packet.now.coefs ≡ m }
    ensures row { OnOk result (row.new.items ≡ packet_row (marked m number packet.now)) }
    ensures coef_bytes { OnOk result (AreBytes packet.now.coefs) }
{
    write_coefs(row, packet, m)?;
    mark(row, number, m);
    Ok(())
}

fn copy_of(alloc: Global, packet: &Packet) -> Result<Packet, AllocError>
    ensures { IfOk result (λ copy. copy ≡ packet.now) }
{
    let coefs = Bytes::copy_of(alloc, packet.coefs.as_slice())?;
    let payload = Bytes::copy_of(alloc, packet.payload.as_slice())?;
    Ok(Packet {
        batch: packet.batch,
        coefs,
        payload,
    })
}

// Appends an entry of a copy of the packet and of its reduced row, made 1 at the pivot. An `Err` changes no entry.
pub(crate) fn keep<C: Ledger>(
    alloc: Global,
    entries: &mut Vec<Entry>,
    packet: &Packet,
    pivot: usize,
    mut row: Vec<u8>,
    coef_steps: &mut Steps<C>,
) -> Result<(), AllocError>
    requires bytes { AreBytes row.items }
    requires pivot { pivot < length row.items }
    requires entry { slice_index row.items pivot ≢ 0 }
    ensures ok { OnOk result (Keeps entries.old.items entries.new.items packet.now pivot row.items) }
    ensures err { OnErr result (entries.new.items ≡ entries.old.items) }
    ensures coef_steps { coef_steps.new ≤ coef_steps.old + 1 }
    ensures coef_steps_rise { coef_steps.old ≤ coef_steps.new }
{
    let packet = copy_of(alloc, packet)?;
    make_one(&mut row, pivot, coef_steps);
    entries.push(Entry { packet, pivot, row })?;
    Ok(())
}
