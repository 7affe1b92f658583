ghost use Rattle.std.specs.Prelude.{◌≡◌, map, ◌^◌, ◌+◌, ◌*◌, ◌<◌, ◌≤◌, IfOk};
ghost use Rattle.std.specs.List.{range_with_len};
ghost use Rattle.bats_model.specs.Batch.{unit_batch_of, entries_by, identity_entry};

use crate::{Batch, Session};
use std::alloc::{AllocError, Global};

// The numbers from `first` on, `count` of them.
fn numbers_from(alloc: Global, first: u32, count: u32) -> Result<Vec<u32>, AllocError>
    requires { first + count < 2 ^ 32 }
    ensures { IfOk result (λ numbers. numbers.items ≡ map (λ i. first + i) (range_with_len 0 count)) }
{
    let mut numbers = Vec::with_capacity(alloc, count as usize)?;
    for i in 0..count {
        numbers.push(first + i)?;
    }
    Ok(numbers)
}

// The entries of the first `rows` rows of the identity, row after row.
fn identity_entries(alloc: Global, rows: u32, columns: u32) -> Result<Vec<u8>, AllocError>
    requires { (rows ≤ 128) × (1 ≤ columns) × (columns ≤ 32) }
    ensures { IfOk result (λ entries. entries.items ≡ entries_by rows columns identity_entry) }
{
    let count = rows * columns;
    let mut entries = Vec::with_capacity(alloc, count as usize)?;
    for place in 0..count {
        entries.push(u8::from(place / columns == place % columns))?;
    }
    Ok(entries)
}

/// The systematic batch of this number, whose coded packet j is symbol `number * M + j` as it is. `None` comes
/// exactly where the session isn't systematic or `number * M` is at least the number of symbols.
pub fn unit_batch(
    alloc: Global,
    session: &Session,
    number: u32,
) -> Result<Option<Batch>, AllocError>
    ensures { IfOk result (λ found. found ≡ unit_batch_of session.now number) }
{
    let columns = session.m();
    let symbols = session.symbols();
    let first = u64::from(number) * u64::from(columns);
    if !session.systematic() {
        return Ok(None);
    }
    if first >= u64::from(symbols) {
        return Ok(None);
    }
    let first = first as u32;
    let degree = symbols.min(first + u32::from(columns)) - first;
    let contributors = numbers_from(alloc, first, degree)?;
    let entries = identity_entries(alloc, degree, u32::from(columns))?;
    Ok(Some(Batch::of_parts(number, columns, contributors, entries)))
}
