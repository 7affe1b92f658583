//! The elimination of the kept packets: peeling first, then the reduction of what is left over. It tells which row gives
//! which symbol, and which symbols are free.
ghost use Rattle.std.specs.Prelude.{ℕ, ◌≡◌, ◌≢◌, ◌<◌, ◌≤◌, ◌+◌, ◌*◌, List, IfOk, length, map};
ghost use Rattle.std.specs.List.{range_with_len};
ghost use Rattle.bats_model.specs.Session.{symbols_of};
ghost use Rattle.bats_model.specs.Peeling.{IsInactiveList, largest_degree};
ghost use Rattle.bats_model.specs.declared.packet.Packet.{Packet};
ghost use Rattle.bats_batch.specs.Held.{StandsFor, row_count, kept_packets};
ghost use Rattle.bats_dense.specs.Reduced.{AreSplit};
ghost use Rattle.bats_peel.specs.Peeled.{place_of};
ghost use Rattle.bats_peel.specs.declared.peeled.Place.TheVariants.{Row as OwnRow, Column};
ghost use Rattle.bats_decode.specs.steps.Received.{HasReceived};
ghost use Rattle.bats_decode.specs.steps.Left.{HaveOwnRows, AreOwnRows, HaveColumns, origin_after};
ghost use Rattle.bats_decode.specs.steps.Eliminated.{AreOrigins, IsEliminated};

use bats_batch::Held;
use bats_dense::reduce;
use bats_model::{Nums, Session};
use bats_peel::{Place, Places, peel};
use gf_rows::{Matrix, Plan, Steps};
use std::alloc::{AllocError, Global};
use std::sync::ledger::Ledger;

/// Where the value of a symbol comes from once the plan was run.
#[derive(Clone, Copy, Debug, PartialEq, Eq)]
pub(crate) enum Origin {
    /// From this row, and the free symbols that it takes from.
    Row(u32),
    /// From nowhere: it is the free symbol of this number.
    Free(u32),
}

/// The kept packets after elimination. The row of a symbol, once the plan was run on the payload rows, is the symbol plus
/// the sum of the row's entries times the free symbols.
#[derive(Drop)]
pub(crate) struct Elimination {
    /// A row for each kept packet, and a column for each inactive symbol.
    pub(crate) matrix: Matrix,
    /// The operations on the payload rows.
    pub(crate) plan: Plan,
    /// The origin of each symbol.
    pub(crate) origins: Vec<Origin>,
    /// The matrix column of each free symbol.
    pub(crate) free: Nums,
    /// The rows that no symbol is left in, which have to be 0 once the plan was run.
    pub(crate) zero_rows: Nums,
}

// The rows of the symbols that peeling gave one.
fn own_rows(alloc: Global, symbols: u32, left: &Places) -> Result<Nums, AllocError>
    requires count { length left.now ≡ symbols }
    requires once { HaveOwnRows symbols left.now }
    ensures { IfOk result (AreOwnRows symbols left.now) }
{
    let mut rows = Nums::new(alloc);
    'symbols: for s in 0..symbols {
        match left.get(s) {
            Place::Row(r) => rows.push(r)?,
            Place::Column(_) => {}
        }
    }
    Ok(rows)
}

// The origins of the columns' symbols: at each pivot column its row, and at each free column its number among these.
fn column_origins(
    alloc: Global,
    columns: u32,
    pivot_rows: &[u32],
    pivot_columns: &[u32],
    free: &[u32],
) -> Result<Vec<Origin>, AllocError>
    requires sizes { length pivot_rows.now ≡ length pivot_columns.now }
    requires split { AreSplit columns pivot_columns.now free.now }
    ensures { IfOk result (λ origins. AreOrigins columns pivot_rows.now pivot_columns.now free.now origins.items) }
{
    let mut origins = vec![in alloc; Origin::Row(0); columns as usize]?;
    'pivots: for (i, column) in pivot_columns.iter().enumerate() {
        origins[*column as usize] = Origin::Row(pivot_rows[i]);
    }
    'columns: for (i, column) in free.iter().enumerate() {
        origins[*column as usize] = Origin::Free(i as u32);
    }
    Ok(origins)
}

// The origin of a symbol that peeling left here, by the origins of the columns' symbols.
fn origin_of(columns: &[Origin], left: Place) -> Origin
    requires { (j : ℕ) → left ≡ Column j → j < length columns.now }
    ensures { result ≡ origin_after columns.now left }
{
    match left {
        Place::Row(r) => Origin::Row(r),
        Place::Column(j) => columns[j as usize],
    }
}

// The origins of the symbols.
fn origins_of(
    alloc: Global,
    symbols: u32,
    left: &Places,
    columns: &[Origin],
) -> Result<Vec<Origin>, AllocError>
    requires count { length left.now ≡ symbols }
    requires columns { HaveColumns symbols (length columns.now) left.now }
    ensures { IfOk result (λ origins. origins.items
        ≡ map (λ s. origin_after columns.now (place_of left.now s)) (range_with_len 0 symbols)) }
{
    let mut origins = Vec::new(alloc);
    'symbols: for s in 0..symbols {
        origins.push(origin_of(columns, left.get(s)))?;
    }
    Ok(origins)
}

/// Eliminates the kept packets: peels them, and reduces the rows that are left over. The rows of the other symbols are
/// made 0 at the pivot columns. Each operation stands in the plan.
pub(crate) fn eliminate<C: Ledger>(
    alloc: Global,
    session: &Session,
    held: &Held,
    coef_steps: &mut Steps<C>,
) -> Result<Elimination, AllocError>
    requires session { held.now.session ≡ session.now }
    requires received { HasReceived held.now }
    ensures eliminated { IfOk result (IsEliminated session.now (kept_packets held.now.batches)) }
    ensures inactive { IfOk result (λ e. (packets : List Packet) → StandsFor packets held.now
        → (list : List ℕ) × (IsInactiveList session.now packets list × (e.matrix.cols ≡ length list))) }
    ensures bound { IfOk result (λ e. (packets : List Packet) → StandsFor packets held.now → length e.plan
        ≤ row_count held.now.batches * (largest_degree session.now packets + e.matrix.cols)) }
    ensures coef_steps_rise { coef_steps.old ≤ coef_steps.new }
{
    let symbols = session.symbols();
    let peeled = peel(alloc, session, held, coef_steps)?;
    let others = own_rows(alloc, symbols, &peeled.places)?;
    let count = peeled.rows.cols();
    let dense = reduce(
        alloc,
        peeled.rows,
        peeled.leftover,
        others,
        peeled.plan,
        coef_steps,
    )?;
    let columns = column_origins(
        alloc,
        count,
        dense.pivot_rows.as_slice(),
        dense.pivot_columns.as_slice(),
        dense.free.as_slice(),
    )?;
    let origins = origins_of(alloc, symbols, &peeled.places, &columns)?;
    Ok(Elimination {
        matrix: dense.matrix,
        plan: dense.plan,
        origins,
        free: dense.free,
        zero_rows: dense.zero_rows,
    })
}
