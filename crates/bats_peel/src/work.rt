//! Where the row operations begin: only the inactive symbols are known, each at its column.
ghost use Rattle.std.specs.Prelude.{ℕ, ◌≡◌, ◌≢◌, ◌<◌, false, IfOk, All, AllPairs, length, slice_index};
ghost use Rattle.bats_model.specs.Session.{symbols_of};
ghost use Rattle.bats_model.specs.Peeling.{set_of};
ghost use Rattle.bats_peel.specs.declared.peeled.Place.TheVariants.{Column};
ghost use Rattle.bats_peel.specs.Peeled.{columns_of};
ghost use Rattle.bats_peel.specs.steps.Work.{IsWork, GivesPlaces, is_taken};

use crate::peeled::Place;
use bats_batch::Held;
use bats_model::{Nums, Session};
use gf_rows::{Matrix, Plan};
use std::alloc::{AllocError, Global};

/// What the operations have come to: the symbols of the columns, the matrix and the plan so far, the place of each symbol
/// that is known, the rows that are left over, and which batches were taken.
#[derive(Drop)]
pub(crate) struct Work {
    pub(crate) columns: Nums,
    pub(crate) matrix: Matrix,
    pub(crate) plan: Plan,
    pub(crate) places: Vec<Place>,
    pub(crate) known: Vec<bool>,
    pub(crate) leftover: Nums,
    pub(crate) taken: Vec<bool>,
}

// A list with these numbers.
fn copy_of(alloc: Global, numbers: &[u32]) -> Result<Nums, AllocError>
    ensures { IfOk result (λ list. list ≡ numbers.now) }
{
    Ok(Nums::from(Vec::from_slice(alloc, numbers)?))
}

/// The inactive symbols in the order of the columns.
pub(crate) fn columns_of(
    alloc: Global,
    session: &Session,
    inactive: &[u32],
) -> Result<Nums, AllocError>
    ensures { IfOk result (λ columns. columns ≡ columns_of session.now inactive.now) }
{
    if !session.padded() || inactive.is_empty() {
        return copy_of(alloc, inactive);
    }
    let mut columns = copy_of(alloc, &inactive[1..])?;
    columns.push(inactive[0])?;
    Ok(columns)
}

// Gives each inactive symbol its column.
fn place_columns(places: &mut [Place], known: &mut [bool], columns: &[u32])
    requires known { length known.old ≡ length places.old }
    requires below { All (λ s. s < length places.old) columns.now }
    requires once { AllPairs (λ a b. a ≢ b) columns.now }
    requires few { length columns.now < 4294967296 }
    ensures { GivesPlaces (length columns.now) (λ j. slice_index columns.now j) (λ j. Column j) places.old known.old places.new known.new }
{
    'columns: for j in 0..columns.len() {
        let s = columns[j] as usize;
        places[s] = Place::Column(j as u32);
        known[s] = true;
    }
}

/// Where the operations begin: only the inactive symbols are known.
pub(crate) fn begin(
    alloc: Global,
    held: &Held,
    session: &Session,
    columns: Nums,
) -> Result<Work, AllocError>
    requires session { held.now.session ≡ session.now }
    requires below { All (λ s. s < symbols_of session.now) columns }
    requires once { AllPairs (λ a b. a ≢ b) columns }
    ensures work { IfOk result (IsWork session.now held.now.batches) }
    ensures columns { IfOk result (λ work. work.columns ≡ columns) }
    ensures none { IfOk result (λ work. (b : ℕ) → b < length held.now.batches → is_taken work b ≡ false) }
    ensures known { IfOk result (λ work. work.known.items ≡ set_of session.now columns) }
{
    let mut places = vec![in alloc; Place::Row(0); session.symbols() as usize]?;
    let mut known = vec![in alloc; false; session.symbols() as usize]?;
    place_columns(&mut places, &mut known, columns.as_slice());
    let matrix = Matrix::zeros(alloc, held.rows(), columns.len() as u32)?;
    let taken = vec![in alloc; false; held.batches() as usize]?;
    Ok(Work {
        columns,
        matrix,
        plan: Plan::new(alloc),
        places,
        known,
        leftover: Nums::new(alloc),
        taken,
    })
}
