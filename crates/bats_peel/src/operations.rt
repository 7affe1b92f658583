//! The row operations of peeling, in the order that was found.
ghost use Rattle.std.specs.Prelude.{ℕ, ◌≡◌, ◌≢◌, ◌<◌, ◌≤◌, ◌+◌, ◌*◌, ◌++◌, true, false, IfOk, OnOk, All, AllPairs, length, map, slice_index, slice_index_or, slice_set};
ghost use Rattle.std.specs.List.{range_with_len};
ghost use Rattle.bats_model.specs.Batch.{degree_of, contributor_of};
ghost use Rattle.bats_model.specs.Peeling.{with_symbols, HasAllSymbols};
ghost use Rattle.bats_batch.specs.Held.{kept_packets, row_count, max_kept};
ghost use Rattle.bats_peel.specs.declared.local.Local.{Local};
ghost use Rattle.bats_peel.specs.declared.peeled.Place.TheVariants.{Row};
ghost use Rattle.bats_peel.specs.Peeled.{IsPeeled, columns_of};
ghost use Rattle.bats_peel.specs.steps.Local.{AreLocals};
ghost use Rattle.bats_peel.specs.steps.Fixing.{IsFixing, IsLocal};
ghost use Rattle.bats_peel.specs.steps.Order.{AreSteps, IsOrder};
ghost use Rattle.bats_peel.specs.steps.Work.{IsWork, GivesPlaces, is_taken, AreDegreesWithin};

use crate::fixing::Fixing;
use crate::local::Local;
use crate::order::{Order, Step};
use crate::peeled::{Peeled, Place, Places};
use crate::terms::{replay, substitute_rows};
use crate::work::{Work, begin, columns_of};
use bats_batch::Held;
use bats_model::{Nums, Session};
use gf_rows::{Matrix, Plan, Steps};
use std::alloc::{AllocError, Global};
use std::sync::ledger::Ledger;

// Gives the symbols that a batch fixes their rows.
fn name_rows(places: &mut [Place], known: &mut [bool], local: &Local, fixing: &Fixing)
    requires known { length known.old ≡ length places.old }
    requires local { IsLocal (length places.old) local.now }
    requires fixing { (k : ℕ) → k < length fixing.now.places → slice_index fixing.now.places k < degree_of local.now.batch }
    requires once { (i k : ℕ) → i < length fixing.now.places → k < length fixing.now.places
        → contributor_of local.now.batch (slice_index fixing.now.places i) ≡ contributor_of local.now.batch (slice_index fixing.now.places k)
        → i ≡ k }
    requires size { length fixing.now.rows ≡ length fixing.now.places }
    requires rows { All (λ r. r < length local.now.matrix.rows) fixing.now.rows }
    requires limit { local.now.first + length local.now.matrix.rows ≤ max_kept }
    ensures { GivesPlaces (length fixing.now.places)
        (λ i. contributor_of local.now.batch (slice_index fixing.now.places i)) (λ i. Row (local.now.first + slice_index fixing.now.rows i))
        places.old known.old places.new known.new }
{
    'names: for i in 0..fixing.places.len() {
        let s = local.batch.contributor(fixing.places.as_slice()[i]) as usize;
        places[s] = Place::Row(local.first + fixing.rows.as_slice()[i]);
        known[s] = true;
    }
}

// Leaves over these rows of a batch whose rows begin at `first`.
fn leave_rows(leftover: &mut Nums, first: u32, rows: &[u32]) -> Result<(), AllocError>
    requires { All (λ r. first + r ≤ max_kept) rows.now }
    ensures { OnOk result (leftover.new ≡ leftover.old ++ map (λ r. first + r) rows.now) }
{
    'rows: for r in rows {
        leftover.push(first + *r)?;
    }
    Ok(())
}

// Leaves over all rows of a batch.
fn leave_all(leftover: &mut Nums, first: u32, count: u32) -> Result<(), AllocError>
    requires { first + count ≤ max_kept }
    ensures { OnOk result (leftover.new ≡ leftover.old ++ map (λ r. first + r) (range_with_len 0 count)) }
{
    'rows: for r in 0..count {
        leftover.push(first + r)?;
    }
    Ok(())
}

// Takes a batch that fixes its contributors which aren't known.
fn take_step<C: Ledger>(
    work: &mut Work,
    held: &Held,
    locals: &[Local],
    place: usize,
    fixing: &Fixing,
    coef_steps: &mut Steps<C>,
) -> Result<(), AllocError>
    requires work { IsWork held.now.session held.now.batches work.old }
    requires locals { AreLocals held.now.session held.now.batches locals.now }
    requires place { place < length locals.now }
    requires taken { is_taken work.old place ≡ false }
    requires fixing { (d : Local) → IsFixing (slice_index_or locals.now place d) work.old.known.items fixing.now }
    ensures work { OnOk result (IsWork held.now.session held.now.batches work.new) }
    ensures columns { OnOk result (work.new.columns ≡ work.old.columns) }
    ensures taken { OnOk result (work.new.taken.items ≡ slice_set work.old.taken.items place true) }
    ensures known { OnOk result ((d : Local) → work.new.known.items
        ≡ with_symbols held.now.session work.old.known.items (slice_index_or locals.now place d).batch.contributors) }
    ensures coef_steps_rise { coef_steps.old ≤ coef_steps.new }
{
    let _limit = held.batches();
    let _kept = held.basis_at(place as u32);
    let local = &locals[place];
    substitute_rows(
        &mut work.matrix,
        &mut work.plan,
        local,
        &work.places,
        &work.known,
        coef_steps,
    )?;
    let count = local.matrix.rows();
    replay(
        &mut work.matrix,
        &mut work.plan,
        local.first,
        count,
        &fixing.plan,
        coef_steps,
    )?;
    name_rows(&mut work.places, &mut work.known, local, fixing);
    leave_rows(&mut work.leftover, local.first, fixing.zero_rows.as_slice())?;
    work.taken[place] = true;
    Ok(())
}

// Takes a batch whose contributors are all known, if it wasn't taken.
fn take_other<C: Ledger>(
    work: &mut Work,
    held: &Held,
    locals: &[Local],
    place: usize,
    coef_steps: &mut Steps<C>,
) -> Result<(), AllocError>
    requires work { IsWork held.now.session held.now.batches work.old }
    requires locals { AreLocals held.now.session held.now.batches locals.now }
    requires place { place < length locals.now }
    requires known { HasAllSymbols held.now.session work.old.known.items }
    ensures work { OnOk result (IsWork held.now.session held.now.batches work.new) }
    ensures columns { OnOk result (work.new.columns ≡ work.old.columns) }
    ensures taken { OnOk result (work.new.taken.items ≡ slice_set work.old.taken.items place true) }
    ensures known { OnOk result (work.new.known.items ≡ work.old.known.items) }
    ensures coef_steps_rise { coef_steps.old ≤ coef_steps.new }
{
    if work.taken[place] {
        return Ok(());
    }
    let _limit = held.batches();
    let _kept = held.basis_at(place as u32);
    let local = &locals[place];
    substitute_rows(
        &mut work.matrix,
        &mut work.plan,
        local,
        &work.places,
        &work.known,
        coef_steps,
    )?;
    leave_all(&mut work.leftover, local.first, local.matrix.rows())?;
    work.taken[place] = true;
    Ok(())
}

// Takes the batches of the steps.
fn take_steps<C: Ledger>(
    work: &mut Work,
    held: &Held,
    locals: &[Local],
    steps: &[Step],
    coef_steps: &mut Steps<C>,
) -> Result<(), AllocError>
    requires work { IsWork held.now.session held.now.batches work.old }
    requires none { (b : ℕ) → b < length held.now.batches → is_taken work.old b ≡ false }
    requires locals { AreLocals held.now.session held.now.batches locals.now }
    requires steps { AreSteps held.now.session locals.now work.old.known.items steps.now }
    requires once { AllPairs (λ a b. a.place ≢ b.place) steps.now }
    ensures work { OnOk result (IsWork held.now.session held.now.batches work.new) }
    ensures columns { OnOk result (work.new.columns ≡ work.old.columns) }
    ensures known { OnOk result (HasAllSymbols held.now.session work.new.known.items) }
    ensures coef_steps_rise { coef_steps.old ≤ coef_steps.new }
{
    'steps: for step in steps {
        take_step(work, held, locals, step.place, &step.fixing, coef_steps)?;
    }
    Ok(())
}

// Takes the batches that no step took.
fn take_others<C: Ledger>(
    work: &mut Work,
    held: &Held,
    locals: &[Local],
    coef_steps: &mut Steps<C>,
) -> Result<(), AllocError>
    requires work { IsWork held.now.session held.now.batches work.old }
    requires locals { AreLocals held.now.session held.now.batches locals.now }
    requires known { HasAllSymbols held.now.session work.old.known.items }
    ensures work { OnOk result (IsWork held.now.session held.now.batches work.new) }
    ensures columns { OnOk result (work.new.columns ≡ work.old.columns) }
    ensures known { OnOk result (work.new.known.items ≡ work.old.known.items) }
    ensures taken { OnOk result ((b : ℕ) → b < length held.now.batches → is_taken work.new b ≡ true) }
    ensures coef_steps_rise { coef_steps.old ≤ coef_steps.new }
{
    'others: for place in 0..locals.len() {
        take_other(work, held, locals, place, coef_steps)?;
    }
    Ok(())
}

/// Does the row operations of an order.
pub(crate) fn operations<C: Ledger>(
    alloc: Global,
    session: &Session,
    held: &Held,
    locals: &[Local],
    order: Order,
    coef_steps: &mut Steps<C>,
) -> Result<Peeled, AllocError>
    requires session { held.now.session ≡ session.now }
    requires locals { AreLocals session.now held.now.batches locals.now }
    requires order { IsOrder session.now locals.now order }
    ensures peeled { IfOk result (IsPeeled session.now (kept_packets held.now.batches)) }
    ensures inactive { IfOk result (λ peeled. peeled.inactive ≡ order.inactive) }
    ensures few { IfOk result (λ peeled. (most : ℕ) → AreDegreesWithin session.now held.now.batches most
        → length peeled.plan ≤ row_count held.now.batches * most) }
    ensures coef_steps_rise { coef_steps.old ≤ coef_steps.new }
{
    let Order { inactive, steps } = order;
    let columns = columns_of(alloc, session, inactive.as_slice())?;
    let mut work = begin(alloc, held, session, columns)?;
    take_steps(&mut work, held, locals, &steps, coef_steps)?;
    take_others(&mut work, held, locals, coef_steps)?;
    let _rule = work.plan.len();
    let Work {
        columns,
        matrix,
        plan,
        places,
        leftover,
        ..
    } = work;
    Ok(Peeled {
        inactive,
        columns,
        plan,
        places: Places { items: places },
        rows: matrix,
        leftover,
    })
}
