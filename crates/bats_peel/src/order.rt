//! The order of peeling: which batches are taken, one after another, and which symbols are inactive.
ghost use Rattle.std.specs.Prelude.{◌≡◌, ◌<◌, ◌≤◌, ◌+◌, ◌++◌, ◌∷◌, [], false, true, All, IfOk, OnOk, List, length, slice_set, replicate};
ghost use Rattle.bats_model.specs.Session.{symbols_of};
ghost use Rattle.bats_model.specs.Peeling.{IsInactiveList, first_inactive};
ghost use Rattle.bats_model.specs.declared.packet.Packet.{Packet};
ghost use Rattle.bats_batch.specs.Held.{HeldData, StandsFor};
ghost use Rattle.bats_peel.specs.steps.Local.{AreLocals};
ghost use Rattle.bats_peel.specs.steps.Fixing.{IsLocal};
ghost use Rattle.bats_peel.specs.steps.Search.{marked, AreTested, Tries, Grows};
ghost use Rattle.bats_peel.specs.steps.Order.{IsOrder};

use crate::counts::{batch_counts, next_inactive, unknown_count};
use crate::fixing::{Fixing, fix};
use crate::local::Local;
use bats_model::{Nums, Session};
use gf_rows::Steps;
use std::alloc::{AllocError, Global};
use std::sync::ledger::Ledger;

/// A batch that is taken.
#[derive(Drop)]
pub(crate) struct Step {
    /// Its place among the held batches.
    pub(crate) place: usize,
    /// How it fixes its contributors that weren't known.
    pub(crate) fixing: Fixing,
}

/// The order of peeling.
#[derive(Drop)]
pub(crate) struct Order {
    /// The inactive symbols, in their order.
    pub(crate) inactive: Nums,
    /// The batches that are taken, in their order. None is taken twice.
    pub(crate) steps: Vec<Step>,
}

// What the search has come to.
#[derive(Drop)]
struct Progress {
    // whether each symbol is known
    known: Vec<bool>,
    // the batches taken
    steps: Vec<Step>,
    // for each batch, with how many contributors unknown it was last tested and failed
    tested: Vec<u32>,
}

// Marks the contributors of a batch as known.
fn mark(known: &mut Vec<bool>, local: &Local)
    requires { IsLocal (length known.old.items) local.now }
    ensures { known.new.items ≡ marked known.old.items local.now.batch.contributors }
{
    for k in 0..local.batch.degree() {
        known[local.batch.contributor(k) as usize] = true;
    }
}

// Takes the batch at this place, if it fixes contributors that aren't known. It is passed over where it failed before with as
// many of them unknown.
fn try_batch<C: Ledger>(
    alloc: Global,
    progress: &mut Progress,
    locals: &[Local],
    place: usize,
    coef_steps: &mut Steps<C>,
) -> Result<(), AllocError>
    requires place { place < length locals.now }
    requires locals { All (IsLocal (length progress.old.known.items)) locals.now }
    requires tested { AreTested locals.now progress.old.known.items progress.old.tested.items }
    ensures tries { OnOk result (Tries locals.now place (place + 1) progress.old progress.new) }
    ensures tested { OnOk result (AreTested locals.now progress.new.known.items progress.new.tested.items) }
    ensures coef_steps_rise { coef_steps.old ≤ coef_steps.new }
{
    let local = &locals[place];
    let unknown = unknown_count(local, &progress.known);
    if unknown == progress.tested[place] {
        return Ok(());
    }
    let found = fix(alloc, local, &progress.known, coef_steps)?;
    let Some(fixing) = found else {
        progress.tested[place] = unknown;
        return Ok(());
    };
    progress.steps.push(Step { place, fixing })?;
    mark(&mut progress.known, local);
    Ok(())
}

// Tries each batch once.
fn round<C: Ledger>(
    alloc: Global,
    progress: &mut Progress,
    locals: &[Local],
    coef_steps: &mut Steps<C>,
) -> Result<(), AllocError>
    requires locals { All (IsLocal (length progress.old.known.items)) locals.now }
    requires tested { AreTested locals.now progress.old.known.items progress.old.tested.items }
    ensures tries { OnOk result (Tries locals.now 0 (length locals.now) progress.old progress.new) }
    ensures tested { OnOk result (AreTested locals.now progress.new.known.items progress.new.tested.items) }
    ensures coef_steps_rise { coef_steps.old ≤ coef_steps.new }
{
    'places: for place in 0..locals.len() {
        try_batch(alloc, progress, locals, place, coef_steps)?;
    }
    Ok(())
}

// Goes on until a round takes no batch: what is known is then stuck.
fn grow<C: Ledger>(
    alloc: Global,
    progress: &mut Progress,
    locals: &[Local],
    coef_steps: &mut Steps<C>,
) -> Result<(), AllocError>
    requires locals { All (IsLocal (length progress.old.known.items)) locals.now }
    requires tested { AreTested locals.now progress.old.known.items progress.old.tested.items }
    ensures grows { OnOk result (Grows locals.now progress.old.known.items progress.old.steps.items progress.new) }
    ensures tested { OnOk result (AreTested locals.now progress.new.known.items progress.new.tested.items) }
    ensures coef_steps_rise { coef_steps.old ≤ coef_steps.new }
{
    'rounds: loop {
        let before = progress.steps.len();
        round(alloc, progress, locals, coef_steps)?;
        if progress.steps.len() == before {
            return Ok(());
        }
    }
}

// Makes a symbol inactive, and goes on from there.
fn inactivate<C: Ledger>(
    alloc: Global,
    inactive: &mut Nums,
    progress: &mut Progress,
    symbol: u32,
    locals: &[Local],
    coef_steps: &mut Steps<C>,
) -> Result<(), AllocError>
    requires symbol { symbol < length progress.old.known.items }
    requires locals { All (IsLocal (length progress.old.known.items)) locals.now }
    requires tested { AreTested locals.now progress.old.known.items progress.old.tested.items }
    ensures list { OnOk result (inactive.new ≡ inactive.old ++ symbol ∷ []) }
    ensures grows { OnOk result (Grows locals.now (slice_set progress.old.known.items symbol true)
        progress.old.steps.items progress.new) }
    ensures tested { OnOk result (AreTested locals.now progress.new.known.items progress.new.tested.items) }
    ensures coef_steps_rise { coef_steps.old ≤ coef_steps.new }
{
    inactive.push(symbol)?;
    progress.known[symbol as usize] = true;
    grow(alloc, progress, locals, coef_steps)
}

// Makes the last symbol inactive where the session is padded, and goes on from there.
fn begin<C: Ledger>(
    alloc: Global,
    session: &Session,
    inactive: &mut Nums,
    locals: &[Local],
    coef_steps: &mut Steps<C>,
) -> Result<Progress, AllocError>
    requires empty { inactive.old ≡ [] }
    requires locals { All (IsLocal (symbols_of session.now)) locals.now }
    ensures list { OnOk result (inactive.new ≡ first_inactive session.now) }
    ensures grows { IfOk result (Grows locals.now
        (marked (replicate (symbols_of session.now) false) (first_inactive session.now)) []) }
    ensures tested { IfOk result (λ progress. AreTested locals.now progress.known.items progress.tested.items) }
    ensures coef_steps_rise { coef_steps.old ≤ coef_steps.new }
{
    let symbols = session.symbols();
    let known = vec![in alloc; false; symbols as usize]?;
    let tested = vec![in alloc; 0; locals.len()]?;
    let mut progress = Progress {
        known,
        steps: Vec::new(alloc),
        tested,
    };
    if session.padded() {
        inactivate(
            alloc,
            inactive,
            &mut progress,
            symbols - 1,
            locals,
            coef_steps,
        )?;
        return Ok(progress);
    }
    grow(alloc, &mut progress, locals, coef_steps)?;
    Ok(progress)
}

/// The order of peeling of the held batches of a session.
pub(crate) fn order_of<C: Ledger>(
    alloc: Global,
    session: &Session,
    locals: &[Local],
    coef_steps: &mut Steps<C>,
) -> Result<Order, AllocError>
    requires { All (IsLocal (symbols_of session.now)) locals.now }
    ensures order { IfOk result (IsOrder session.now locals.now) }
    ensures inactive { IfOk result (λ order. (held : HeldData) → held.session ≡ session.now
        → AreLocals session.now held.batches locals.now → (packets : List Packet) → StandsFor packets held
        → IsInactiveList session.now packets order.inactive) }
    ensures coef_steps_rise { coef_steps.old ≤ coef_steps.new }
{
    let symbols = session.symbols();
    let counts = batch_counts(alloc, locals, symbols)?;
    let mut inactive = Nums::new(alloc);
    let mut progress = begin(alloc, session, &mut inactive, locals, coef_steps)?;
    'inactivation: while let Some(symbol) = next_inactive(symbols, &progress.known, &counts) {
        inactivate(
            alloc,
            &mut inactive,
            &mut progress,
            symbol,
            locals,
            coef_steps,
        )?;
    }
    Ok(Order {
        inactive,
        steps: progress.steps,
    })
}
