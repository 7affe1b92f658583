//! Peeling and its result.
ghost use Rattle.std.specs.Prelude.{◌≡◌, ◌<◌, ◌≤◌, ◌*◌, IfOk, List, length};
ghost use Rattle.bats_model.specs.Peeling.{IsInactiveList, largest_degree};
ghost use Rattle.bats_model.specs.declared.packet.Packet.{Packet};
ghost use Rattle.bats_batch.specs.Held.{StandsFor, kept_packets, row_count};
ghost use Rattle.bats_peel.specs.Peeled.{IsPeeled, place_of};

use crate::local::locals;
use crate::operations::operations;
use crate::order::order_of;
use bats_batch::Held;
use bats_model::{Nums, Session};
use gf_rows::{Matrix, Plan, Steps};
use std::alloc::{AllocError, Global};
use std::marker::Model;
use std::sync::ledger::Ledger;

/// Where a symbol is left.
#[derive(Clone, Copy, Debug, PartialEq, Eq)]
pub enum Place {
    /// In this payload row, up to inactive symbols.
    Row(u32),
    /// In this column: it is inactive.
    Column(u32),
}

/// The place of each symbol.
#[derive(Drop)]
pub struct Places {
    pub(crate) items: Vec<Place>,
}

impl Model for Places {
    ghost use Rattle.std.specs.Prelude.{List};
    ghost use Rattle.bats_peel.specs.declared.peeled.Place.{Place};

    ghost Value = { List Place };

    ghost view = { λ p. p.items.items };
}

impl Places {
    /// The place of symbol `s`.
    pub fn get(&self, s: u32) -> Place
        requires { s < length self.now }
        ensures { result ≡ place_of self.now s }
    {
        self.items[s as usize]
    }
}

/// The kept packets after peeling. A row of the payload, once the plan was run on the payload rows, is its symbol, or 0
/// where it is left over, plus the sum of its entries times the inactive symbols.
#[derive(Drop)]
pub struct Peeled {
    /// The inactive symbols, in the order in which they were made so.
    pub inactive: Nums,
    /// The same in the order of the columns: where the session is padded the last symbol comes at the end.
    pub columns: Nums,
    /// Operations on the payload rows, which are those of the kept packets: by rising batch number and, within a batch, in
    /// the order kept.
    pub plan: Plan,
    /// The place of each symbol.
    pub places: Places,
    /// A row for each payload row, and a column for each inactive symbol.
    pub rows: Matrix,
    /// The payload rows that no symbol is left in.
    pub leftover: Nums,
}

/// Peels the held batches of a session: each batch in turn that fixes its contributors which aren't known makes them known,
/// and where there is none the next symbol is taken as known, which is inactive. `Err` is want of memory.
pub fn peel<C: Ledger>(
    alloc: Global,
    session: &Session,
    held: &Held,
    coef_steps: &mut Steps<C>,
) -> Result<Peeled, AllocError>
    requires { held.now.session ≡ session.now }
    ensures inactive { IfOk result (λ peeled. (packets : List Packet) → StandsFor packets held.now
        → IsInactiveList session.now packets peeled.inactive) }
    ensures peeled { IfOk result (λ peeled. (packets : List Packet) → StandsFor packets held.now
        → IsPeeled session.now (kept_packets held.now.batches) peeled) }
    ensures bound { IfOk result (λ peeled. (packets : List Packet) → StandsFor packets held.now
        → length peeled.plan ≤ row_count held.now.batches * largest_degree session.now packets) }
    ensures coef_steps_rise { coef_steps.old ≤ coef_steps.new }
{
    let locals = locals(alloc, session, held)?;
    let order = order_of(alloc, session, &locals, coef_steps)?;
    let peeled = operations(alloc, session, held, &locals, order, coef_steps)?;
    Ok(peeled)
}
