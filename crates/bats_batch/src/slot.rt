//! The slots of the held batches: looking a batch up, and offering a packet to it.
ghost use Rattle.std.specs.Prelude.{◌≡◌, ◌↔◌, ◌<◌, ◌≤◌, ◌+◌, IsTrue, IsFalse, length, min, IfOk, IfErr, OnOk, OnErr};
ghost use Rattle.std.specs.List.{insert};
ghost use Rattle.gf_rows.specs.Spends.{Spends};
ghost use Rattle.bats_batch.specs.Basis.{IsTaken, kept_with};
ghost use Rattle.bats_batch.specs.Held.{HaveRisingNumbers};
ghost use Rattle.bats_batch.specs.steps.Slots.{batches_in, StandsAt, BelongsAt, AreOf, AreSlots, OffersTo, slots_cost};

use crate::basis::Basis;
use crate::held::HeldEnd;
use bats_model::{Packet, Session, Taken};
use gf_rows::Steps;
use std::alloc::{AllocError, Global};
use std::sync::ledger::Ledger;

// A held batch: its number, and its basis, which has a kept packet.
#[derive(Drop)]
pub(crate) struct Slot {
    pub(crate) number: u32,
    pub(crate) basis: Basis,
}

// Whether the slot at this place is the batch's.
fn stands_at(slots: &[Slot], place: usize, number: u32) -> bool
    ensures { IsTrue result ↔ StandsAt (batches_in slots.now) number place }
{
    match slots.get(place) {
        Some(slot) => slot.number == number,
        None => false,
    }
}

// Whether the batch goes behind the last slot.
fn goes_last(slots: &[Slot], number: u32) -> bool
    requires rising { HaveRisingNumbers (batches_in slots.now) }
    ensures { IsTrue result → BelongsAt (batches_in slots.now) number (length slots.now) }
{
    match slots.last() {
        Some(slot) => slot.number < number,
        None => true,
    }
}

// Where the batch stands, or where it belongs. The place of the last look-up, the next one and the one behind the last
// slot are tried first, and then it is a binary search.
pub(crate) fn place_of(slots: &[Slot], last: usize, number: u32) -> Result<usize, usize>
    requires rising { HaveRisingNumbers (batches_in slots.now) }
    ensures held { IfOk result (StandsAt (batches_in slots.now) number) }
    ensures absent { IfErr result (BelongsAt (batches_in slots.now) number) }
{
    if stands_at(slots, last, number) {
        return Ok(last);
    }
    let next = last.wrapping_add(1);
    if stands_at(slots, next, number) {
        return Ok(next);
    }
    if goes_last(slots, number) {
        return Err(slots.len());
    }
    slots.binary_search_by_key(&number, |slot| slot.number)
}

// Offers a packet to the basis of its batch, which may keep it only where there is room for one more.
fn offer_within<C: Ledger, L: Ledger>(
    basis: &mut Basis,
    has_room: bool,
    packet: &Packet,
    coef_steps: &mut Steps<C>,
    steps: &mut Steps<L>,
) -> Result<Taken, HeldEnd>
    requires coefs { length packet.now.coefs ≡ basis.old.m }
    requires payload { length packet.now.payload ≡ basis.old.t }
    requires own { AreOf packet.now.batch basis.old.kept }
    ensures m { basis.new.m ≡ basis.old.m }
    ensures t { basis.new.t ≡ basis.old.t }
    ensures taken { IfOk result (IsTaken basis.old.kept packet.now) }
    ensures kept { IfOk result (λ taken. basis.new.kept ≡ kept_with basis.old.kept packet.now taken) }
    ensures room { IfOk result (λ taken. taken ≡ Taken.Kept → IsTrue has_room) }
    ensures err { OnErr result (basis.new ≡ basis.old) }
    ensures full { IfErr result (λ e. e ≡ HeldEnd.Full
        → (IsFalse has_room × IsTaken basis.old.kept packet.now Taken.Kept)) }
    ensures coef_steps { Spends coef_steps.old coef_steps.new (min basis.old.m (length basis.old.kept + 1)) }
    ensures steps { Spends steps.old steps.new (min basis.old.m (length basis.old.kept + 1)) }
{
    if has_room {
        return Ok(basis.offer(packet, coef_steps, steps)?);
    }
    match basis.judge(packet, coef_steps, steps)? {
        Taken::Kept => Err(HeldEnd::Full),
        taken => Ok(taken),
    }
}

// Offers a packet to the batch at this place.
fn offer_at<C: Ledger, L: Ledger>(
    slots: &mut [Slot],
    place: usize,
    session: &Session,
    has_room: bool,
    packet: &Packet,
    coef_steps: &mut Steps<C>,
    steps: &mut Steps<L>,
) -> Result<Taken, HeldEnd>
    requires slots { AreSlots session.now slots.old }
    requires place { StandsAt (batches_in slots.old) packet.now.batch place }
    requires coefs { length packet.now.coefs ≡ session.now.m }
    requires payload { length packet.now.payload ≡ session.now.t }
    ensures offers { OffersTo session.now slots.old slots.new has_room packet.now result }
    ensures coef_steps { Spends coef_steps.old coef_steps.new (slots_cost session.now slots.old packet.now) }
    ensures steps { Spends steps.old steps.new (slots_cost session.now slots.old packet.now) }
{
    let slot = &mut slots[place];
    offer_within(&mut slot.basis, has_room, packet, coef_steps, steps)
}

// Makes room for a slot at this place. An `Err` changes nothing.
fn add_at(slots: &mut Vec<Slot>, place: usize, slot: Slot) -> Result<(), AllocError>
    requires { place ≤ length slots.old.items }
    ensures ok { OnOk result (slots.new.items ≡ insert slots.old.items place slot) }
    ensures err { OnErr result (slots.new.items ≡ slots.old.items) }
{
    slots.insert(place, slot)?;
    Ok(())
}

// Offers a packet to a batch that isn't held. It is held from now on, at this place, where the packet is kept.
fn open_at<C: Ledger, L: Ledger>(
    alloc: Global,
    slots: &mut Vec<Slot>,
    place: usize,
    session: &Session,
    has_room: bool,
    packet: &Packet,
    coef_steps: &mut Steps<C>,
    steps: &mut Steps<L>,
) -> Result<Taken, HeldEnd>
    requires slots { AreSlots session.now slots.old.items }
    requires place { BelongsAt (batches_in slots.old.items) packet.now.batch place }
    requires coefs { length packet.now.coefs ≡ session.now.m }
    requires payload { length packet.now.payload ≡ session.now.t }
    ensures offers { OffersTo session.now slots.old.items slots.new.items has_room packet.now result }
    ensures coef_steps { Spends coef_steps.old coef_steps.new (slots_cost session.now slots.old.items packet.now) }
    ensures steps { Spends steps.old steps.new (slots_cost session.now slots.old.items packet.now) }
{
    let mut basis = Basis::new(alloc, session.m(), session.t());
    let taken = offer_within(&mut basis, has_room, packet, coef_steps, steps)?;
    match taken {
        Taken::Kept => {
            let number = packet.batch;
            add_at(slots, place, Slot { number, basis })?;
            Ok(taken)
        }
        _ => Ok(taken),
    }
}

// Offers a packet to its batch, which stands or belongs at this place.
pub(crate) fn offer_to<C: Ledger, L: Ledger>(
    alloc: Global,
    slots: &mut Vec<Slot>,
    place: Result<usize, usize>,
    session: &Session,
    has_room: bool,
    packet: &Packet,
    coef_steps: &mut Steps<C>,
    steps: &mut Steps<L>,
) -> Result<Taken, HeldEnd>
    requires slots { AreSlots session.now slots.old.items }
    requires held { IfOk place (StandsAt (batches_in slots.old.items) packet.now.batch) }
    requires absent { IfErr place (BelongsAt (batches_in slots.old.items) packet.now.batch) }
    requires coefs { length packet.now.coefs ≡ session.now.m }
    requires payload { length packet.now.payload ≡ session.now.t }
    ensures offers { OffersTo session.now slots.old.items slots.new.items has_room packet.now result }
    ensures coef_steps { Spends coef_steps.old coef_steps.new (slots_cost session.now slots.old.items packet.now) }
    ensures steps { Spends steps.old steps.new (slots_cost session.now slots.old.items packet.now) }
{
    match place {
        Ok(place) => offer_at(slots, place, session, has_room, packet, coef_steps, steps),
        Err(place) => open_at(
            alloc, slots, place, session, has_room, packet, coef_steps, steps,
        ),
    }
}
