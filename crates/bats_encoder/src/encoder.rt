ghost use Rattle.std.specs.Prelude.{◌≡◌, ◌≢◌, ℕ, ◌+◌, ◌*◌, ◌/◌, ◌^◌, ◌<◌, ◌≤◌, ◌↔◌, length, slice_index, IfOk, IfErr, IsErr, IsOk};
ghost use Rattle.bats_model.specs.Batch.{batch_of, contributor_of, degree_of, entry_of};
ghost use Rattle.bats_encoder.specs.Terms.{HasTerms};
ghost use Rattle.bats_model.specs.Symbol.{symbol_byte};
ghost use Rattle.bats_model.specs.Coded.{coded_payload, unit_vector};
ghost use Rattle.bats_model.specs.Agreement.{Agrees};

use crate::row::{add_four_symbols, add_symbol};
use bats_model::{Batch, Bytes, Packet, Session};
use gf_core::Gf;
use gf_rows::Multiple;
use std::alloc::{AllocError, Global};
use std::marker::Model;

/// A file whose length isn't the one that the session declares. Both count bytes.
#[derive(Clone, Copy, Debug, PartialEq, Eq)]
pub struct OtherLength {
    pub found: u64,
    pub declared: u64,
}

/// A session and its file, from which coded packets are made.
#[derive(Drop)]
pub struct Encoder {
    alloc: Global,
    session: Session,
    file: Bytes,
}

impl Model for Encoder {
    ghost use Rattle.std.specs.Prelude.{◌≡◌, length};
    ghost use Rattle.bats_encoder.specs.Encoder.{EncoderData};

    ghost Value = { EncoderData };

    ghost view = { λ e. record { session = e.session; file = e.file } };

    ghost invariant = { λ e. length e.file ≡ e.session.file_length };
}

impl Encoder {
    /// The encoder of this file, of as many bytes as the session declares. A file of another length is dropped.
    pub fn new(alloc: Global, session: Session, file: Bytes) -> Result<Encoder, OtherLength>
        ensures ok { IfOk result (λ encoder. encoder ≡ record { session = session; file = file }) }
        ensures accepted { IsOk result ↔ (length file ≡ session.file_length) }
        ensures other_length { IfErr result (λ e. (e.found ≡ length file) × (e.declared ≡ session.file_length)) }
    {
        let found = file.len() as u64;
        let declared = session.length();
        if found != declared {
            return Err(OtherLength { found, declared });
        }
        Ok(Encoder {
            alloc,
            session,
            file,
        })
    }

    /// Coded packet `j` of a batch, which has to be the session's batch of its number: its coefficient vector of M
    /// bytes is 1 at place `j` and 0 elsewhere, and its payload has T bytes. The file agrees with the packet.
    pub fn coded(&self, batch: &Batch, j: u32) -> Result<Packet, AllocError>
        requires of_session { batch.now ≡ batch_of self.now.session batch.now.number }
        requires column { j < self.now.session.m }
        ensures batch { IfOk result (λ packet. packet.batch ≡ batch.now.number) }
        ensures coefs { IfOk result (λ packet. packet.coefs ≡ unit_vector self.now.session.m j) }
        ensures payload { IfOk result (λ packet.
            packet.payload ≡ coded_payload self.now.session self.now.file batch.now j) }
        ensures agrees { IfOk result (Agrees self.now.session self.now.file) }
    {
        let coefs = vector_of(self.alloc, self.session.m(), j)?;
        let payload = payload_of(self.alloc, &self.session, self.file.as_slice(), batch, j)?;
        Ok(Packet {
            batch: batch.number(),
            coefs: Bytes::from(coefs),
            payload: Bytes::from(payload),
        })
    }
}

// The vector of m bytes that is 1 at place j and 0 elsewhere.
fn vector_of(alloc: Global, m: u8, j: u32) -> Result<Vec<u8>, AllocError>
    requires { j < m }
    ensures { IfOk result (λ vector. vector.items ≡ unit_vector m j) }
{
    let mut vector = vec![in alloc; 0; usize::from(m)]?;
    vector[j as usize] = 1;
    Ok(vector)
}

// The bytes of symbol s that the file has, at most t. The others are zeros.
fn symbol_of<'a>(session: &Session, file: &'a [u8], s: u32) -> &'a [u8]
    ensures length { length result.now ≤ session.now.t }
    ensures bytes { (c : ℕ) → c < session.now.t → slice_index result.now c ≡ symbol_byte session.now file.now s c }
{
    let t = session.t() as usize;
    let start = (s as usize * t).min(file.len());
    let end = (start + t).min(file.len());
    &file[start..end]
}

// What contributor k adds to coded packet j: its symbol, times the generator's entry.
fn multiple_of<'a>(session: &Session, file: &'a [u8], batch: &Batch, j: u32, k: u32) -> Multiple<'a>
    requires row { k < degree_of batch.now }
    requires column { j < batch.now.columns }
    ensures factor { result.factor ≡ entry_of batch.now k j }
    ensures length { length result.row.now ≤ session.now.t }
    ensures bytes { (c : ℕ) → c < session.now.t →
        slice_index result.row.now c ≡ symbol_byte session.now file.now (contributor_of batch.now k) c }
{
    let row = symbol_of(session, file, batch.contributor(k));
    Multiple {
        factor: batch.entry(k, j),
        row,
    }
}

// Adds one contributor to a payload that has those before it. The symbol of a factor of 0 isn't looked up.
fn add_contributor(
    payload: &mut [u8],
    session: &Session,
    file: &[u8],
    batch: &Batch,
    j: u32,
    k: u32,
)
    requires column { j < batch.now.columns }
    requires row { k < degree_of batch.now }
    requires length { length payload.old ≡ session.now.t }
    requires before { HasTerms payload.old session.now file.now batch.now j k }
    ensures { HasTerms payload.new session.now file.now batch.now j (k + 1) }
{
    if batch.entry(k, j) == Gf::ZERO {
        return;
    }
    let term = multiple_of(session, file, batch, j, k);
    add_symbol(payload, term.factor, term.row);
}

// Adds contributors from this one up to another, one by one.
fn add_one_by_one(
    payload: &mut [u8],
    session: &Session,
    file: &[u8],
    batch: &Batch,
    j: u32,
    first: u32,
    end: u32,
)
    requires column { j < batch.now.columns }
    requires order { first ≤ end }
    requires within { end ≤ degree_of batch.now }
    requires length { length payload.old ≡ session.now.t }
    requires before { HasTerms payload.old session.now file.now batch.now j first }
    ensures { HasTerms payload.new session.now file.now batch.now j end }
{
    for k in first..end {
        add_contributor(payload, session, file, batch, j, k);
    }
}

// Adds four contributors, from this one on, to a payload that has those before them: one by one where the first factor is
// 0, as in a packet that carries a symbol as it is nearly all are.
fn add_four_contributors(
    payload: &mut [u8],
    session: &Session,
    file: &[u8],
    batch: &Batch,
    j: u32,
    first: u32,
)
    requires column { j < batch.now.columns }
    requires within { first + 4 ≤ degree_of batch.now }
    requires counted { degree_of batch.now < 2 ^ 32 }
    requires length { length payload.old ≡ session.now.t }
    requires before { HasTerms payload.old session.now file.now batch.now j first }
    ensures { HasTerms payload.new session.now file.now batch.now j (first + 4) }
{
    let a = multiple_of(session, file, batch, j, first);
    if a.factor == Gf::ZERO {
        add_one_by_one(payload, session, file, batch, j, first, first + 4);
        return;
    }
    let b = multiple_of(session, file, batch, j, first + 1);
    let c = multiple_of(session, file, batch, j, first + 2);
    let d = multiple_of(session, file, batch, j, first + 3);
    add_four_symbols(payload, &a, &b, &c, &d);
}

// Adds the contributors to a row of zeros, in groups of four, as far as these go.
fn add_groups(payload: &mut [u8], session: &Session, file: &[u8], batch: &Batch, j: u32)
    requires column { j < batch.now.columns }
    requires length { length payload.old ≡ session.now.t }
    requires zeros { HasTerms payload.old session.now file.now batch.now j 0 }
    ensures { HasTerms payload.new session.now file.now batch.now j (degree_of batch.now / 4 * 4) }
{
    for group in 0..batch.degree() / 4 {
        add_four_contributors(payload, session, file, batch, j, group * 4);
    }
}

// Makes the payload of coded packet j in a row of zeros. What is left of the groups is added one by one.
fn fill_payload(payload: &mut [u8], session: &Session, file: &[u8], batch: &Batch, j: u32)
    requires column { j < batch.now.columns }
    requires zeros { (c : ℕ) → c < session.now.t → slice_index payload.old c ≡ 0 }
    requires length { length payload.old ≡ session.now.t }
    ensures { payload.new ≡ coded_payload session.now file.now batch.now j }
{
    add_groups(payload, session, file, batch, j);
    let degree = batch.degree();
    add_one_by_one(payload, session, file, batch, j, degree / 4 * 4, degree);
}

// The payload of coded packet j.
fn payload_of(
    alloc: Global,
    session: &Session,
    file: &[u8],
    batch: &Batch,
    j: u32,
) -> Result<Vec<u8>, AllocError>
    requires { j < batch.now.columns }
    ensures { IfOk result (λ payload. payload.items ≡ coded_payload session.now file.now batch.now j) }
{
    let mut payload = vec![in alloc; 0; session.t() as usize]?;
    fill_payload(&mut payload, session, file, batch, j);
    Ok(payload)
}
