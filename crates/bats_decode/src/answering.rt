//! The answer that the elimination and the payload rows after its plan give.
ghost use Rattle.std.specs.Prelude.{ℕ, ◌≡◌, ◌≢◌, ◌<◌, ◌≤◌, ◌+◌, ◌*◌, ◌↔◌, ◌⊎◌, IsTrue, IfOk, MatchOption, All, length, slice_index, slice_index_or, slice_set};
ghost use Rattle.std.specs.List.{AllZip};
ghost use Rattle.gf_core.specs.Field.{gf_add};
ghost use Rattle.gf_rows.specs.Matrix.{matrix_entry};
ghost use Rattle.bats_stripes.specs.Columns.{IsZeroRow};
ghost use Rattle.bats_model.specs.Session.{symbols_of};
ghost use Rattle.bats_model.specs.Agreement.{IsFile};
ghost use Rattle.bats_decode.specs.declared.elimination.Origin.TheVariants.{Row};
ghost use Rattle.bats_decode.specs.steps.Eliminated.{IsShaped, IsOriginWithin, origin_of};
ghost use Rattle.bats_decode.specs.steps.Answered.{IsAnswerOf, PaddingHolds, IsFound, IsRaised, OpensFirst, NoneIsOpen, byte_from, change_at};

use crate::elimination::{Elimination, Origin};
use bats_model::{Answer, Bytes, Session};
use bats_stripes::Payload;
use gf_rows::Matrix;
use rayon::prelude::*;
use std::alloc::{AllocError, Global};
use std::thread::Threads;

// A symbol that the packets leave open, and a free symbol with which it changes.
#[derive(Clone, Copy)]
struct Open {
    symbol: u32,
    free: usize,
}

// Which of these rows are 0, in their order, from as many threads as there are processors.
fn are_zero<R: Threads + Sync>(
    rt: &R,
    alloc: Global,
    payload: &Payload,
    rows: &[u32],
) -> Result<Vec<bool>, AllocError>
    requires { All (λ r. r < length payload.now.rows) rows.now }
    ensures { IfOk result (λ flags. AllZip (λ r zero. IsTrue zero ↔ IsZeroRow payload.now r) rows.now flags.items) }
{
    rows.par_iter()
        .map(
            |r: &u32| -> bool
                requires { r.now < length payload.now.rows }
                ensures { IsTrue result ↔ IsZeroRow payload.entry.now r.now }
            { payload.row_is_zero(*r) },
        )
        .collect(rt, alloc)
}

// Whether all flags are set.
fn all_set(flags: &[bool]) -> bool
    ensures { IsTrue result ↔ All IsTrue flags.now }
{
    flags.iter().all(|flag| *flag)
}

// Whether each of these rows is 0.
fn rows_are_zero<R: Threads + Sync>(
    rt: &R,
    alloc: Global,
    payload: &Payload,
    rows: &[u32],
) -> Result<bool, AllocError>
    requires { All (λ r. r < length payload.now.rows) rows.now }
    ensures { IfOk result (λ zero. IsTrue zero
        ↔ All (λ r. (c : ℕ) → c < payload.now.cols → matrix_entry payload.now r c ≡ 0) rows.now) }
{
    let flags = are_zero(rt, alloc, payload, rows)?;
    Ok(all_set(flags.as_slice()))
}

// Whether row `r` is 0 from byte `first` on, of `t` bytes.
fn is_zero_from(payload: &Payload, r: u32, first: u32, t: u32) -> bool
    requires row { r < length payload.now.rows }
    requires columns { t ≡ payload.now.cols }
    ensures { IsTrue result ↔ ((c : ℕ) → first ≤ c → c < t → matrix_entry payload.now r c ≡ 0) }
{
    'columns: for c in first..t {
        if payload.byte(r, c) != 0 {
            return false;
        }
    }
    true
}

// Whether the last symbol's row, if it has one, is 0 from the file's end on.
fn padding_is_zero(session: &Session, e: &Elimination, payload: &Payload) -> bool
    requires shape { IsShaped session.now (length payload.now.rows) e.now }
    requires columns { payload.now.cols ≡ session.now.t }
    ensures { IsTrue result ↔ PaddingHolds session.now e.now payload.now }
{
    let t = u64::from(session.t());
    let end = session.length() % t;
    if end == 0 {
        return true;
    }
    let last = session.symbols() - 1;
    match e.origins[last as usize] {
        Origin::Row(r) => is_zero_from(payload, r, end as u32, t as u32),
        Origin::Free(_) => true,
    }
}

// Writes a symbol to its part of the file, which is 0, where it has a row.
fn write_symbol(part: &mut [u8], payload: &Payload, origin: Origin)
    requires origin { (r : ℕ) → origin ≡ Row r → r < length payload.now.rows }
    requires width { length part.old ≡ payload.now.cols }
    requires zeros { (c : ℕ) → c < payload.now.cols → slice_index part.old c ≡ 0 }
    ensures width { length part.new ≡ payload.now.cols }
    ensures bytes { (c : ℕ) → c < payload.now.cols
        → slice_index part.new c ≡ byte_from payload.now c origin }
{
    if let Origin::Row(r) = origin {
        payload.copy_row_to(r, part);
    }
}

// Writes a symbol to the file's part from byte `start` on, which is 0.
fn write_symbol_at(file: &mut [u8], start: usize, t: usize, payload: &Payload, origin: Origin)
    requires origin { (r : ℕ) → origin ≡ Row r → r < length payload.now.rows }
    requires width { t ≡ payload.now.cols }
    requires inside { start + t ≤ length file.old }
    requires zeros { (c : ℕ) → c < t → slice_index file.old (start + c) ≡ 0 }
    ensures length { length file.new ≡ length file.old }
    ensures inside { (c : ℕ) → c < t → slice_index file.new (start + c) ≡ byte_from payload.now c origin }
    ensures outside { (i : ℕ) → ((i < start) ⊎ (start + t ≤ i)) → slice_index file.new i ≡ slice_index file.old i }
{
    write_symbol(&mut file[start..start + t], payload, origin);
}

// Writes each symbol to its part of a file of zeros.
fn write_symbols(file: &mut [u8], t: usize, payload: &Payload, origins: &[Origin])
    requires origins { (s r : ℕ) → s < length origins.now → slice_index_or origins.now s (Row 0) ≡ Row r
        → r < length payload.now.rows }
    requires width { t ≡ payload.now.cols }
    requires length { length file.old ≡ length origins.now * t }
    requires zeros { (i : ℕ) → slice_index file.old i ≡ 0 }
    ensures length { length file.new ≡ length file.old }
    ensures bytes { (s c : ℕ) → s < length origins.now → c < t
        → slice_index file.new (s * t + c) ≡ byte_from payload.now c (slice_index_or origins.now s (Row 0)) }
{
    'symbols: for s in 0..origins.len() {
        write_symbol_at(file, s * t, t, payload, origins[s]);
    }
}

// The file whose free symbols are 0.
fn found_file(
    alloc: Global,
    session: &Session,
    e: &Elimination,
    payload: &Payload,
) -> Result<Bytes, AllocError>
    requires shape { IsShaped session.now (length payload.now.rows) e.now }
    requires columns { payload.now.cols ≡ session.now.t }
    ensures { IfOk result (IsFound session.now e.now payload.now) }
{
    let t = usize::from(session.t());
    let mut file = vec![in alloc; 0; session.symbols() as usize * t]?;
    write_symbols(&mut file, t, payload, &e.origins);
    file.truncate(session.length() as usize);
    let bytes = Bytes::from(file);
    let _are_bytes = bytes.as_slice();
    Ok(bytes)
}

// The first free symbol, of those whose columns are given, with which row `r` changes.
fn first_change(matrix: &Matrix, r: u32, free: &[u32]) -> Option<usize>
    requires row { r < length matrix.now.rows }
    requires columns { All (λ c. c < matrix.now.cols) free.now }
    ensures { MatchOption result
        ((i : ℕ) → i < length free.now → matrix_entry matrix.now r (slice_index free.now i) ≡ 0)
        (λ i. (i < length free.now) × (matrix_entry matrix.now r (slice_index free.now i) ≢ 0)) }
{
    'search: for (i, column) in free.iter().enumerate() {
        if matrix.get(r, *column).byte() != 0 {
            return Some(i);
        }
    }
    None
}

// The free symbol with which a symbol at this origin changes, if it does.
fn opens(e: &Elimination, origin: Origin) -> Option<usize>
    requires origin { IsOriginWithin (length e.now.matrix.rows) (length e.now.free) origin }
    requires columns { All (λ c. c < e.now.matrix.cols) e.now.free }
    ensures { MatchOption result
        ((i : ℕ) → i < length e.now.free → change_at e.now i origin ≡ 0)
        (λ i. (i < length e.now.free) × (change_at e.now i origin ≢ 0)) }
{
    match origin {
        Origin::Row(r) => first_change(&e.matrix, r, e.free.as_slice()),
        Origin::Free(i) => Some(i as usize),
    }
}

// The first symbol that changes with a free one.
fn first_open(session: &Session, e: &Elimination) -> Option<Open>
    requires { IsShaped session.now (length e.now.matrix.rows) e.now }
    ensures { MatchOption result
        (NoneIsOpen session.now e.now)
        (λ opened. OpensFirst session.now e.now opened.symbol opened.free) }
{
    'symbols: for s in 0..session.symbols() {
        if let Some(free) = opens(e, e.origins[s as usize]) {
            return Some(Open { symbol: s, free });
        }
    }
    None
}

// By how much a symbol at this origin changes with free symbol `free`.
fn change_of(e: &Elimination, free: usize, origin: Origin) -> u8
    requires origin { IsOriginWithin (length e.now.matrix.rows) (length e.now.free) origin }
    requires columns { All (λ c. c < e.now.matrix.cols) e.now.free }
    requires free { free < length e.now.free }
    ensures { result ≡ change_at e.now free origin }
{
    match origin {
        Origin::Row(r) => e.matrix.get(r, e.free.as_slice()[free]).byte(),
        Origin::Free(i) => u8::from(i as usize == free),
    }
}

// Adds `change` to the byte at a place.
fn add_at(file: &mut [u8], at: usize, change: u8)
    requires { at < length file.old }
    ensures { file.new ≡ slice_set file.old at (gf_add (slice_index file.old at) change) }
{
    file[at] ^= change;
}

// Raises free symbol `free` by 1 in column 0 of the file, and each symbol that changes with it.
fn raise(file: &mut [u8], session: &Session, e: &Elimination, free: usize)
    requires shape { IsShaped session.now (length e.now.matrix.rows) e.now }
    requires free { free < length e.now.free }
    requires length { length file.old ≡ session.now.file_length }
    ensures length { length file.new ≡ length file.old }
    ensures front { (s : ℕ) → s < symbols_of session.now → slice_index file.new (s * session.now.t)
        ≡ gf_add (slice_index file.old (s * session.now.t)) (change_at e.now free (origin_of e.now s)) }
    ensures rest { (s c : ℕ) → 0 < c → c < session.now.t
        → slice_index file.new (s * session.now.t + c) ≡ slice_index file.old (s * session.now.t + c) }
{
    let t = usize::from(session.t());
    'symbols: for s in 0..session.symbols() as usize {
        add_at(file, s * t, change_of(e, free, e.origins[s]));
    }
}

// A copy of the file with free symbol `free` raised by 1 in column 0.
fn raised_file(
    alloc: Global,
    session: &Session,
    e: &Elimination,
    file: &[u8],
    free: usize,
) -> Result<Bytes, AllocError>
    requires shape { IsShaped session.now (length e.now.matrix.rows) e.now }
    requires free { free < length e.now.free }
    requires file { IsFile session.now file.now }
    ensures { IfOk result (IsRaised session.now e.now free file.now) }
{
    let mut copy = Vec::from_slice(alloc, file)?;
    raise(&mut copy, session, e, free);
    let bytes = Bytes::from(copy);
    let _are_bytes = bytes.as_slice();
    Ok(bytes)
}

/// The answer: that no file agrees, where a zero row or the bytes past the file's end aren't 0; the file whose free symbols
/// are 0, where no symbol changes with a free one; else that file and another, which differ first in the first such symbol.
pub(crate) fn answer<R: Threads + Sync>(
    rt: &R,
    alloc: Global,
    session: &Session,
    e: &Elimination,
    payload: &Payload,
) -> Result<Answer, AllocError>
    requires shape { IsShaped session.now (length payload.now.rows) e.now }
    requires columns { payload.now.cols ≡ session.now.t }
    ensures { IfOk result (IsAnswerOf session.now e.now payload.now) }
{
    if !rows_are_zero(rt, alloc, payload, e.zero_rows.as_slice())? {
        return Ok(Answer::Inconsistent);
    }
    if !padding_is_zero(session, e, payload) {
        return Ok(Answer::Inconsistent);
    }
    let first = found_file(alloc, session, e, payload)?;
    let Some(opened) = first_open(session, e) else {
        return Ok(Answer::File(first));
    };
    let second = raised_file(alloc, session, e, first.as_slice(), opened.free)?;
    Ok(Answer::NeedMore {
        at_symbol: opened.symbol,
        first,
        second,
    })
}
