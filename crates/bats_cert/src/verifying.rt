//! The check of a certificate.
ghost use Rattle.std.specs.Prelude.{ℕ, ◌≡◌, ◌<◌, ◌≤◌, ◌+◌, ◌*◌, ◌↔◌, IfOk, IsTrue, MatchOption, All, length, slice_index};
ghost use Rattle.gf_rows.specs.Matrix.{IsMatrix, matrix_row};
ghost use Rattle.bats_model.specs.Session.{symbols_of};
ghost use Rattle.bats_model.specs.Agreement.{IsFile, IsSameSymbol};
ghost use Rattle.bats_model.specs.PacketFile.{HasShape};
ghost use Rattle.bats_model.specs.RightAnswer.{IsRightAnswer};
ghost use Rattle.bats_cert.specs.Shown.{AreFactors, GivesSymbol, GiveSymbols, IsFit, IsFitBody, Shows, answer_of, most_listed};
ghost use Rattle.bats_cert.specs.Verdicts.{IsFirstWrong, IsVerdict};
ghost use Rattle.bats_cert.specs.declared.certificate.Body.TheVariants.{One, Two, Zero};
ghost use Rattle.bats_cert.specs.declared.verdict.Verdict.TheVariants.{Valid};
ghost use Rattle.bats_cert.specs.steps.Saying.{said_grid};

use crate::agreeing::{file_agrees, symbol_of};
use crate::certificate::{Body, Certificate};
use crate::saying::said_by_each;
use crate::sums::{payload_byte, sum_of_rows, unit_of};
use crate::verdict::{Part, Verdict};
use bats_model::{Bytes, Packet, Session};
use gf_core::Gf;
use gf_rows::Matrix;
use std::alloc::{AllocError, Global};

// Whether the factors of row `s` give symbol `s`.
fn gives_symbol(
    alloc: Global,
    session: &Session,
    packets: &[Packet],
    said: &Matrix,
    rows: &Matrix,
    s: u32,
) -> Result<bool, AllocError>
    requires said { said.now ≡ said_grid session.now packets.now }
    requires width { rows.now.cols ≡ length packets.now }
    requires row { s < length rows.now.rows }
    requires symbol { s < symbols_of session.now }
    ensures { IfOk result (λ gives. IsTrue gives ↔ GivesSymbol session.now packets.now rows.now s) }
{
    let sum = sum_of_rows(alloc, rows.row(s), said)?;
    let unit = unit_of(alloc, session.symbols(), s)?;
    Ok(sum.as_slice() == unit.as_slice())
}

// The lowest row whose factors don't give its symbol.
fn first_wrong(
    alloc: Global,
    session: &Session,
    packets: &[Packet],
    said: &Matrix,
    rows: &Matrix,
) -> Result<Option<u32>, AllocError>
    requires said { said.now ≡ said_grid session.now packets.now }
    requires width { rows.now.cols ≡ length packets.now }
    requires count { length rows.now.rows ≤ symbols_of session.now }
    ensures { IfOk result (λ wrong. MatchOption wrong
        (GiveSymbols session.now packets.now (length rows.now.rows) rows.now)
        (λ s. IsFirstWrong session.now packets.now (length rows.now.rows) rows.now s)) }
{
    'rows: for s in 0..rows.rows() {
        if !gives_symbol(alloc, session, packets, said, rows, s)? {
            return Ok(Some(s));
        }
    }
    Ok(None)
}

// Whether two files of one length have the same bytes in symbol `s`.
fn same_symbol(session: &Session, first: &[u8], second: &[u8], s: u32) -> bool
    requires first { IsFile session.now first.now }
    requires second { IsFile session.now second.now }
    ensures { IsTrue result ↔ IsSameSymbol session.now first.now second.now s }
{
    symbol_of(session, first, s) == symbol_of(session, second, s)
}

// Whether a sum is 0 at each symbol that has a byte of the file in the column.
fn says_nothing(session: &Session, sum: &[u8], column: u16) -> bool
    requires { length sum.now ≡ symbols_of session.now }
    ensures { IsTrue result ↔ ((s : ℕ) → s < symbols_of session.now
        → s * session.now.t + column < session.now.file_length → slice_index sum.now s ≡ 0) }
{
    let t = u64::from(session.t());
    let length = session.length();
    'symbols: for s in 0..session.symbols() {
        if u64::from(s) * t + u64::from(column) < length && sum[s as usize] != 0 {
            return false;
        }
    }
    true
}

// The verdict on a file and its rows.
fn verdict_on_one(
    alloc: Global,
    session: &Session,
    packets: &[Packet],
    said: &Matrix,
    file: &Bytes,
    rows: &Matrix,
) -> Result<Verdict, AllocError>
    requires shapes { All (HasShape session.now) packets.now }
    requires said { said.now ≡ said_grid session.now packets.now }
    requires fit { IsFitBody session.now packets.now (One file.now rows.now) }
    ensures { IfOk result (IsVerdict session.now packets.now (One file.now rows.now)) }
{
    if !file_agrees(alloc, session, packets, said, file.as_slice())? {
        return Ok(Verdict::Broken(Part::FirstFile));
    }
    match first_wrong(alloc, session, packets, said, rows)? {
        Some(s) => Ok(Verdict::Broken(Part::Row(s))),
        None => Ok(Verdict::Valid),
    }
}

// The verdict on two files and their rows.
fn verdict_on_two(
    alloc: Global,
    session: &Session,
    packets: &[Packet],
    said: &Matrix,
    at_symbol: u32,
    first: &Bytes,
    second: &Bytes,
    rows: &Matrix,
) -> Result<Verdict, AllocError>
    requires shapes { All (HasShape session.now) packets.now }
    requires said { said.now ≡ said_grid session.now packets.now }
    requires fit { IsFitBody session.now packets.now (Two at_symbol first.now second.now rows.now) }
    ensures { IfOk result (IsVerdict session.now packets.now (Two at_symbol first.now second.now rows.now)) }
{
    if !file_agrees(alloc, session, packets, said, first.as_slice())? {
        return Ok(Verdict::Broken(Part::FirstFile));
    }
    if !file_agrees(alloc, session, packets, said, second.as_slice())? {
        return Ok(Verdict::Broken(Part::SecondFile));
    }
    if same_symbol(session, first.as_slice(), second.as_slice(), at_symbol) {
        return Ok(Verdict::Broken(Part::Same));
    }
    match first_wrong(alloc, session, packets, said, rows)? {
        Some(s) => Ok(Verdict::Broken(Part::Row(s))),
        None => Ok(Verdict::Valid),
    }
}

// The verdict on factors that are to show that no file agrees.
fn verdict_on_zero(
    alloc: Global,
    session: &Session,
    packets: &[Packet],
    said: &Matrix,
    column: u16,
    factors: &Bytes,
) -> Result<Verdict, AllocError>
    requires shapes { All (HasShape session.now) packets.now }
    requires said { said.now ≡ said_grid session.now packets.now }
    requires fit { IsFitBody session.now packets.now (Zero column factors.now) }
    ensures { IfOk result (IsVerdict session.now packets.now (Zero column factors.now)) }
{
    let sum = sum_of_rows(alloc, factors.as_slice(), said)?;
    if !says_nothing(session, &sum, column) {
        return Ok(Verdict::Broken(Part::Factors));
    }
    if payload_byte(packets, factors.as_slice(), usize::from(column)).byte() == 0 {
        return Ok(Verdict::Broken(Part::Sum));
    }
    Ok(Verdict::Valid)
}

// The verdict on a certificate.
fn verdict_on(alloc: Global, cert: &Certificate) -> Result<Verdict, AllocError>
    requires { IsFit cert.now }
    ensures { IfOk result (IsVerdict cert.now.session cert.now.packets cert.now.body) }
{
    let session = &cert.session;
    let packets = cert.packets.as_slice();
    let said = said_by_each(alloc, session, packets)?;
    match &cert.body {
        Body::One { file, rows } => verdict_on_one(alloc, session, packets, &said, file, rows),
        Body::Two {
            at_symbol,
            first,
            second,
            rows,
        } => verdict_on_two(
            alloc, session, packets, &said, *at_symbol, first, second, rows,
        ),
        Body::Zero { column, factors } => {
            verdict_on_zero(alloc, session, packets, &said, *column, factors)
        }
    }
}

/// Checks a certificate whose numbers and lengths fit, by sums of its packets alone. Its verdict is `Valid` exactly where the
/// certificate shows what it says, and what it says is then a right answer to its packets. Else it names the first part that
/// fails.
pub fn verify(alloc: Global, cert: &Certificate) -> Result<Verdict, AllocError>
    requires { IsFit cert.now }
    // Which part is the first that fails, if one does.
    ensures verdict { IfOk result (IsVerdict cert.now.session cert.now.packets cert.now.body) }
    ensures valid { IfOk result (λ verdict.
        (verdict ≡ Valid) ↔ Shows cert.now.session cert.now.packets cert.now.body) }
    // A valid certificate's answer is right.
    ensures right { IfOk result (λ verdict.
        verdict ≡ Valid → IsRightAnswer cert.now.session cert.now.packets (answer_of cert.now.body)) }
{
    // A getter tells the proof that the session is within its limits.
    let _m = cert.session.m();
    let verdict = verdict_on(alloc, cert)?;
    Ok(verdict)
}
