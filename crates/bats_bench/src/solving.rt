//! Times the receiving and solving of packets beside as many row operations as the plan has.
ghost use Rattle.std.specs.Prelude.{◌≡◌, ◌<◌};

use crate::sending::{Case, packets_of};
use crate::timing::{buffer, nanos_since};
use bats_decode::Decoder;
use bats_model::{Packet, Session};
use gf_core::Gf;
use gf_rows::{Op, Plan, Steps, add_scaled};
use std::alloc::AllocGlobal;
use std::io;
use std::sync::ledger::{Blank, Ledger};
use std::thread::Threads;
use std::time::{Clock, Instant};

// How often each is timed, in turn. The best round counts.
const ROUNDS: u32 = 9;

// What one round took.
#[derive(Clone, Copy)]
struct Round {
    // packets that are kept
    kept: u32,
    // operations of the plan
    operations: usize,
    // nanoseconds of receiving all packets
    offers: u64,
    // nanoseconds of solving
    solve: u64,
    // nanoseconds of as many row operations as the plan has
    rows: u64,
}

impl Round {
    // The least of both times, each for itself.
    fn with(self, other: Round) -> Round {
        Round {
            kept: self.kept,
            operations: self.operations,
            offers: self.offers.min(other.offers),
            solve: self.solve.min(other.solve),
            rows: self.rows.min(other.rows),
        }
    }
}

// Receives the packets that are of the session's shape, until one isn't taken.
fn receive_all<C: Ledger, L: Ledger>(
    decoder: &mut Decoder,
    session: &Session,
    packets: &[Packet],
    coef_steps: &mut Steps<C>,
    steps: &mut Steps<L>,
)
    requires { decoder.old.held.session ≡ session.now }
{
    let m = session.m() as usize;
    let t = session.t() as usize;
    for packet in packets {
        if packet.coefs.len() == m && packet.payload.len() == t {
            let taken = decoder.offer(packet, coef_steps, steps);
            if taken.is_err() {
                return;
            }
        }
    }
}

// Adds a multiple of one of two rows of `size` bytes to the other. One ends `front`, and the other begins `back`.
fn add_between(front: &mut [u8], back: &mut [u8], size: usize, forth: bool, factor: u8) {
    if size <= front.len() && size <= back.len() {
        let (low, high) = (&mut front[..size], &mut back[..size]);
        if forth {
            add_scaled(high, Gf::new(factor), low);
        } else {
            add_scaled(low, Gf::new(factor), high);
        }
    }
}

// Adds a multiple of row `src` to row `dst`, where both are in the buffer. Each has `size` bytes.
fn add_row(rows: &mut [u8], size: u16, dst: u32, src: u32, factor: u8) {
    let size = size as usize;
    let low = dst.min(src) as usize * size;
    let high = dst.max(src) as usize * size;
    if low < high && high <= rows.len() {
        let (front, back) = rows.split_at_mut(high);
        add_between(&mut front[low..], back, size, src < dst, factor);
    }
}

// The row that an operation changes, and another one that it may add.
fn rows_of(op: Op) -> (u32, u32) {
    match op {
        Op::AddScaled { dst, src, .. } => (dst, src),
        Op::Scale { row, .. } => (row, row ^ 1),
    }
}

// Does as many `add_scaled` as the plan has operations, on the rows of its operations, the factor changing.
fn add_rows(rows: &mut [u8], size: u16, plan: &Plan) {
    let mut factor = 2;
    for i in 0..plan.len() {
        let (dst, src) = rows_of(plan.get(i));
        add_row(rows, size, dst, src, factor);
        factor = if factor < 255 { factor + 1 } else { 2 };
    }
}

// The nanoseconds of as many row operations as the plan has.
fn rows_time(rt: &impl Clock, rows: &mut [u8], size: u16, plan: &Plan) -> io::Result<u64> {
    let start = Instant::now(rt)?;
    add_rows(rows, size, plan);
    nanos_since(rt, start)
}

// Receives all packets and solves, and times each part.
fn solve_once<C: Ledger, L: Ledger>(
    rt: &(impl Clock + AllocGlobal + Threads + Sync),
    session: &Session,
    packets: &[Packet],
    rows: &mut [u8],
    coef_steps: &mut Steps<C>,
    steps: &mut Steps<L>,
) -> io::Result<Round> {
    let start = Instant::now(rt)?;
    let mut decoder = Decoder::new(rt.alloc(), *session);
    receive_all(&mut decoder, session, packets, coef_steps, steps);
    let offers = nanos_since(rt, start)?;
    let start = Instant::now(rt)?;
    let solved = decoder.solve(rt, 1, coef_steps, steps)?;
    let solve = nanos_since(rt, start)?;
    Ok(Round {
        kept: solved.kept,
        operations: solved.plan.len(),
        offers,
        solve,
        rows: rows_time(rt, rows, session.t(), &solved.plan)?,
    })
}

// Times a case several times, and prints its line.
fn print_best<C: Ledger, L: Ledger>(
    rt: &(impl Clock + Print + AllocGlobal + Threads + Sync),
    name: &str,
    session: &Session,
    packets: &[Packet],
    coef_steps: &mut Steps<C>,
    steps: &mut Steps<L>,
) -> io::Result<()> {
    let size = packets.len().saturating_mul(session.t() as usize);
    let mut rows = buffer(rt.alloc(), size, 0x5A)?;
    let mut best = solve_once(rt, session, packets, &mut rows, coef_steps, steps)?;
    for _ in 1..ROUNDS {
        let round = solve_once(rt, session, packets, &mut rows, coef_steps, steps)?;
        best = best.with(round);
    }
    println!(rt; "{name} kept {}", best.kept)?;
    println!(rt; "{name} operations {}", best.operations)?;
    println!(rt; "{name} offers {}", best.offers)?;
    println!(rt; "{name} solve {}", best.solve)?;
    println!(rt; "{name} rows {}", best.rows)
}

// Times a case whose numbers are those of a session.
fn print_case<C: Ledger, L: Ledger>(
    rt: &(impl Clock + Print + AllocGlobal + Threads + Sync),
    name: &str,
    case: &Case,
    coef_steps: &mut Steps<C>,
    steps: &mut Steps<L>,
) -> io::Result<()> {
    match case.session() {
        Ok(session) => {
            let packets = packets_of(rt.alloc(), case, &session)?;
            print_best(rt, name, &session, &packets, coef_steps, steps)
        }
        Err(_) => Ok(()),
    }
}

/// Times receiving and solving in three cases. Each line has the case, what is told, and its number: the kept packets,
/// the operations of the plan, and the nanoseconds of receiving (`offers`), of solving, and of as many row operations.
pub fn print_solve_times<C: Ledger, L: Ledger, R: Clock + Print + AllocGlobal + Threads + Sync>(
    rt: &R,
    coef_blank: Blank,
    blank: Blank,
) -> io::Result<()>
    requires coef_name { coef_blank.name ≡ C.name }
    requires coef_parts { coef_blank.parts ≡ C.parts }
    requires coef_some { 0 < coef_blank.parts }
    requires name { blank.name ≡ L.name }
    requires parts { blank.parts ≡ L.parts }
    requires some { 0 < blank.parts }
{
    let mut coef_steps = Steps::<C>::new(coef_blank);
    let mut steps = Steps::<L>::new(blank);
    let coded = Case {
        m: 16,
        t: 1024,
        length: 1_000_000,
        systematic: false,
        batches: 230,
        lossy: false,
    };
    let lossy = Case {
        systematic: true,
        batches: 260,
        lossy: true,
        ..coded
    };
    let large = Case {
        m: 32,
        t: 2048,
        length: 8_000_000,
        systematic: true,
        batches: 136,
        lossy: false,
    };
    print_case(rt, "coded", &coded, &mut coef_steps, &mut steps)?;
    print_case(rt, "lossy", &lossy, &mut coef_steps, &mut steps)?;
    print_case(rt, "large", &large, &mut coef_steps, &mut steps)
}
