ghost use Rattle.std.specs.Prelude.{◌≡◌, ◌≢◌, ◌*◌, ◌≤◌, IfOk, length};

use gf_core::Gf;
use gf_rows::{Multiple, add_four, add_scaled, scale_row};
use std::alloc::Global;
use std::io;
use std::time::{Clock, Instant};

// How many bytes are gone over between two readings of the clock, at least.
const BYTES_PER_ROUND: usize = 1 << 21;

// How often each kernel is timed. The best round counts.
const ROUNDS: u32 = 25;

// What is done to each row of a buffer.
#[derive(Clone, Copy)]
enum Kernel {
    Copy,
    AddOne,
    AddScaled,
    ScaleRow,
    AddFour,
}

impl Kernel {
    fn name(self) -> &'static str {
        match self {
            Kernel::Copy => "copy",
            Kernel::AddOne => "add_scaled_by_1",
            Kernel::AddScaled => "add_scaled",
            Kernel::ScaleRow => "scale_row",
            Kernel::AddFour => "add_four",
        }
    }
}

#[inline(never)]
fn copy_row(dst: &mut [u8], src: &[u8])
    requires { length dst.old ≡ length src.now }
{
    dst.copy_from_slice(src);
}

// Adds multiples of a row and of three others, which stand one after another.
fn add_four_rows(dst: &mut [u8], factor: u8, src: &[u8], others: &[u8])
    requires src { length dst.old ≡ length src.now }
    requires others { 3 * length dst.old ≡ length others.now }
{
    let size = dst.len();
    let a = Multiple {
        factor: Gf::new(factor),
        row: src,
    };
    let b = Multiple {
        factor: Gf::new(factor / 2),
        row: &others[..size],
    };
    let c = Multiple {
        factor: Gf::new(factor / 3),
        row: &others[size..2 * size],
    };
    let d = Multiple {
        factor: Gf::new(factor / 4),
        row: &others[2 * size..],
    };
    add_four(dst, &a, &b, &c, &d);
}

fn run(kernel: Kernel, dst: &mut [u8], factor: u8, src: &[u8], others: &[u8])
    requires factor { factor ≢ 0 }
    requires src { length dst.old ≡ length src.now }
    requires others { 3 * length dst.old ≡ length others.now }
{
    match kernel {
        Kernel::Copy => copy_row(dst, src),
        Kernel::AddOne => add_scaled(dst, Gf::ONE, src),
        Kernel::AddScaled => add_scaled(dst, Gf::new(factor), src),
        Kernel::ScaleRow => scale_row(dst, Gf::new(factor)),
        Kernel::AddFour => add_four_rows(dst, factor, src, others),
    }
}

// Runs the kernel on each whole row of the buffers, several times, with another factor each time, so that no table is
// made ahead of the run. The buffers hold four rows at least.
fn go_over(kernel: Kernel, dst: &mut [u8], src: &[u8], size: usize, rows: usize)
    requires same { length dst.old ≡ length src.now }
    requires four { 4 * size ≤ length src.now }
{
    let others = &src[size..4 * size];
    let mut at = 0;
    let mut factor = 2;
    for _ in 0..rows {
        if at > dst.len() || size > dst.len() - at {
            at = 0;
        }
        factor = if factor < 255 { factor + 1 } else { 2 };
        if at < dst.len() && size <= dst.len() - at && factor > 0 {
            run(
                kernel,
                &mut dst[at..at + size],
                factor,
                &src[at..at + size],
                others,
            );
            at += size;
        }
    }
}

/// The nanoseconds since a reading of the clock.
pub fn nanos_since(rt: &impl Clock, start: Instant) -> io::Result<u64> {
    let gone = start.elapsed(rt)?;
    Ok(
        gone.as_secs()
            .saturating_mul(1_000_000_000)
            .saturating_add(u64::from(gone.subsec_nanos())),
    )
}

// The picoseconds that the kernel takes for one row, in the best of several rounds.
fn best_time(
    rt: &impl Clock,
    kernel: Kernel,
    dst: &mut [u8],
    src: &[u8],
    size: usize,
) -> io::Result<u64>
    requires same { length dst.old ≡ length src.now }
    requires four { 4 * size ≤ length src.now }
{
    let rows = (BYTES_PER_ROUND / size.max(1)).max(1);
    let mut best = u64::MAX;
    for _ in 0..ROUNDS {
        let start = Instant::now(rt)?;
        go_over(kernel, dst, src, size, rows);
        best = best.min(nanos_since(rt, start)?);
    }
    Ok(best.saturating_mul(1000) / rows as u64)
}

// Times each kernel on the rows of one buffer.
fn print_times(rt: &(impl Clock + Print), dst: &mut [u8], src: &[u8], size: usize) -> io::Result<()>
    requires same { length dst.old ≡ length src.now }
    requires four { 4 * size ≤ length src.now }
{
    let buffer = dst.len();
    for kernel in [
        Kernel::Copy,
        Kernel::AddOne,
        Kernel::AddScaled,
        Kernel::ScaleRow,
        Kernel::AddFour,
    ] {
        let time = best_time(rt, kernel, dst, src, size)?;
        println!(rt; "{buffer} {size} {} {time}", kernel.name())?;
    }
    Ok(())
}

/// A buffer of this many bytes.
pub fn buffer(alloc: Global, size: usize, byte: u8) -> io::Result<Vec<u8>>
    ensures { IfOk result (λ v. length v.items ≡ size) }
{
    Ok(vec![in alloc; byte; size]?)
}

fn print_times_in(rt: &(impl Clock + Print + AllocGlobal), size: usize) -> io::Result<()> {
    let src = buffer(rt.alloc(), size, 0x5A)?;
    let mut dst = buffer(rt.alloc(), size, 0)?;
    for row in [16, 64, 256, 1024, 2048] {
        if row <= src.len() / 4 {
            print_times(rt, &mut dst, &src, row)?;
        }
    }
    Ok(())
}

/// Prints, for two sizes of a buffer and five row lengths, how many picoseconds each kernel takes for a row. Each line
/// has the bytes of the buffer, those of a row, the kernel and its time.
pub fn print_all_times(rt: &(impl Clock + Print + AllocGlobal)) -> io::Result<()> {
    print_times_in(rt, 1 << 14)?;
    print_times_in(rt, 1 << 20)
}
