ghost use Rattle.std.specs.Prelude.{◌≡◌, ◌+◌, ◌*◌, ◌%◌, ◌<◌, ℕ, fold, slice_index};

use gf_core::Gf;
use gf_rows::{Steps, add_scaled, axpy, dot, scale, scale_row};
use std::io;
use std::sync::ledger::{Blank, Ledger};

/// A short number that changes with the bytes and their order.
pub fn digest(bytes: &[u8]) -> u32
    ensures { result ≡ fold (λ sum byte. (sum * 31 + byte) % 65521) 1 bytes.now }
{
    let mut sum = 1;
    for byte in bytes {
        sum = (sum * 31 + *byte as u32) % 65521;
    }
    sum
}

/// A row of 100 bytes that differ.
pub fn fixed_row(first: u8) -> [u8; 100]
    ensures { (i : ℕ) → i < 100 → slice_index result i ≡ (i * 37 + first) % 256 }
{
    let mut row = [0; 100];
    for i in 0..100 {
        row[i] = ((i * 37 + first as usize) % 256) as u8;
    }
    row
}

/// Prints a line for each kernel, with the digest of what it leaves.
pub fn print_digests<L: Ledger, R: Print>(rt: &R, blank: Blank) -> io::Result<()>
    requires name { blank.name ≡ L.name }
    requires parts { blank.parts ≡ L.parts }
    requires some { 0 < blank.parts }
{
    let mut steps: Steps<L> = Steps::new(blank);
    let src = fixed_row(11);
    let mut row = fixed_row(5);
    add_scaled(&mut row, Gf::new(2), &src);
    println!(rt; "add_scaled {}", digest(&row))?;
    scale_row(&mut row, Gf::new(0x8E));
    println!(rt; "scale_row {}", digest(&row))?;
    axpy(&mut row, Gf::new(0xFF), &src, &mut steps);
    println!(rt; "axpy {}", digest(&row))?;
    scale(&mut row, Gf::new(3), &mut steps);
    println!(rt; "scale {}", digest(&row))?;
    println!(rt; "dot {}", digest(&[dot(&row, &src).byte()]))
}
