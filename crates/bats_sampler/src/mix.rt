ghost use Rattle.std.specs.Prelude.{◌≡◌, ◌≤◌, map, IfOk};
ghost use Rattle.std.specs.List.{range_with_len};
ghost use Rattle.bats_model.specs.Key.{relay_key, key_byte};

use crate::key::{key_bytes, key_from};
use bats_model::Bytes;
use std::alloc::{AllocError, Global};

/// The first `count` bytes, at most 32, of the words of a relay's key for this output of this batch: four bytes a
/// word, the lowest first.
pub fn mix_bytes(
    alloc: Global,
    relay_seed: &[u8; 16],
    batch: u32,
    output: u32,
    count: u32,
) -> Result<Bytes, AllocError>
    requires { count ≤ 32 }
    ensures { IfOk result (λ bytes. bytes
        ≡ map (λ i. key_byte (relay_key relay_seed.now batch output) i) (range_with_len 0 count)) }
{
    let key = key_from(*relay_seed, batch, 1, output);
    Ok(key_bytes(alloc, &key, u64::from(count))?)
}
