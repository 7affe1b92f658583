ghost use Rattle.std.specs.Prelude.{◌≡◌, ◌≤◌, IfOk};
ghost use Rattle.bats_script.specs.Trial.{trial_file, trial_file_key};

use bats_model::Bytes;
use bats_sampler::key_bytes;
use std::alloc::{AllocError, Global};

// The key of a trial's file.
fn trial_file_key(number: u64) -> [u8; 32]
    ensures { result ≡ trial_file_key number }
{
    let n = number.to_be_bytes();
    [
        n[0], n[1], n[2], n[3], n[4], n[5], n[6], n[7], 0, 0, 0, 0, 0, 0, 0, 0, 0, 0, 0, 0, 2, 0,
        0, 0, 0, 0, 0, 0, 0, 0, 0, 0,
    ]
}

/// The file of the trial of this number, of `length` bytes, at most 8,388,608: the first bytes of the words of the
/// key of the trial's file.
pub fn trial_file(alloc: Global, number: u64, length: u64) -> Result<Bytes, AllocError>
    requires { length ≤ 8388608 }
    ensures { IfOk result (λ file. file ≡ trial_file number length) }
{
    Ok(key_bytes(alloc, &trial_file_key(number), length)?)
}
