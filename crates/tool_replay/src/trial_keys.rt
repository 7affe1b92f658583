//! The seeds and keys that a trial's number gives.
ghost use Rattle.std.specs.Prelude.{◌≡◌};
ghost use Rattle.bats_script.specs.Trial.{trial_seed};
ghost use Rattle.tool_replay.specs.Trial.{loss_key, relay_seed};

/// The seed of a trial's session.
pub(crate) fn trial_seed(number: u64) -> [u8; 16]
    ensures { result ≡ trial_seed number }
{
    let n = number.to_be_bytes();
    [
        n[0], n[1], n[2], n[3], n[4], n[5], n[6], n[7], 0, 0, 0, 0, 0, 0, 0, 0,
    ]
}

/// The seed of one of its relays.
pub(crate) fn relay_seed(number: u64, relay: u32) -> [u8; 16]
    ensures { result ≡ relay_seed number relay }
{
    let n = number.to_be_bytes();
    let r = relay.to_be_bytes();
    [
        n[0], n[1], n[2], n[3], n[4], n[5], n[6], n[7], r[0], r[1], r[2], r[3], 0, 0, 0, 0,
    ]
}

/// The key of the losses on one of its hops.
pub(crate) fn loss_key(number: u64, hop: u32) -> [u8; 32]
    ensures { result ≡ loss_key number hop }
{
    let n = number.to_be_bytes();
    let h = hop.to_be_bytes();
    [
        n[0], n[1], n[2], n[3], n[4], n[5], n[6], n[7], 0, 0, 0, 0, 0, 0, 0, 0, h[0], h[1], h[2],
        h[3], 3, 0, 0, 0, 0, 0, 0, 0, 0, 0, 0, 0,
    ]
}
