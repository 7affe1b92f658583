//! Counts: of a batch's unknown contributors, and of the batches that a symbol is in, with the next inactive symbol by these.
ghost use Rattle.std.specs.Prelude.{◌≡◌, ◌<◌, ◌+◌, ◌≤◌, ◌^◌, false, if◌then◌else◌, ◌==◌, All, IfOk, length, slice_index, ℕ};
ghost use Rattle.std.specs.List.{list_any};
ghost use Rattle.bats_peel.specs.steps.Fixing.{IsLocal};
ghost use Rattle.bats_peel.specs.steps.Search.{unknown_contributors, AreDistinct, AreCounts, IsBestOf};

use crate::local::Local;
use std::alloc::{AllocError, Global};

// Counts each contributor of a batch once more. No count comes near the end of its type, which is only known where no batch
// has a contributor twice.
fn count_batch(counts: &mut Vec<u64>, local: &Local)
    requires { IsLocal (length counts.old.items) local.now }
    ensures size { length counts.new.items ≡ length counts.old.items }
    ensures count { (most : ℕ) → most + 1 < 2 ^ 64 → All (λ count. count ≤ most) counts.old.items → AreDistinct local.now
        → (s : ℕ) → s < length counts.old.items → slice_index counts.new.items s
        ≡ slice_index counts.old.items s + (if list_any (λ u. u == s) local.now.batch.contributors then 1 else 0) }
{
    for k in 0..local.batch.degree() {
        let symbol = local.batch.contributor(k) as usize;
        counts[symbol] = counts[symbol].saturating_add(1);
    }
}

/// How many contributors of a batch aren't known.
pub(crate) fn unknown_count(local: &Local, known: &[bool]) -> u32
    requires { IsLocal (length known.now) local.now }
    ensures { result ≡ unknown_contributors local.now known.now }
{
    let mut count = 0;
    'contributors: for k in 0..local.batch.degree() {
        count += u32::from(!known[local.batch.contributor(k) as usize]);
    }
    count
}

/// In how many of the batches each symbol is.
pub(crate) fn batch_counts(
    alloc: Global,
    locals: &[Local],
    symbols: u32,
) -> Result<Vec<u64>, AllocError>
    requires { All (IsLocal symbols) locals.now }
    ensures size { IfOk result (λ counts. length counts.items ≡ symbols) }
    ensures counts { IfOk result (λ counts. AreCounts locals.now counts.items) }
{
    let mut counts = vec![in alloc; 0; symbols as usize]?;
    'locals: for local in locals {
        count_batch(&mut counts, local);
    }
    Ok(counts)
}

// The best symbol below `s`, or `s` where it comes before that.
fn better(known: &[bool], counts: &[u64], best: Option<u32>, s: u32) -> Option<u32>
    requires known { s < length known.now }
    requires counts { length counts.now ≡ length known.now }
    requires best { IsBestOf known.now counts.now s best }
    ensures { IsBestOf known.now counts.now (s + 1) result }
{
    if known[s as usize] {
        return best;
    }
    let Some(b) = best else {
        return Some(s);
    };
    if counts[b as usize] < counts[s as usize] {
        return Some(s);
    }
    Some(b)
}

/// The first symbol of the inactivation order that isn't known, if there is one: that with the greatest count, and of
/// equals the lowest.
pub(crate) fn next_inactive(symbols: u32, known: &[bool], counts: &[u64]) -> Option<u32>
    requires known { length known.now ≡ symbols }
    requires counts { length counts.now ≡ symbols }
    ensures { IsBestOf known.now counts.now symbols result }
{
    let mut best = None;
    'symbols: for s in 0..symbols {
        best = better(known, counts, best, s);
    }
    best
}
