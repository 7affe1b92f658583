ghost use Rattle.std.specs.Prelude.{◌≡◌, IfOk};
ghost use Rattle.bats_model.specs.Batch.{batch_of, sampled_batch_of};
ghost use Rattle.bats_model.specs.Session.{symbols_of};
ghost use Rattle.bats_sampler.specs.Contributors.{AreContributors};

use crate::contributors::contributors;
use crate::degree::degree_of;
use crate::key::{KeyWords, key_from, next_bytes, pick_below};
use bats_model::{Batch, Bytes, Nums, Session, unit_batch};
use std::alloc::{AllocError, Global};

// The sampled batch of this number.
fn sampled_batch(alloc: Global, session: &Session, number: u32) -> Result<Batch, AllocError>
    ensures { IfOk result (λ batch. batch ≡ sampled_batch_of session.now number) }
{
    let mut words = KeyWords::new(key_from(session.seed(), number, 0, 0));
    let drawn_degree = degree_of(session.table(), pick_below(words.next_word(), 1000));
    let symbols = session.symbols();
    let degree = drawn_degree.min(symbols);
    let numbers = contributors(alloc, &mut words, symbols, degree)?;
    let entries = next_bytes(alloc, &mut words, degree * u32::from(session.m()))?;
    Ok(Batch::new(
        session.m(),
        number,
        Nums::from(numbers),
        Bytes::from(entries),
    ))
}

/// The batch of this number: the systematic one where the session has it, and otherwise the sampled one.
pub fn batch(alloc: Global, session: &Session, number: u32) -> Result<Batch, AllocError>
    ensures value { IfOk result (λ batch. batch ≡ batch_of session.now number) }
    ensures contributors { IfOk result (λ batch. AreContributors (symbols_of session.now) batch.contributors) }
{
    match unit_batch(alloc, session, number)? {
        Some(batch) => Ok(batch),
        None => sampled_batch(alloc, session, number),
    }
}
