ghost use Rattle.std.specs.Prelude.{◌≡◌, ◌+◌, ◌<◌, ◌≤◌, ◌^◌, ◌∷◌, ◌++◌, [], length, slice_index, IfOk, OnOk};
ghost use Rattle.std.specs.List.Sorted.{IsStrictlyIncreasing};
ghost use Rattle.bats_model.specs.Batch.{drawn, unchosen};
ghost use Rattle.bats_sampler.specs.Contributors.{Parts, AreSorted};

use crate::key::{KeyWords, pick_below};
use std::alloc::{AllocError, Global};

// How many of these rising numbers stand below the number at `place` among those that are not in the list. That
// number is `place` plus the result.
fn passed(sorted: &[u32], place: u32) -> u32
    requires rises { IsStrictlyIncreasing sorted.now }
    requires fits { place + length sorted.now < 2 ^ 32 }
    ensures { Parts sorted.now result (place + result) }
{
    let mut index: u32 = 0;
    while (index as usize) < sorted.len() && sorted[index as usize] <= place + index {
        index += 1;
    }
    index
}

// Draws the number at `place` among those below `symbols` that are not drawn yet. `sorted` has the drawn numbers,
// rising.
fn draw(
    drawn: &mut Vec<u32>,
    sorted: &mut Vec<u32>,
    symbols: u32,
    place: u32,
) -> Result<(), AllocError>
    requires sorted { AreSorted drawn.old.items sorted.old.items }
    requires place { place + length drawn.old.items < symbols }
    ensures drawn { OnOk result (drawn.new.items ≡ drawn.old.items
        ++ slice_index (unchosen symbols drawn.old.items) place ∷ []) }
    ensures sorted { OnOk result (AreSorted drawn.new.items sorted.new.items) }
{
    let index = passed(sorted, place);
    let number = place + index;
    sorted.insert(index as usize, number)?;
    drawn.push(number)?;
    Ok(())
}

/// The first `degree` contributors that the words draw among the numbers below `symbols`.
pub fn contributors(
    alloc: Global,
    words: &mut KeyWords,
    symbols: u32,
    degree: u32,
) -> Result<Vec<u32>, AllocError>
    requires degree { degree ≤ symbols }
    requires first { words.old.place ≡ 1 }
    ensures drawn { IfOk result (λ numbers. numbers.items ≡ drawn words.old.key symbols degree) }
    ensures after { OnOk result (words.new ≡ record words.old { place = 1 + degree }) }
{
    let mut numbers = Vec::with_capacity(alloc, degree as usize)?;
    let mut sorted = Vec::with_capacity(alloc, degree as usize)?;
    for i in 0..degree {
        let place = pick_below(words.next_word(), symbols - i);
        draw(&mut numbers, &mut sorted, symbols, place)?;
    }
    Ok(numbers)
}
