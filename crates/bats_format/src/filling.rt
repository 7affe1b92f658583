ghost use Rattle.bats_format.specs.Filling.{Fills, FillsPart};

use bats_io::{Failed, Source};
use bats_model::ReadEnd;

/// Reads until the buffer is full, in as many reads as the source needs, or until the input ends. The answer is how many
/// bytes came, which stand at the front of the buffer.
pub(crate) fn fill<S: Source>(source: &mut S, buffer: &mut [u8]) -> Result<usize, Failed>
    ensures { Fills
        (S.state source.old)
        (S.state source.new)
        buffer.new result }
{
    let mut count = 0;
    while count < buffer.len() {
        let got = source.read(&mut buffer[count..])?;
        if got == 0 {
            return Ok(count);
        }
        count += got;
    }
    Ok(count)
}

/// Fills a part of the record that begins at the offset `at`.
pub(crate) fn fill_part<S: Source>(source: &mut S, at: u64, part: &mut [u8]) -> Result<(), ReadEnd>
    ensures { FillsPart
        (S.state source.old)
        (S.state source.new)
        at part.new result }
{
    match fill(source, part) {
        Ok(count) => {
            if count < part.len() {
                return Err(ReadEnd::Truncated { at });
            }
            Ok(())
        }
        Err(_) => Err(ReadEnd::ReadFault),
    }
}
