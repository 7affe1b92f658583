//! Fields that are read whole, and the end of the input.
ghost use Rattle.std.specs.Prelude.{◌≡◌, ◌≢◌, [], length, OnOk, IfErr};
ghost use Rattle.bats_format.specs.Filling.{Fills};
ghost use Rattle.bats_cert.specs.CertificateFile.{nothing};
ghost use Rattle.bats_cert.specs.steps.Parts.{HasRead, HasReadAll, Stops, FieldStops};
ghost use Rattle.bats_cert.specs.declared.cert_end.CertEnd.TheVariants.{Memory};

use crate::cert_end::CertEnd;
use bats_io::{Failed, Source};

// Reads until the buffer is full, in as many reads as the source needs, or until the input ends. The answer is how many
// bytes came, which stand at the front of the buffer.
fn fill<S: Source>(source: &mut S, buffer: &mut [u8]) -> Result<usize, Failed>
    ensures { Fills
        (S.state source.old)
        (S.state source.new)
        buffer.new result }
{
    let mut count = 0;
    while count < buffer.len() {
        let got = source.read(&mut buffer[count..])?;
        if got == 0 {
            return Ok(count);
        }
        count += got;
    }
    Ok(count)
}

/// Reads a field, which begins at the offset `at` and is as long as the buffer.
pub(crate) fn take_field<S: Source>(
    source: &mut S,
    at: u64,
    bytes: &mut [u8],
) -> Result<(), CertEnd>
    ensures ok { OnOk result (HasRead (S.state source.old) (S.state source.new) bytes.new) }
    ensures err { IfErr result (FieldStops (S.state source.old) (S.state source.new) at (length bytes.new)) }
    ensures no_memory { IfErr result (λ end. end ≢ Memory) }
{
    match fill(source, bytes) {
        Ok(count) => {
            if count < bytes.len() {
                return Err(CertEnd::Malformed { at });
            }
            Ok(())
        }
        Err(_) => Err(CertEnd::ReadFault),
    }
}

/// Finds nothing behind the last field, which ends before the offset `at`.
pub(crate) fn take_end<S: Source>(source: &mut S, at: u64) -> Result<(), CertEnd>
    ensures ok { OnOk result (HasReadAll (S.state source.old) (S.state source.new) []) }
    ensures err { IfErr result (Stops nothing (S.state source.old) (S.state source.new) at 1) }
{
    let mut bytes = [0; 1];
    match fill(source, &mut bytes) {
        Ok(0) => Ok(()),
        Ok(_) => Err(CertEnd::Malformed { at }),
        Err(_) => Err(CertEnd::ReadFault),
    }
}
