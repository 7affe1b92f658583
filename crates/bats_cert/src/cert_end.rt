ghost use Rattle.std.specs.Prelude.{◌≡◌};
ghost use Rattle.bats_cert.specs.declared.cert_end.CertEnd.TheVariants.{Memory};

use std::alloc::AllocError;

/// Why no certificate was read.
#[derive(Clone, Copy, Debug, PartialEq, Eq)]
pub enum CertEnd {
    /// Memory ran out.
    Memory,
    /// A read of the input failed.
    ReadFault,
    /// The input is no certificate: at `at` begins the first field that is cut or breaks its rule, or the first byte behind the
    /// last field stands there.
    Malformed { at: u64 },
}

impl From<AllocError> for CertEnd {
    ghost from_gives = { λ _ e. e ≡ Memory };

    fn from(_: AllocError) -> CertEnd {
        CertEnd::Memory
    }
}
