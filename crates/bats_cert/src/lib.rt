//! Certificates: what shows that an answer is right, and the check of it by plain sums. It knows nothing of how the answer was
//! found: whoever trusts `verify` reads this crate, and no peeling or elimination. And certificate files, both ways.
#![tactic(auto)]

mod agreeing;
mod beginning;
mod bodies;
mod cert_end;
mod certificate;
mod filling;
mod fitting;
mod laws;
mod listing;
mod reading;
mod saying;
mod sums;
mod verdict;
mod verifying;
mod writing;

pub use cert_end::CertEnd;
pub use certificate::{Body, Certificate, Packets};
pub use laws::{
    certificates_are_right, certificates_have_no_wrong_field, one_certificate,
    rows_by_contributors, sums_by_packets,
};
pub use reading::read_certificate;
pub use verdict::{Part, Verdict};
pub use verifying::verify;
pub use writing::write_certificate;
