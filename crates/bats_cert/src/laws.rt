//! Laws on certificates, each the contract of a function with an empty body.
ghost use Rattle.std.specs.Prelude.{ℕ, ◌≡◌, ◌<◌, List, [], length, slice_index, slice_index_or, None};
ghost use Rattle.std.specs.List.{Contains};
ghost use Rattle.gf_core.specs.Field.{gf_mul, gf_sum};
ghost use Rattle.bats_model.specs.Session.{SessionData, symbols_of};
ghost use Rattle.bats_model.specs.Batch.{batch_of, degree_of, contributor_of, entry_of};
ghost use Rattle.bats_model.specs.RightAnswer.{IsRightAnswer};
ghost use Rattle.bats_model.specs.declared.packet.Packet.{Packet};
ghost use Rattle.bats_cert.specs.Sums.{symbol_row, symbol_rows, symbol_sums};
ghost use Rattle.bats_cert.specs.declared.certificate.Body.{Body};
ghost use Rattle.bats_cert.specs.declared.certificate.Certificate.{Certificate};
ghost use Rattle.bats_cert.specs.CertificateFile.{certificate_bytes, first_wrong};
ghost use Rattle.bats_cert.specs.Shown.{IsFit, Shows, answer_of};
ghost use Rattle.bats_model.specs.Session.{IsSession};

/// What a certificate shows is a right answer to its packets.
pub fn certificates_are_right()
    ensures { (session : SessionData) (packets : List Packet) (body : Body) → IsSession session
        → Shows session packets body → IsRightAnswer session packets (answer_of body) }
{}

/// What a packet says of a contributor of its batch is the sum of its coefficients times the contributor's row of the generator. Of
/// every other symbol it says 0.
pub fn rows_by_contributors()
    ensures contributors { (session : SessionData) (packet : Packet) (k : ℕ) → k < degree_of (batch_of session packet.batch)
        → slice_index (symbol_row session packet) (contributor_of (batch_of session packet.batch) k)
        ≡ gf_sum session.m (λ j. gf_mul (slice_index packet.coefs j) (entry_of (batch_of session packet.batch) k j)) }
    ensures others { (session : SessionData) (packet : Packet) (s : ℕ) → s < symbols_of session
        → ¬ Contains (batch_of session packet.batch).contributors s → slice_index (symbol_row session packet) s ≡ 0 }
{}

/// What a sum of packets says of a symbol is the sum of the factors times what each packet says of it.
pub fn sums_by_packets()
    ensures { (session : SessionData) (packets : List Packet) (factors : List ℕ) (s : ℕ) → s < symbols_of session
        → slice_index (symbol_sums session packets factors) s
        ≡ gf_sum (length packets)
        (λ i. gf_mul (slice_index factors i) (slice_index (slice_index_or (symbol_rows session packets) i []) s)) }
{}

/// The bytes of a certificate have no wrong field: bytes of which one is told are no certificate's.
pub fn certificates_have_no_wrong_field()
    ensures { (cert : Certificate) → IsSession cert.session → IsFit cert → first_wrong (certificate_bytes cert) ≡ None }
{}

/// Bytes are those of one certificate at most.
pub fn one_certificate()
    ensures { (cert other : Certificate) → IsSession cert.session → IsSession other.session → IsFit cert → IsFit other
        → certificate_bytes cert ≡ certificate_bytes other → cert ≡ other }
{}
