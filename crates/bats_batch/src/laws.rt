//! Laws on the held batches, each as the contract of a function with an empty body.
ghost use Rattle.std.specs.Prelude.{ℕ, ◌↔◌, ◌⊎◌, ◌++◌, ◌∷◌, [], List, All};
ghost use Rattle.bats_model.specs.Agreement.{IsFile, AgreesWithAll};
ghost use Rattle.bats_model.specs.Kept.{HasContradiction};
ghost use Rattle.bats_model.specs.declared.packet.Packet.{Packet};
ghost use Rattle.bats_model.specs.declared.taken.Taken.TheVariants.{Contradiction};
ghost use Rattle.bats_batch.specs.Basis.{IsTaken};
ghost use Rattle.bats_batch.specs.Held.{HeldData, StandsFor, kept_at};

/// A file agrees with packets exactly where it is one of the session, agrees with the kept packets of each batch that is
/// held for them, and no packet contradicts those kept before it.
pub fn held_batches_stand_for_all()
    ensures { (packets : List Packet) (held : HeldData) (file : List ℕ) → StandsFor packets held
        → AgreesWithAll held.session packets file
        ↔ (IsFile held.session file × All (λ batch. AgreesWithAll held.session batch.kept file) held.batches
        × ¬ HasContradiction packets) }
{}

/// No packets have no contradiction, and with one packet more there is one exactly where there was one before or the
/// packet contradicts what is held of its batch. So the answers to offers tell whether the packets have one.
pub fn contradictions_are_told()
    ensures none { ¬ HasContradiction [] }
    ensures grow { (packets : List Packet) (packet : Packet) (held : HeldData) → StandsFor packets held
        → HasContradiction (packets ++ packet ∷ [])
        ↔ (HasContradiction packets ⊎ IsTaken (kept_at held.batches packet.batch) packet Contradiction) }
{}
