//! Laws on what relays send, each as the contract of a function with an empty body.
ghost use Rattle.std.specs.Prelude.{ℕ, ◌≡◌, ◌<◌, ◌+◌, ◌^◌, ◌∷◌, ◌++◌, [], List, All};
ghost use Rattle.bats_model.specs.Session.{SessionData};
ghost use Rattle.bats_model.specs.Agreement.{Agrees, AgreesWithAll};
ghost use Rattle.bats_model.specs.PacketFile.{HasShape};
ghost use Rattle.bats_model.specs.Kept.{kept_of};
ghost use Rattle.bats_model.specs.Relay.{relay_output, relay_outputs, IsOutputOf, IsRelayed};
ghost use Rattle.bats_model.specs.declared.packet.Packet.{Packet};

/// An output has the shape of the session, and a file that agrees with the kept packets of a batch, or with all packets
/// that the relay took, agrees with each output, and so with lists of them.
pub fn outputs_agree()
    ensures shape { (session : SessionData) (seed : List ℕ) (batch number : ℕ) (kept : List Packet) → batch < 2 ^ 32
        → All (HasShape session) kept → HasShape session (relay_output session seed batch number kept) }
    ensures kept { (session : SessionData) (seed : List ℕ) (batch number : ℕ) (kept : List Packet) (file : List ℕ)
        → batch < 2 ^ 32 → All (HasShape session) kept → All (λ packet. packet.batch ≡ batch) kept
        → AgreesWithAll session kept file → Agrees session file (relay_output session seed batch number kept) }
    ensures taken { (session : SessionData) (seed : List ℕ) (batch number : ℕ) (packets : List Packet) (file : List ℕ)
        → batch < 2 ^ 32 → All (HasShape session) packets → AgreesWithAll session packets file
        → Agrees session file (relay_output session seed batch number (kept_of batch packets)) }
    ensures lists { (session : SessionData) (seed : List ℕ) (batch first count : ℕ) (packets : List Packet)
        (file : List ℕ) → batch < 2 ^ 32 → All (HasShape session) packets → AgreesWithAll session packets file
        → AgreesWithAll session (relay_outputs session seed batch first count (kept_of batch packets)) file }
{}

/// A list of outputs grows at its end by the output whose number comes next.
pub fn outputs_come_one_by_one()
    ensures none { (session : SessionData) (seed : List ℕ) (batch first : ℕ) (kept : List Packet)
        → relay_outputs session seed batch first 0 kept ≡ [] }
    ensures more { (session : SessionData) (seed : List ℕ) (batch first count : ℕ) (kept : List Packet)
        → relay_outputs session seed batch first (count + 1) kept
        ≡ relay_outputs session seed batch first count kept
        ++ relay_output session seed batch (first + count) kept ∷ [] }
{}

/// Packets that went over relays have the shape of the session, and a file that agrees with all packets that were sent
/// agrees with them: over two relays one behind the other, and over any number of them.
pub fn relayed_packets_agree()
    ensures shape { (session : SessionData) (sent : List Packet) (relays : ℕ) (packet : Packet)
        → All (HasShape session) sent → IsRelayed session sent relays packet → HasShape session packet }
    ensures any { (session : SessionData) (sent : List Packet) (relays : ℕ) (packet : Packet) (file : List ℕ)
        → All (HasShape session) sent → AgreesWithAll session sent file → IsRelayed session sent relays packet
        → Agrees session file packet }
    ensures two { (session : SessionData) (sent first second : List Packet) (file : List ℕ)
        → All (HasShape session) sent → All (IsOutputOf session sent) first → All (IsOutputOf session first) second
        → AgreesWithAll session sent file → AgreesWithAll session second file }
{}
