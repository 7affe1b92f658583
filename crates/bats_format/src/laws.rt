//! Laws on packet files and refusals, each the contract of a function with an empty body.
ghost use Rattle.std.specs.Prelude.{ℕ, ◌≡◌, ◌+◌, ◌≤◌, ◌∷◌, ◌++◌, ◌⊎◌, List, [], length, Option, None};
ghost use Rattle.bats_model.specs.Bytes.{AreBytes};
ghost use Rattle.bats_model.specs.Session.{SessionData, IsSession};
ghost use Rattle.bats_model.specs.Records.{header_record};
ghost use Rattle.bats_model.specs.PacketFile.{IsPacketFile, most_records, packets_of};
ghost use Rattle.bats_model.specs.Refusal.{IsRefused, first_broken};
ghost use Rattle.bats_model.specs.declared.item.Item.{Item};
ghost use Rattle.bats_model.specs.declared.read_end.ReadEnd.{ReadEnd};

/// Bytes stand for at most one session and one list of items.
pub fn one_packet_file()
    ensures { (session other : SessionData) (list others : List Item) (bytes : List ℕ)
        → IsPacketFile session list bytes → IsPacketFile other others bytes → (session ≡ other) × (list ≡ others) }
{}

/// A packet file that goes on as one keeps its session and its items: what comes is further records.
pub fn longer_packet_file()
    ensures { (session other : SessionData) (list others : List Item) (bytes more : List ℕ)
        → IsPacketFile session list bytes → IsPacketFile other others (bytes ++ more)
        → (session ≡ other) × ((further : List Item) × (others ≡ list ++ further)) }
{}

/// After the records of a packet file at most one record is the next.
pub fn one_next_record()
    ensures { (session : SessionData) (list : List Item) (item other : Item) (front begin rest after : List ℕ)
        → IsPacketFile session (list ++ item ∷ []) front → IsPacketFile session (list ++ other ∷ []) begin
        → front ++ rest ≡ begin ++ after → (item ≡ other) × (front ≡ begin) }
{}

/// Two packet files of one session, one after the other, are one, where their records aren't too many. Its packets are
/// those of the first, and then those of the second.
pub fn joined_packet_files()
    ensures { (session : SessionData) (list others : List Item) (bytes more : List ℕ)
        → IsPacketFile session list bytes → IsPacketFile session others more
        → length list + length others ≤ most_records
        → (joined : List Item)
        × (IsPacketFile session joined (bytes ++ more) × (packets_of joined ≡ packets_of list ++ packets_of others)) }
{}

/// The header record of a session breaks no rule of the header's fields.
pub fn header_breaks_no_rule()
    ensures { (session : SessionData) → IsSession session → first_broken (header_record session) ≡ None }
{}

/// An input is refused for one cause at one place, and no packet file is refused.
pub fn one_refusal()
    ensures once { (input : List ℕ) (end other : ReadEnd) → IsRefused input end → IsRefused input other → end ≡ other }
    ensures no_file { (session : SessionData) (list : List Item) (input : List ℕ) (end : ReadEnd)
        → IsPacketFile session list input → ¬ IsRefused input end }
{}

/// Each input of bytes is a packet file or is refused.
pub fn each_input()
    ensures { (input : List ℕ) → AreBytes input
        → ((session : SessionData) × (list : List Item) × IsPacketFile session list input)
        ⊎ ((end : ReadEnd) × IsRefused input end) }
{}
