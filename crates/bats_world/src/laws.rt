//! Laws on honest networks, each as the contract of a function with an empty body.
ghost use Rattle.std.specs.Prelude.{ℕ, ◌≡◌, List, All, Ok};
ghost use Rattle.bats_model.specs.Session.{SessionData};
ghost use Rattle.bats_model.specs.Agreement.{IsFile, Agrees, AgreesWithAll};
ghost use Rattle.bats_model.specs.PacketFile.{HasShape};
ghost use Rattle.bats_world.specs.World.{NetworkState, IsReached, IsEvent, IsSameNetwork, opening, after_event, received_by};
ghost use Rattle.bats_world.specs.declared.event.Event.{Event};
ghost use Rattle.bats_world.specs.declared.made.Made.{Made};

/// Whatever the links, and whichever packets are lost, repeated or given in another order: in each state that events
/// lead to from the opening state, the file agrees with every packet of the pool, and with every packet that a relay or
/// the sink was given.
pub fn honest_packets_agree()
    ensures pool { (state : NetworkState) → IsFile state.session state.file → IsReached state
        → All (λ made. Agrees state.session state.file made.packet) state.pool }
    ensures received { (state : NetworkState) (node : ℕ) → IsFile state.session state.file → IsReached state
        → AgreesWithAll state.session (received_by node state.given) state.file }
    ensures shapes { (state : NetworkState) (node : ℕ) → IsFile state.session state.file → IsReached state
        → All (HasShape state.session) (received_by node state.given) }
{}

/// The opening state is reached, by no event at all, and one event more leads from a reached state to a reached state, of
/// the same session, file, seeds and links.
pub fn events_lead_on()
    ensures opening { (session : SessionData) (file : List ℕ) (seeds : List (List ℕ)) (links : List (ℕ × ℕ))
        → IsReached (opening session file seeds links) }
    ensures more { (state : NetworkState) (event : Event) (next : NetworkState) → IsReached state → IsEvent event
        → after_event state event ≡ Ok next → IsReached next }
    ensures same { (state : NetworkState) (event : Event) (next : NetworkState) → after_event state event ≡ Ok next
        → IsSameNetwork state next }
{}
