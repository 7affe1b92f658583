//! Laws on stuck sets and inactive lists, each as the contract of a function with an empty body.
ghost use Rattle.std.specs.Prelude.{ℕ, ◌<◌, ◌↔◌, Bool, List, length};
ghost use Rattle.bats_model.specs.Session.{SessionData};
ghost use Rattle.bats_model.specs.Peeling.{Fixes, IsStuckSet, with_symbols};
ghost use Rattle.bats_model.specs.declared.packet.Packet.{Packet};
ghost use Rattle.bats_peel.specs.OneSet.{IsSubset, unknown_count, HasOneStuckSet, HasOneInactiveList};

/// What fixes the contributors outside a set fixes those of them that are outside a larger set.
pub fn fixed_parts()
    ensures { (session : SessionData) (number : ℕ) (kept : List Packet) (set larger : List Bool)
        → IsSubset session set larger → Fixes session number kept set → Fixes session number kept larger }
{}

/// A batch with fewer kept packets than contributors outside the set doesn't fix them.
pub fn few_packets()
    ensures { (session : SessionData) (number : ℕ) (kept : List Packet) (set : List Bool)
        → length kept < unknown_count session number set → ¬ Fixes session number kept set }
{}

/// There is one stuck set from each set, in whatever order the steps are taken.
pub fn one_stuck_set()
    ensures { (session : SessionData) (packets : List Packet) (set : List Bool) → HasOneStuckSet session packets set }
{}

/// The stuck set from a larger set is larger.
pub fn stuck_sets_grow()
    ensures { (session : SessionData) (packets : List Packet) (set larger stuck other : List Bool)
        → IsSubset session set larger → IsStuckSet session packets set stuck → IsStuckSet session packets larger other
        → IsSubset session stuck other }
{}

/// With more symbols the stuck set is the same whether they are added to the set at the start or to the stuck set from it.
pub fn stuck_sets_go_on()
    ensures { (session : SessionData) (packets : List Packet) (set stuck : List Bool) (symbols : List ℕ) (end : List Bool)
        → IsStuckSet session packets set stuck
        → IsStuckSet session packets (with_symbols session stuck symbols) end
        ↔ IsStuckSet session packets (with_symbols session set symbols) end }
{}

/// There is one inactive list for each list of packets.
pub fn one_inactive_list()
    ensures { (session : SessionData) (packets : List Packet) → HasOneInactiveList session packets }
{}
