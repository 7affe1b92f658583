//! The names of the commands.
ghost use Rattle.std.specs.Prelude.{◌≡◌, ◌∷◌, List, ℕ, option_and_then};
ghost use Rattle.bats_words.specs.Words.{command_of};
ghost use Rattle.bats_words.specs.steps.Named.{named};

/// The name that a command line begins with.
#[derive(Clone, Copy)]
pub(crate) enum Name {
    Source,
    Relay,
    Sink,
    Replay,
    Check,
    Show,
    Trial,
    Help,
}

/// The name that the word is, if it is one.
#[tactic(auto, using(crate::proofs::OtherWords::differs), unfolding(crate::specs::Words::command_of))]
pub(crate) fn name_of(word: &str) -> Option<Name>
    ensures { (words : List (List ℕ)) → command_of (word.now ∷ words) ≡ option_and_then (λ name. named name words) result }
{
    match word {
        "source" => Some(Name::Source),
        "relay" => Some(Name::Relay),
        "sink" => Some(Name::Sink),
        "replay" => Some(Name::Replay),
        "check" => Some(Name::Check),
        "show" => Some(Name::Show),
        "trial" => Some(Name::Trial),
        "help" => Some(Name::Help),
        _ => None,
    }
}
