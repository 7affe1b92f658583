ghost use Rattle.std.specs.Prelude.{◌≡◌};
ghost use Rattle.bats_script.specs.declared.script_end.ScriptEnd.TheVariants.{Memory};

use std::alloc::AllocError;

/// What is wrong in a script: its text, or a key. The first in this order is told.
#[derive(Clone, Copy, Debug, PartialEq, Eq)]
pub enum ScriptKey {
    /// The text is no TOML, or not UTF-8.
    Toml,
    /// There is a key that no script has.
    Unknown,
    /// Packets of a batch.
    M,
    /// Bytes of a symbol.
    T,
    /// The degree table.
    Table,
    /// Whether the first batches carry the symbols as they are.
    Systematic,
    /// The session's seed.
    Seed,
    /// The file's bytes.
    File,
    /// The relays' seeds.
    Relays,
    /// The links between nodes.
    Links,
    /// The events.
    Event,
}

/// Why a text gives no script.
#[derive(Clone, Copy, Debug, PartialEq, Eq)]
pub enum ScriptEnd {
    /// Memory ran out.
    Memory,
    /// The text, or the value of a key, is wrong.
    Key {
        /// The first that is.
        key: ScriptKey,
    },
    /// All keys are right, and the file has more than 4,096 symbols.
    TooLong,
}

impl From<AllocError> for ScriptEnd {
    ghost from_gives = { λ _ end. end ≡ Memory };

    fn from(_error: AllocError) -> ScriptEnd {
        ScriptEnd::Memory
    }
}
