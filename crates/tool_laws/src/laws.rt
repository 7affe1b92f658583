//! Laws on the endings that commands promise, each the contract of a function with an empty body.
ghost use Rattle.std.specs.Prelude.{ℕ, ◌≡◌, ◌≤◌, ◌*◌, ◌⊎◌, Bool, true, false, List, [], All, length, Some};
ghost use Rattle.std.specs.Int.{div_ceil};
ghost use Rattle.std.specs.List.{Contains};
ghost use Rattle.bats_model.specs.Bytes.{AreBytes};
ghost use Rattle.bats_model.specs.Session.{SessionData, symbols_of, symbol_count, max_symbols};
ghost use Rattle.bats_model.specs.PacketFile.{IsPacketFile, packets_of};
ghost use Rattle.bats_model.specs.Agreement.{AgreesWithAll};
ghost use Rattle.bats_model.specs.Relay.{IsOutputOf};
ghost use Rattle.bats_model.specs.declared.item.Item.{Item};
ghost use Rattle.bats_words.specs.declared.command.Command.TheVariants as commands;
ghost use Rattle.bats_words.specs.declared.source_options.SourceOptions.{SourceOptions};
ghost use Rattle.bats_words.specs.declared.trial_options.TrialOptions.{TrialOptions};
ghost use Rattle.bats_words.specs.Options.{HasCount, HasRanges, IsSeed, source_options};
ghost use Rattle.bats_words.specs.Words.{command_of};
ghost use Rattle.tool_run.specs.declared.status.Status.TheVariants as statuses;
ghost use Rattle.tool_run.specs.Ending.{Ending};
ghost use Rattle.tool_run.specs.Promise.{reads_nothing};
ghost use Rattle.tool_source.specs.FileSession.{session_for};
ghost use Rattle.tool_source.specs.Source.{source_promise};
ghost use Rattle.tool_sink.specs.Check.{check_promise};
ghost use Rattle.tool_sink.specs.Sink.{sink_promise};
ghost use Rattle.tool_replay.specs.Replay.{replay_promise};
ghost use Rattle.tool_replay.specs.Trial.{trial_promise};
ghost use Rattle.tool_stream.specs.Relay.{relay_promise};
ghost use Rattle.tool_stream.specs.Show.{show_promise};
ghost use Rattle.tool_laws.specs.GivesBack.{GivesBack};

/// A command has one ending on an input, but for `sink` and `replay` with need-more: there status, notes line, how much is read and
/// the bound on the work are one, and the two agreeing files that it writes where both are asked for are free.
pub fn one_ending()
    ensures nothing { (end : Ending) (input : List ℕ) (ending other : Ending)
        → (reads_nothing end).ends input ending → (reads_nothing end).ends input other → ending ≡ other }
    ensures source { (options : SourceOptions) (input : List ℕ) (ending other : Ending)
        → (source_promise options).ends input ending → (source_promise options).ends input other → ending ≡ other }
    ensures sink { (both : Bool) (input : List ℕ) (ending other : Ending)
        → (sink_promise both).ends input ending → (sink_promise both).ends input other
        → (ending.status ≡ other.status) × (ending.line ≡ other.line) × (ending.reach ≡ other.reach)
        × (ending.work ≡ other.work) × ((ending.output ≡ other.output) ⊎ (ending.status ≡ statuses.NeedMore)) }
    ensures check { (input : List ℕ) (ending other : Ending)
        → check_promise.ends input ending → check_promise.ends input other → ending ≡ other }
    ensures show { (input : List ℕ) (ending other : Ending)
        → show_promise.ends input ending → show_promise.ends input other → ending ≡ other }
    ensures relay { (seed : List ℕ) (extra : Bool) (count : ℕ) (input : List ℕ) (ending other : Ending)
        → (relay_promise seed extra count).ends input ending → (relay_promise seed extra count).ends input other
        → ending ≡ other }
    ensures replay { (both : Bool) (input : List ℕ) (ending other : Ending)
        → (replay_promise both false).ends input ending → (replay_promise both false).ends input other
        → (ending.status ≡ other.status) × (ending.line ≡ other.line) × (ending.reach ≡ other.reach) × (ending.work ≡ other.work)
        × ((ending.output ≡ other.output) ⊎ (ending.status ≡ statuses.NeedMore)) }
    ensures pool { (both : Bool) (input : List ℕ) (ending other : Ending)
        → (replay_promise both true).ends input ending → (replay_promise both true).ends input other → ending ≡ other }
    ensures trial { (options : TrialOptions) (input : List ℕ) (ending other : Ending)
        → (trial_promise options).ends input ending → (trial_promise options).ends input other → ending ≡ other }
{}

/// On one input `check` and `sink` end with one status, and have read as much of it.
pub fn check_ends_as_sink_does()
    ensures { (both : Bool) (input : List ℕ) (ending other : Ending)
        → check_promise.ends input ending → (sink_promise both).ends input other
        → (ending.status ≡ other.status) × (ending.reach ≡ other.reach) }
{}

/// What `source` writes of a file that is not too long is a packet file of the file's session, with batches times m
/// packets, and the file agrees with all of them.
pub fn source_sends_a_packet_file()
    ensures { (options : SourceOptions) (file : List ℕ) (ending : Ending) → HasRanges options
        → IsSeed options.seed → AreBytes file
        → symbols_of (session_for options (length file)) ≤ max_symbols
        → (source_promise options).ends file ending
        → (ending.status ≡ statuses.Done)
        × ((list : List Item)
        × (IsPacketFile (session_for options (length file)) list ending.output
        × (length (packets_of list) ≡ options.batches * options.m)
        × AgreesWithAll (session_for options (length file)) (packets_of list) file)) }
{}

/// On a packet file with which a file agrees, `sink` ends as done with that file, where no other agrees, and else with
/// need-more; or at the limit, where more packets are new than may be kept. It says neither that no file agrees nor that
/// the input is at fault. On any input, where the two files of need-more aren't asked for, an ending other than done
/// writes nothing.
pub fn sink_gives_the_file_that_agrees()
    ensures file { (session : SessionData) (list : List Item) (input file : List ℕ) (both : Bool) (ending : Ending)
        → IsPacketFile session list input → AgreesWithAll session (packets_of list) file
        → (sink_promise both).ends input ending → GivesBack session (packets_of list) file ending }
    ensures or_nothing { (input : List ℕ) (ending : Ending) → (sink_promise false).ends input ending
        → (ending.status ≡ statuses.Done) ⊎ (ending.output ≡ []) }
{}

/// On any choice of the packets that `source` sends, in any order and with repeats, `sink` ends as done only with the
/// file that was sent, where no other agrees; else with need-more, or at the limit of kept packets.
pub fn sink_gives_what_source_sends()
    ensures { (options : SourceOptions) (file : List ℕ) (sent ending : Ending) (records list : List Item)
        (input : List ℕ) (both : Bool) → HasRanges options → AreBytes file
        → (source_promise options).ends file sent
        → IsPacketFile (session_for options (length file)) records sent.output
        → IsPacketFile (session_for options (length file)) list input
        → All (Contains (packets_of records)) (packets_of list)
        → (sink_promise both).ends input ending
        → GivesBack (session_for options (length file)) (packets_of list) file ending }
{}

/// Where `source` sends each symbol once, in systematic batches, `sink` ends as done with the file on all these
/// packets, in any order and with repeats.
pub fn sink_gives_a_file_sent_whole()
    ensures { (options : SourceOptions) (file : List ℕ) (sent ending : Ending) (records list : List Item)
        (input : List ℕ) (both : Bool) → HasRanges options → AreBytes file
        → options.systematic ≡ true → options.first ≡ 0
        → options.batches ≡ div_ceil (symbols_of (session_for options (length file))) options.m
        → (source_promise options).ends file sent
        → IsPacketFile (session_for options (length file)) records sent.output
        → IsPacketFile (session_for options (length file)) list input
        → All (Contains (packets_of records)) (packets_of list)
        → All (Contains (packets_of list)) (packets_of records)
        → (sink_promise both).ends input ending
        → (ending.status ≡ statuses.Done) × (ending.output ≡ file) }
{}

/// Words that are a command `source` and send a file, and then `sink` on what was sent: it ends as done only with that
/// file, and does so where each symbol was sent once, in systematic batches.
pub fn sink_after_source()
    ensures no_other { (words : List (List ℕ)) (m t table : ℕ) (systematic : Bool) (seed : List ℕ)
        (first batches : ℕ) (both : Bool) (file : List ℕ) (sent ending : Ending)
        → command_of words ≡ Some (commands.Source m t table systematic seed first batches) → AreBytes file
        → (source_promise (source_options m t table systematic seed first batches)).ends file sent
        → sent.status ≡ statuses.Done → (sink_promise both).ends sent.output ending
        → ((ending.status ≡ statuses.Done) × (ending.output ≡ file))
        ⊎ ((ending.status ≡ statuses.NeedMore) ⊎ (ending.status ≡ statuses.Limit)) }
    ensures whole { (words : List (List ℕ)) (m t table : ℕ) (seed : List ℕ) (batches : ℕ) (both : Bool)
        (file : List ℕ) (sent ending : Ending)
        → command_of words ≡ Some (commands.Source m t table true seed 0 batches)
        → batches ≡ div_ceil (symbol_count (length file) t) m → AreBytes file
        → (source_promise (source_options m t table true seed 0 batches)).ends file sent
        → sent.status ≡ statuses.Done → (sink_promise both).ends sent.output ending
        → (ending.status ≡ statuses.Done) × (ending.output ≡ file) }
{}

/// What `relay` writes of a packet file, where it ends as done, is a packet file of the same session. Each of its packets
/// is an output of a relay that took the input's packets, and each file that agrees with all of the input's packets
/// agrees with all of these. The count is that of the relay's rule, in the range that words are held to.
pub fn relay_sends_what_agrees()
    ensures { (seed : List ℕ) (extra : Bool) (count : ℕ) (session : SessionData) (list : List Item) (input : List ℕ)
        (ending : Ending) → HasCount count → IsPacketFile session list input
        → (relay_promise seed extra count).ends input ending → ending.status ≡ statuses.Done
        → (sent : List Item) × (IsPacketFile session sent ending.output
        × All (IsOutputOf session (packets_of list)) (packets_of sent)
        × ((file : List ℕ) → AgreesWithAll session (packets_of list) file
        → AgreesWithAll session (packets_of sent) file)) }
{}
