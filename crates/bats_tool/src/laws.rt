//! What holds of the promises of words, each the contract of a function with an empty body.
ghost use Rattle.std.specs.Prelude.{ℕ, Bool, Some};
ghost use Rattle.bats_words.specs.declared.command.Command.TheVariants as commands;
ghost use Rattle.tool_run.specs.Run.{RunsBy};
ghost use Rattle.tool_run.specs.Streams.{RunState};
ghost use Rattle.tool_run.specs.declared.status.Status.{Status};
ghost use Rattle.bats_tool.specs.Promises.{promise_of};

/// What a command promises is one for all numbers of workers: a run that keeps its promise with one number keeps it with each
/// other.
pub fn workers_change_no_promise()
    ensures sink { (one other : ℕ) (both : Bool) (before after : RunState) (status : Status)
        → RunsBy (promise_of (Some (commands.Sink one both))) before after status
        → RunsBy (promise_of (Some (commands.Sink other both))) before after status }
    ensures check { (one other : ℕ) (before after : RunState) (status : Status)
        → RunsBy (promise_of (Some (commands.Check one))) before after status
        → RunsBy (promise_of (Some (commands.Check other))) before after status }
    ensures replay { (one other : ℕ) (both pool : Bool) (before after : RunState) (status : Status)
        → RunsBy (promise_of (Some (commands.Replay one both pool))) before after status
        → RunsBy (promise_of (Some (commands.Replay other both pool))) before after status }
    ensures trial { (number m t table file_length batches relays loss one other : ℕ) (before after : RunState) (status : Status)
        → RunsBy (promise_of (Some (commands.Trial number m t table file_length batches relays loss one))) before after status
        → RunsBy (promise_of (Some (commands.Trial number m t table file_length batches relays loss other))) before after status }
{}
