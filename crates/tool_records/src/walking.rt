//! The one walk over the records of a packet file, for each command that takes them one by one.
ghost use Rattle.std.specs.Prelude.{◌≡◌, ◌∷◌, ◌++◌, List, [], Ok, Result};
ghost use Rattle.bats_io.specs.Streams.{InputState, OutputState};
ghost use Rattle.bats_format.specs.Reader.{OpensAt};
ghost use Rattle.bats_model.specs.Session.{SessionData};
ghost use Rattle.bats_model.specs.declared.item.Item.{Item};
ghost use Rattle.tool_run.specs.declared.stop.Stop.{Stop};
ghost use Rattle.tool_records.specs.declared.walking.Next.{Next};
ghost use Rattle.tool_records.specs.declared.walking.Next.TheVariants as takes;
ghost use Rattle.tool_records.specs.Walk.{Begins, CanTake, Walks};
ghost use Rattle.tool_records.specs.steps.Walked.{ending_of};

use bats_format::Reader;
use bats_io::{Sink, Source};
use bats_model::{Item, ReadEnd, Session};
use std::alloc::Global;
use tool_run::Stop;

/// What a taker answers to an item.
#[derive(Clone, Copy, Debug, PartialEq, Eq)]
pub enum Next {
    /// It takes more.
    GoesOn,
    /// It takes no more, and nothing further is to be read.
    Halts,
}

/// How a walk over the records of a packet file ends.
#[derive(Clone, Copy, Debug, PartialEq, Eq)]
pub enum WalkEnd {
    /// The whole input is a packet file, and each of its items was taken.
    Whole,
    /// The input is refused so, after items that were taken. It is neither a failed read nor want of memory.
    Refused(ReadEnd),
    /// The taker halted at the last item that was read.
    Halted,
}

/// What takes the items of a packet file one by one. `K` is what it counts with, or `()`.
pub trait Taker<K> {
    /// What has been done of these items of the session: the taker and its counters at the start and now, the session
    /// and the items, the output at the start and now, and the answer to the last item, which is `GoesOn` before it.
    ghost gives: { Self → K → Self → K → SessionData → List Item → OutputState → OutputState → Result Next Stop → Type 0 };

    /// Takes the next item of a packet file of this session, and may write. An `Err` tells what failed.
    fn take<O: Sink>(
        &mut self,
        alloc: Global,
        session: &Session,
        item: Item,
        output: &mut O,
        tools: &mut K,
    ) -> Result<Next, Stop>
        requires { (first : Self) × (given : K) × CanTake (gives first given self.old tools.old) session.now item (O.state output.old) }
        ensures { (first : Self) (given : K) (so_far : CanTake (gives first given self.old tools.old) session.now item (O.state output.old))
            → gives first given self.new tools.new session.now (so_far.list ++ item ∷ []) so_far.start (O.state output.new) result };
}

// How a walk ends whose reading ended so.
fn ending_of(end: ReadEnd) -> Result<WalkEnd, Stop>
    ensures { result ≡ ending_of end }
{
    match end {
        ReadEnd::Memory => Err(Stop::Memory),
        ReadEnd::ReadFault => Err(Stop::ReadFault),
        _ => Ok(WalkEnd::Refused(end)),
    }
}

//// Goes over the records of a packet file whose first header this reader has just read: gives each item to the taker, that
/// header first, up to the end of the input, the first record that is refused, or the item at which the taker halts, and
/// reads no further. An `Err` tells what failed: a read, want of memory, or the taker. The output is written by the taker
/// alone.
pub(crate) fn walk_opened<S: Source, O: Sink, T: Taker<K>, K>(
    alloc: Global,
    reader: &mut Reader,
    input: &mut S,
    taker: &mut T,
    output: &mut O,
    tools: &mut K,
) -> Result<WalkEnd, Stop>
    requires opened { (start : InputState) × OpensAt start (S.state input.old) reader.old }
    requires begins { T.gives taker.old tools.old taker.old tools.old reader.old.session []
        (O.state output.old) (O.state output.old) (Ok takes.GoesOn) }
    ensures { (start : InputState) → OpensAt start (S.state input.old) reader.old
        → Walks (T.gives taker.old tools.old taker.new tools.new)
        (record { input = start; output = O.state output.old })
        (record { input = S.state input.new; output = O.state output.new })
        result }
{
    let mut item = Item::Header { at: 0 };
    'records: loop {
        match taker.take(alloc, reader.session(), item, output, tools) {
            Ok(Next::GoesOn) => {}
            Ok(Next::Halts) => return Ok(WalkEnd::Halted),
            Err(stop) => return Err(stop),
        }
        match reader.next(alloc, input) {
            Ok(Some(next)) => item = next,
            Ok(None) => return Ok(WalkEnd::Whole),
            Err(end) => return ending_of(end),
        }
    }
}

/// Reads a packet file record by record, and gives each item to the taker, up to the end of the input, the first record
/// that is refused, or the item at which the taker halts, and reads no further. An `Err` tells what failed: a read, want
/// of memory, or the taker. The output is written by the taker alone.
pub fn walk<S: Source, O: Sink, T: Taker<K>, K>(
    alloc: Global,
    input: &mut S,
    taker: &mut T,
    output: &mut O,
    tools: &mut K,
) -> Result<WalkEnd, Stop>
    requires { Begins (T.gives taker.old tools.old taker.old tools.old) (O.state output.old) }
    ensures { Walks (T.gives taker.old tools.old taker.new tools.new)
        (record { input = S.state input.old; output = O.state output.old })
        (record { input = S.state input.new; output = O.state output.new })
        result }
{
    match Reader::open(input) {
        Ok(mut reader) => walk_opened(alloc, &mut reader, input, taker, output, tools),
        Err(end) => ending_of(end),
    }
}
