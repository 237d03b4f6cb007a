ghost use Rattle.std.specs.Prelude.{◌≡◌, ◌≤◌, ◌⊎◌, IfOk, None};
ghost use Rattle.vs_outside.specs.Counts.{Rose};
ghost use Rattle.vs_outside.specs.Told.{Writes};
ghost use Rattle.vs_log.specs.Laws.{FitAlong, HasNewGtids};
ghost use Rattle.vs_command.specs.Causes.{LogAsksFor};
ghost use Rattle.std.specs.Option.{option_map};
ghost use Rattle.vs_command.specs.Fetched.{IsPlaced, entries_of, fault_of, read_as};
ghost use Rattle.vs_command.specs.Sending.{lacking, position_after};
ghost use Rattle.vs_command.specs.Stages.{IsBroughtOf};
ghost use Rattle.vs_command.specs.Stops.{end_of, refusal_of};
ghost use Rattle.vs_command.specs.Streaming.{IsOfLog, IsStart, IsStreamedFrom};

use crate::due::due_entries;
use crate::fetched::{Fetched, LogFault, Placed};
use crate::sending::{SendEnd, send_entries};
use crate::start::Start;
use crate::status::Status;
use std::alloc::{AllocError, Global};
use vs_base::{OutOfMemory, ShardName, Why};
use vs_filter::Bound;
use vs_gtid::GtidSet;
use vs_outside::Sink;

/// The position behind a base and these entries.
fn position_behind(
    alloc: Global,
    base: &GtidSet,
    entries: &[Placed],
) -> Result<GtidSet, OutOfMemory>
    ensures { IfOk result (λ p. p ≡ position_after base.now (entries_of entries.now)) }
{
    let mut position = base.copy(alloc)?;
    for placed in entries {
        // No log is read whose GTIDs make a set of too many intervals.
        match position.add(placed.entry.gtid) {
            Ok(()) => {}
            Err(_) => return Err(AllocError),
        }
    }
    Ok(position)
}

/// How many of so many entries stood whole at the mark; all of them where there is none.
fn count_at(mark: Option<usize>, all: usize) -> usize
    ensures within { result ≤ all }
    ensures unmarked { mark ≡ None → result ≡ all }
{
    match mark {
        Some(count) => count.min(all),
        None => all,
    }
}

/// The position of a start in a log.
fn position_of(alloc: Global, start: Start, fetched: &Fetched) -> Result<GtidSet, OutOfMemory>
    requires { HasNewGtids (read_as fetched.now) }
    ensures start { IfOk result (λ p. IsStart (read_as fetched.now) start (fetched.now.mark ≡ None) p) }
    ensures fits { start ≡ Start.Current → IfOk result (λ p. FitAlong p (lacking p (entries_of fetched.now.entries))) }
{
    match start {
        Start::At(set) => Ok(set),
        Start::Current => {
            let entries = fetched.entries.as_slice();
            let count = count_at(fetched.mark, entries.len());
            position_behind(alloc, &fetched.base, &entries[..count])
        }
    }
}

/// How a stream ends all of whose due entries were sent: at the journal that stops it, or at what is
/// wrong with the log, or at the log's end.
fn end_of(name: ShardName, stop: Option<i64>, fault: Option<LogFault>) -> Status
    ensures status { result ≡ end_of name stop (option_map fault_of fault) }
    ensures kind { IsOfLog result }
    ensures no_link { result ≡ Status.LinkFault → ⊥ }
{
    if let Some(id) = stop {
        return Status::Stopped { name, id };
    }
    match fault {
        Some(fault) => Status::BadLog {
            name,
            offset: fault.offset,
            why: fault.why,
        },
        None => Status::Done,
    }
}

/// How a stream ends of which not all due entries were sent.
fn refused(name: ShardName, end: SendEnd) -> Status
    ensures status { result ≡ refusal_of name end }
    ensures kind { IsOfLog result }
    ensures link { result ≡ Status.LinkFault → end ≡ SendEnd.LinkFault }
{
    match end {
        SendEnd::Memory => Status::Memory,
        SendEnd::LinkFault => Status::LinkFault,
        SendEnd::PositionTooLarge => Status::PositionTooLarge { name },
        SendEnd::TooLarge { offset, bytes } => Status::BadLog {
            name,
            offset,
            why: Why::TooLarge { bytes },
        },
    }
}

/// Streams a shard's log, which is there whole, from a start to its end, to its first fault, or to a
/// journal of the shard's own, whichever comes first.
pub fn stream_log<O: Sink>(
    alloc: Global,
    output: &mut O,
    name: ShardName,
    start: Start,
    bound: &Bound,
    fetched: Fetched,
) -> Status
    requires { HasNewGtids (read_as fetched) }
    ensures wrote { Writes (O.sent output.old) (O.sent output.new) (λ w. IsStreamedFrom (IsPlaced fetched.entries) bound.now.tables name (read_as fetched) start (fetched.mark ≡ None) result w) }
    ensures due { IsBroughtOf (read_as fetched) start result ⊎ LogAsksFor (IsPlaced fetched.entries) bound.now.tables name (read_as fetched) start result }
    ensures kind { IsOfLog result }
    ensures later { O.faults output.old ≤ O.faults output.new }
    ensures link { result ≡ Status.LinkFault → Rose (O.faults output.old) (O.faults output.new) }
{
    let entries = fetched.entries.as_slice();
    let Ok(start) = position_of(alloc, start, &fetched) else {
        return Status::Memory;
    };
    if let Some(missing) = fetched.base.first_missing(&start) {
        return Status::Purged { name, missing };
    }
    let due = due_entries(entries, &name, &start);
    match send_entries(alloc, output, &name, due.entries, bound, &start) {
        Ok(()) => {}
        Err(end) => return refused(name, end),
    }
    let stop = due.stop;
    let Fetched { fault, .. } = fetched;
    end_of(name, stop, fault)
}
