//! Lanes that come to their journal.
ghost use Rattle.std.specs.Prelude.{◌≡◌, ◌++◌, ◌∷◌, ◌⊎◌, ℕ, [], IfErr, IfOk, IsTrue, List, OnErr, OnOk, Err, Ok, Some, false, length, map, nat_lt, slice_get, true};
ghost use Rattle.vs_core.specs.Arrivals.{ComesTo, told_refusal};
ghost use Rattle.vs_core.specs.Framing.{journal_events};
ghost use Rattle.vs_core.specs.Machine.{handled_of};
ghost use Rattle.vs_core.specs.Machine.Turned.{Refused};
ghost use Rattle.vs_core.specs.Tells.{IsHandled};
ghost use Rattle.vs_gather.specs.Gathering.{Arrived, arrival};
ghost use Rattle.vs_gather.specs.Gathering.Arrived.{Completes, StillWaits};
ghost use Rattle.vs_gather.specs.declared.kept.Kept.{Kept};
ghost use Rattle.vs_gtid.specs.Vectors.{stands, switched};
ghost use Rattle.vs_proto.specs.Frames.{message_bytes};
ghost use Rattle.vs_render.specs.Events.{no_head, vector_event};
ghost use Rattle.vs_render.specs.declared.piece.EndCause.TheVariants as cause;
ghost use Rattle.vs_render.specs.declared.piece.Piece.TheVariants as piece;
ghost use Rattle.vs_render.specs.declared.room.Room.{Room};
ghost use Rattle.vs_vector.specs.Messages.{vgtid_of};
ghost use Rattle.vs_vector.specs.Places.{most_shards};

use crate::frames::put_journal;
use crate::gate::Gate;
use crate::handled::Handled;
use crate::spelled::SpelledVector;
use crate::{CoreRefusal, LaneState, OutOfMemory};
use std::alloc::{AllocError, Global};
use vs_base::ShardName;
use vs_gather::{Arrival, Gather, GatherRefusal};
use vs_gtid::{JournalValue, Successor};
use vs_vector::{Vector, VectorRefusal};

/// The shards that leave at a switch, and those that come in.
#[derive(Drop)]
struct Exchanged {
    retired: Vec<ShardName>,
    started: Vec<ShardName>,
}

impl Gate {
    /// The lane came to its journal.
    pub(crate) fn own_journal(
        &mut self,
        alloc: Global,
        out: &mut Vec<u8>,
        lane: usize,
        journal: &JournalValue,
    ) -> Result<Handled, CoreRefusal>
        ensures { (room : Room) → IsHandled lane (handled_of self.old lane (slice_get self.old.names lane) (piece.End (cause.OwnJournal journal.now) room)) self.old self.new out.old.items out.new.items result }
    {
        if !self.foresees(alloc, lane, journal)? {
            return self.wait_at(alloc, lane, journal);
        }
        if self.flags.stop_on_reshard {
            return self.halt_at(alloc, out, lane, journal);
        }
        self.switch_at(alloc, out, lane, journal)
    }

    /// Whether the arrival at the journal will complete it, or why it is refused.
    fn foresees(
        &self,
        alloc: Global,
        lane: usize,
        journal: &JournalValue,
    ) -> Result<bool, CoreRefusal>
        ensures ok { IfOk result (ComesTo self.now lane journal.now) }
        ensures err { IfErr result (λ e. (room : Room) → (e ≡ CoreRefusal.Memory) ⊎ (handled_of self.now lane (slice_get self.now.names lane) (piece.End (cause.OwnJournal journal.now) room) ≡ Refused e)) }
    {
        let Some(name) = self.names.get(lane) else {
            return Err(CoreRefusal::Memory);
        };
        if lane >= self.states.len() || !self.vector.as_vector().stands(name) {
            return Err(CoreRefusal::Memory);
        }
        match self
            .gather
            .check(alloc, self.vector.as_vector(), name, journal)
        {
            Ok(complete) => Ok(complete),
            Err(e) => Err(told_refusal(e)),
        }
    }

    /// The journal waits for others.
    fn wait_at(
        &mut self,
        alloc: Global,
        lane: usize,
        journal: &JournalValue,
    ) -> Result<Handled, CoreRefusal>
        requires { ComesTo self.old lane journal.now false }
        ensures { (room : Room) (before : List ℕ) → IsHandled lane (handled_of self.old lane (slice_get self.old.names lane) (piece.End (cause.OwnJournal journal.now) room)) self.old self.new before before result }
    {
        let Some(name) = self.names.get(lane) else {
            return Err(CoreRefusal::Memory);
        };
        let journal = journal.copy(alloc)?;
        keep(&mut self.gather, self.vector.as_vector(), name, journal)?;
        self.states[lane] = LaneState::Over;
        Ok(Handled::Arrived)
    }

    /// The journal would take effect, and the stream halts in its place.
    fn halt_at(
        &mut self,
        alloc: Global,
        out: &mut Vec<u8>,
        lane: usize,
        journal: &JournalValue,
    ) -> Result<Handled, CoreRefusal>
        requires comes { ComesTo self.old lane journal.now true }
        requires stops { self.old.flags.stop_on_reshard ≡ true }
        ensures { (room : Room) → IsHandled lane (handled_of self.old lane (slice_get self.old.names lane) (piece.End (cause.OwnJournal journal.now) room)) self.old self.new out.old.items out.new.items result }
    {
        let Some(name) = self.names.get(lane) else {
            return Err(CoreRefusal::Memory);
        };
        let came = journal.copy(alloc)?;
        let vgtid = self.vector.as_vector().message(alloc)?;
        put_journal(alloc, out, true, journal, vgtid)?;
        complete(&mut self.gather, self.vector.as_vector(), name, came);
        self.states[lane] = LaneState::Over;
        Ok(Handled::Halted { id: journal.id })
    }

    /// The journal takes effect.
    fn switch_at(
        &mut self,
        alloc: Global,
        out: &mut Vec<u8>,
        lane: usize,
        journal: &JournalValue,
    ) -> Result<Handled, CoreRefusal>
        requires comes { ComesTo self.old lane journal.now true }
        requires goes_on { self.old.flags.stop_on_reshard ≡ false }
        ensures { (room : Room) → IsHandled lane (handled_of self.old lane (slice_get self.old.names lane) (piece.End (cause.OwnJournal journal.now) room)) self.old self.new out.old.items out.new.items result }
    {
        let Some(name) = self.names.get(lane) else {
            return Err(CoreRefusal::Memory);
        };
        let next = switched(self.vector.as_vector(), journal)?;
        let Exchanged { retired, started } = exchanged_names(alloc, journal)?;
        let came = journal.copy(alloc)?;
        let vgtid = next.message(alloc)?;
        let vector = SpelledVector::new(alloc, next)?;
        put_journal(alloc, out, self.flags.include_journals, journal, vgtid)?;
        complete(&mut self.gather, self.vector.as_vector(), name, came);
        self.vector = vector;
        self.states[lane] = LaneState::Over;
        Ok(Handled::Switched { retired, started })
    }
}

/// Why a turn isn't made, where an arrival is refused.
fn told_refusal(e: GatherRefusal) -> CoreRefusal
    ensures { result ≡ told_refusal e }
{
    match e {
        GatherRefusal::Differs { id, kept, came } => {
            CoreRefusal::Gathering(GatherRefusal::Differs { id, kept, came })
        }
        GatherRefusal::Clash { id, shard } => {
            CoreRefusal::Gathering(GatherRefusal::Clash { id, shard })
        }
        GatherRefusal::Memory => CoreRefusal::Memory,
    }
}

/// The shard comes to a journal that waits on.
fn keep(
    gather: &mut Gather,
    vector: &Vector,
    name: &ShardName,
    journal: JournalValue,
) -> Result<(), OutOfMemory>
    requires stands { IsTrue (stands vector.now name.now) }
    requires waits { (kept : List Kept) × (arrival vector.now name.now journal gather.old ≡ Ok (StillWaits kept)) }
    ensures ok { OnOk result (arrival vector.now name.now journal gather.old ≡ Ok (StillWaits gather.new)) }
    ensures err { OnErr result (gather.new ≡ gather.old) }
{
    match gather.arrive(vector, name, journal) {
        Ok(Arrival::Waiting) => Ok(()),
        Ok(Arrival::Complete(_)) => unreachable!(),
        Err(_) => Err(AllocError),
    }
}

/// The shard's arrival completes the journal.
fn complete(gather: &mut Gather, vector: &Vector, name: &ShardName, journal: JournalValue)
    requires stands { IsTrue (stands vector.now name.now) }
    requires completes { (kept : List Kept) × (arrival vector.now name.now journal gather.old ≡ Ok (Completes kept)) }
    ensures { arrival vector.now name.now journal gather.old ≡ Ok (Completes gather.new) }
{
    let _arrival = gather.arrive(vector, name, journal);
}

/// The vector at the switch of the journal.
fn switched(vector: &Vector, journal: &JournalValue) -> Result<Vector, CoreRefusal>
    ensures ok { IfOk result (λ v. (v ≡ switched vector.now journal.now) × (nat_lt most_shards (length v) ≡ false)) }
    ensures err { IfErr result (λ e. (e ≡ CoreRefusal.Memory) ⊎ ((e ≡ CoreRefusal.TooManyShards (length (switched vector.now journal.now))) × (nat_lt most_shards (length (switched vector.now journal.now)) ≡ true))) }
{
    match vector.replaced(
        journal.participants.as_slice(),
        journal.successors.as_slice(),
    ) {
        Ok(vector) => Ok(vector),
        Err(VectorRefusal::TooManyShards { n }) => Err(CoreRefusal::TooManyShards { n }),
        Err(_) => Err(CoreRefusal::Memory),
    }
}

/// The shards that leave at the switch of the journal, and those that come in.
fn exchanged_names(alloc: Global, journal: &JournalValue) -> Result<Exchanged, OutOfMemory>
    ensures retired { IfOk result (λ e. e.retired.items ≡ journal.now.participants) }
    ensures started { IfOk result (λ e. e.started.items ≡ map (λ n. n.name) journal.now.successors) }
{
    let retired = journal.participants.copy(alloc)?.into_vec();
    let started = successor_names(alloc, journal.successors.as_slice())?;
    Ok(Exchanged { retired, started })
}

fn successor_names(alloc: Global, successors: &[Successor]) -> Result<Vec<ShardName>, OutOfMemory>
    ensures { IfOk result (λ names. names.items ≡ map (λ n. n.name) successors.now) }
{
    let mut names = Vec::with_capacity(alloc, successors.len())?;
    for successor in successors {
        names.push(successor.name.copy(alloc)?)?;
    }
    Ok(names)
}
