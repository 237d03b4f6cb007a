//! Lanes that end, but for those that come to a journal.
ghost use Rattle.std.specs.Prelude.{◌≡◌, List, ℕ, slice_get};
ghost use Rattle.vs_base.specs.declared.ShardName.{ShardName};
ghost use Rattle.vs_core.specs.Machine.{ended_by, handled_of};
ghost use Rattle.vs_core.specs.Machine.Turned.{Refused};
ghost use Rattle.vs_core.specs.Tells.{IsHandled};
ghost use Rattle.vs_render.specs.declared.piece.EndCause.TheVariants as cause;
ghost use Rattle.vs_render.specs.declared.piece.Piece.TheVariants as piece;
ghost use Rattle.vs_render.specs.declared.room.Room.{Room};

use crate::gate::Gate;
use crate::handled::Handled;
use crate::scans::failures;
use crate::{CoreRefusal, LaneState};
use std::alloc::Global;
use vs_render::EndCause;

/// How often a shard is read anew.
const MOST_RESTARTS: usize = 3;

impl Gate {
    /// The lane came to the end of its log.
    pub(crate) fn at_end(&mut self, lane: usize) -> Result<Handled, CoreRefusal>
        ensures { (room : Room) (before : List ℕ) → IsHandled lane (handled_of self.old lane (slice_get self.old.names lane) (piece.End cause.AtEnd room)) self.old self.new before before result }
    {
        if lane < self.names.len() && lane < self.states.len() {
            self.states[lane] = LaneState::AtEnd;
            return Ok(Handled::Ended);
        }
        Err(CoreRefusal::Memory)
    }

    /// The feed of the lane failed.
    pub(crate) fn feed_fault(&mut self, alloc: Global, lane: usize) -> Result<Handled, CoreRefusal>
        ensures { (room : Room) (before : List ℕ) → IsHandled lane (handled_of self.old lane (slice_get self.old.names lane) (piece.End cause.FeedFault room)) self.old self.new before before result }
    {
        let Some(name) = self.names.get(lane) else {
            return Err(CoreRefusal::Memory);
        };
        if lane >= self.states.len() {
            return Err(CoreRefusal::Memory);
        }
        let failed = failures(self.names.as_slice(), self.states.as_slice(), name);
        let name = name.copy(alloc)?;
        if failed >= MOST_RESTARTS {
            return Err(CoreRefusal::Spent { name });
        }
        self.states[lane] = LaneState::Failed;
        Ok(Handled::Restart { name })
    }

    /// What comes of the lane can't go on for this cause.
    pub(crate) fn refuse(
        &self,
        alloc: Global,
        lane: usize,
        cause: EndCause,
    ) -> Result<Handled, CoreRefusal>
        requires { (name : ShardName) → ended_by self.now lane name cause ≡ Refused (CoreRefusal.Lane name cause) }
        ensures { (room : Room) (before : List ℕ) → IsHandled lane (handled_of self.now lane (slice_get self.now.names lane) (piece.End cause room)) self.now self.now before before result }
    {
        match self.names.get(lane) {
            Some(name) => Err(CoreRefusal::Lane {
                name: name.copy(alloc)?,
                cause,
            }),
            None => Err(CoreRefusal::Memory),
        }
    }
}
