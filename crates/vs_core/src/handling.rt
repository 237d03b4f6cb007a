//! What is done for a piece.
ghost use Rattle.std.specs.Prelude.{List, ℕ, slice_get};
ghost use Rattle.vs_core.specs.Machine.{handled_of};
ghost use Rattle.vs_core.specs.Tells.{IsHandled};
ghost use Rattle.vs_render.specs.declared.piece.Piece.TheVariants as piece;
ghost use Rattle.vs_render.specs.declared.room.Room.{Room};

use crate::CoreRefusal;
use crate::gate::Gate;
use crate::handled::Handled;
use std::alloc::Global;
use vs_render::{EndCause, Piece};

impl Gate {
    /// Does what the piece of the lane asks for.
    pub(crate) fn handle(
        &mut self,
        alloc: Global,
        out: &mut Vec<u8>,
        lane: usize,
        piece: &Piece,
    ) -> Result<Handled, CoreRefusal>
        ensures { IsHandled lane (handled_of self.old lane (slice_get self.old.names lane) piece.now) self.old self.new out.old.items out.new.items result }
    {
        match piece {
            Piece::Tx { gtid, time, body } => self.tx(alloc, out, lane, *gtid, *time, body),
            Piece::Foreign {
                gtid,
                time,
                journal,
                body,
            } => self.foreign(alloc, out, lane, *gtid, *time, journal, body),
            Piece::Chunk {
                position,
                last_key,
                time,
                body,
            } => self.chunk(alloc, out, lane, position, last_key, *time, body),
            Piece::CopyDone {
                position,
                time,
                room: _,
            } => self.copy_done(alloc, out, lane, position, *time),
            Piece::Idle { room: _ } => self.idle(lane),
            Piece::End { cause, room: _ } => self.end(alloc, out, lane, cause),
        }
    }

    /// Nothing is there yet.
    fn idle(&self, lane: usize) -> Result<Handled, CoreRefusal>
        ensures { (room : Room) (before : List ℕ) → IsHandled lane (handled_of self.now lane (slice_get self.now.names lane) (piece.Idle room)) self.now self.now before before result }
    {
        match self.names.get(lane) {
            Some(_) => Ok(Handled::Idled),
            None => Err(CoreRefusal::Memory),
        }
    }

    /// Nothing more comes of the lane.
    fn end(
        &mut self,
        alloc: Global,
        out: &mut Vec<u8>,
        lane: usize,
        cause: &EndCause,
    ) -> Result<Handled, CoreRefusal>
        ensures { (room : Room) → IsHandled lane (handled_of self.old lane (slice_get self.old.names lane) (piece.End cause.now room)) self.old self.new out.old.items out.new.items result }
    {
        match cause {
            EndCause::AtEnd => self.at_end(lane),
            EndCause::OwnJournal { journal } => self.own_journal(alloc, out, lane, journal),
            EndCause::FeedFault => self.feed_fault(alloc, lane),
            EndCause::BadLog { offset, why } => {
                let why = why.copy(alloc)?;
                let offset = *offset;
                self.refuse(alloc, lane, EndCause::BadLog { offset, why })
            }
            EndCause::Purged { missing } => {
                let missing = *missing;
                self.refuse(alloc, lane, EndCause::Purged { missing })
            }
            EndCause::Memory => self.refuse(alloc, lane, EndCause::Memory),
        }
    }
}
