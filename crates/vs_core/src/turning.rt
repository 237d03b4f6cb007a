//! Turns.
ghost use Rattle.std.specs.Prelude.{◌≡◌, IfOk, Some, false, length, slice_get};
ghost use Rattle.vs_core.specs.Choices.{IsHeadAt, IsNextPlace};
ghost use Rattle.vs_core.specs.Machine.{at_rest, chosen_lane, handled_of, turned, with_next};
ghost use Rattle.vs_core.specs.Tells.{IsHandled, IsRested, IsTurned, RoomIsBack, lane_piece, next_piece};

use crate::frames::put_all_copied;
use crate::rest::room_of;
use crate::{Core, CoreRefusal, Turn};
use std::alloc::Global;

impl Core {
    /// Handles the head that is next, if there is one.
    pub fn turn(&mut self, alloc: Global, out: &mut Vec<u8>) -> Result<Turn, CoreRefusal>
        ensures turned { IsTurned (turned self.old) self.old self.new out.old.items out.new.items result }
        ensures room { IfOk result (λ t. RoomIsBack (next_piece self.old) t) }
    {
        if self.gate.all_copied {
            put_all_copied(alloc, out)?;
            self.gate.all_copied = false;
            return Ok(Turn::AllCopied);
        }
        match self.next_place(alloc)? {
            None => self.at_rest(alloc),
            Some((lane, place)) => self.turn_lane(alloc, out, lane, place),
        }
    }

    /// Handles the head of the lane, which stands at this place.
    fn turn_lane(
        &mut self,
        alloc: Global,
        out: &mut Vec<u8>,
        lane: usize,
        place: usize,
    ) -> Result<Turn, CoreRefusal>
        requires { IsHeadAt self.old.held lane place }
        ensures turned { IsTurned (with_next self.old (Some lane)) self.old self.new out.old.items out.new.items result }
        ensures room { IfOk result (λ t. RoomIsBack (lane_piece self.old (Some lane)) t) }
    {
        let handled = match self.held.get(place) {
            Some((_, piece)) => match self.gate.handle(alloc, out, lane, piece) {
                Ok(handled) => handled,
                Err(e) => return Err(e),
            },
            None => return Err(CoreRefusal::Memory),
        };
        match self.held.remove(place) {
            Some((_, piece)) => Ok(handled.with_room(lane, room_of(piece))),
            None => unreachable!(),
        }
    }

    /// What is answered where no piece is held.
    fn at_rest(&self, alloc: Global) -> Result<Turn, CoreRefusal>
        ensures { IsRested (at_rest self.now) self.now result }
    {
        let standing = self.gate.standing();
        if !self.gate.until_end() {
            return Ok(Turn::Nothing);
        }
        if standing.all_ended {
            return Ok(Turn::Done);
        }
        if standing.all_rest && standing.some_wait {
            let ids = self.gate.waiting(alloc)?;
            return Ok(Turn::Stuck { ids });
        }
        Ok(Turn::Nothing)
    }
}
