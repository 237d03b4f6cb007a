ghost use Rattle.std.specs.Prelude.{◌≡◌, ◌≤◌, ◌++◌, [], ◌∷◌, drop, length};
ghost use Rattle.vs_render.specs.Bodies.{IsWritten, body_bytes, body_in, buffer_of, held_body};

use crate::room::Room;
use std::marker::Model;

/// The lengths of the messages of a body, without the vector and the closing event.
#[derive(Debug, Drop)]
pub(crate) struct Lengths {
    /// Of the messages but the last.
    pub earlier: Vec<usize>,
    pub last: usize,
}

/// The events of a shard's frame but for the vector: those of each message, and the closing one,
/// which stands behind the vector in the last message. A message has at most 8,388,608 bytes, a
/// closing event among them.
#[derive(Debug, Drop)]
pub struct Body {
    pub(crate) room: Room,
    /// The lengths of the messages but the last.
    pub(crate) earlier: Vec<usize>,
    /// The length of the last one, without the closing event.
    pub(crate) last: usize,
}

impl Model for Body {
    ghost use Rattle.std.specs.Prelude.{◌≡◌, ◌≤◌, [], ◌∷◌, ◌++◌, drop, length, take};
    ghost use Rattle.vs_render.specs.Bodies.{HeldBody, IsWithin, body_in, held_body, total_length};

    ghost Value = { HeldBody };

    ghost view = { λ b. held_body b.room.buf.size (body_in (b.earlier.items ++ b.last ∷ []) (b.room.buf.bytes ++ b.room.rest.items)) };

    ghost invariant = { λ b. (total_length (b.earlier.items ++ b.last ∷ []) ≤ length (b.room.buf.bytes ++ b.room.rest.items)) × (b.room.buf.bytes ≡ take b.room.buf.size (b.room.buf.bytes ++ b.room.rest.items)) × (b.room.rest.items ≡ drop b.room.buf.size (b.room.buf.bytes ++ b.room.rest.items)) × IsWithin (body_in (b.earlier.items ++ b.last ∷ []) (b.room.buf.bytes ++ b.room.rest.items)) };
}

impl Body {
    /// The body of what was written behind the empty buffer of a room.
    pub(crate) fn settled(mut room: Room, lengths: Lengths) -> Body
        requires empty { room.buf.bytes ≡ [] }
        requires written { IsWritten (lengths.earlier.items ++ lengths.last ∷ []) room.rest.items (body_in (lengths.earlier.items ++ lengths.last ∷ []) room.rest.items) }
        ensures { result ≡ held_body room.buf.size (body_in (lengths.earlier.items ++ lengths.last ∷ []) room.rest.items) }
    {
        room.settle();
        let Lengths { earlier, last } = lengths;
        Body {
            room,
            earlier,
            last,
        }
    }

    /// How many messages its frame has.
    pub fn messages(&self) -> usize
        ensures count { result ≡ length self.now.body.fronts }
        ensures some { 1 ≤ result }
    {
        self.earlier.len() + 1
    }

    /// The room of the body, to be used again. As much of the body as the buffer can hold is in it.
    pub fn room(self) -> Room
        ensures buf { result.buf ≡ buffer_of self.size (body_bytes self.body) }
        ensures rest { result.rest.items ≡ drop self.size (body_bytes self.body) }
    {
        let Body {
            room,
            earlier: _,
            last: _,
        } = self;
        room
    }
}
