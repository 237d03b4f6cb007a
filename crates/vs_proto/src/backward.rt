ghost use Rattle.std.specs.Prelude.{◌≡◌, ◌≤◌, ◌∷◌, ◌++◌, IfOk, OnOk, [], drop, length};

use crate::OutOfMemory;
use std::alloc::Global;
use std::marker::Model;

/// Room that is made at first, in bytes; more is made by doubling.
const FIRST_ROOM: usize = 256;

/// Bytes that are written from their end to their front: a message first and its length then, so
/// that no message is walked for its length.
#[derive(Drop)]
pub(crate) struct Backward {
    alloc: Global,
    room: Vec<u8>,
    start: usize,
}

impl Model for Backward {
    ghost use Rattle.std.specs.Prelude.{◌≤◌, List, drop, length, ℕ};

    ghost Value = { List ℕ };

    ghost view = { λ b. drop b.start b.room.items };

    ghost invariant = { λ b. b.start ≤ length b.room.items };
}

impl Backward {
    pub(crate) fn new(alloc: Global) -> Backward
        ensures { result ≡ [] }
    {
        Backward {
            alloc,
            room: Vec::new(alloc),
            start: 0,
        }
    }

    pub(crate) fn len(&self) -> usize
        ensures { result ≡ length self.now }
    {
        self.room.len() - self.start
    }

    pub(crate) fn as_slice(&self) -> &[u8]
        ensures { result.now ≡ self.now }
    {
        &self.room[self.start..]
    }

    /// Writes a byte in front.
    pub(crate) fn push(&mut self, byte: u8) -> Result<(), OutOfMemory>
        ensures { OnOk result (self.new ≡ byte ∷ self.old) }
    {
        if self.start == 0 {
            return self.put_in_more_room(&[byte]);
        }
        self.start -= 1;
        self.room[self.start] = byte;
        Ok(())
    }

    /// Writes some bytes in front.
    pub(crate) fn put(&mut self, piece: &[u8]) -> Result<(), OutOfMemory>
        ensures { OnOk result (self.new ≡ piece.now ++ self.old) }
    {
        if self.start < piece.len() {
            return self.put_in_more_room(piece);
        }
        let start = self.start - piece.len();
        self.room[start..self.start].copy_from_slice(piece);
        self.start = start;
        Ok(())
    }

    fn put_in_more_room(&mut self, piece: &[u8]) -> Result<(), OutOfMemory>
        ensures { OnOk result (self.new ≡ piece.now ++ self.old) }
    {
        let (room, start) = in_more_room(self.alloc, piece, self.as_slice())?;
        self.room = room;
        self.start = start;
        Ok(())
    }
}

/// New room whose end is a piece and what stood behind it, and where that begins.
fn in_more_room(alloc: Global, piece: &[u8], behind: &[u8]) -> Result<(Vec<u8>, usize), OutOfMemory>
    ensures whole { IfOk result (λ r. drop r.1 r.0.items ≡ piece.now ++ behind.now) }
    ensures within { IfOk result (λ r. r.1 ≤ length r.0.items) }
{
    let start = behind.len().saturating_add(FIRST_ROOM);
    let all = start
        .saturating_add(piece.len())
        .saturating_add(behind.len());
    let mut room = Vec::with_capacity(alloc, all)?;
    room.resize(start, 0)?;
    room.extend_from_slice(piece)?;
    room.extend_from_slice(behind)?;
    Ok((room, start))
}
