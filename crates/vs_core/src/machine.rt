//! The core: what it holds, and the calls that take no turn.
ghost use Rattle.std.specs.Prelude.{◌≡◌, ◌++◌, ◌∷◌, IfErr, IfOk, OnErr, OnOk, [], length};
ghost use Rattle.vs_core.specs.Machine.{MayBegin, MayTake, initial, lane_begun, piece_taken};

use crate::gate::Gate;
use crate::{OutOfMemory, Rest};
use std::alloc::{AllocError, Global};
use std::collections::VecDeque;
use std::marker::Model;
use vs_base::ShardName;
use vs_render::Piece;
use vs_request::Flags;
use vs_vector::Vector;

/// The core of a stream: the vector, the lanes by their numbers, the journals that wait, the pieces
/// that were taken and not handled, in the order of taking, and what was asked for.
#[derive(Drop)]
pub struct Core {
    pub(crate) gate: Gate,
    pub(crate) held: VecDeque<(usize, Piece)>,
}

impl Model for Core {
    ghost use Rattle.vs_core.specs.Machine.{CoreState};

    ghost Value = { CoreState };

    ghost view = { λ c. record c.gate { held = c.held.items } };
}

impl Core {
    pub fn new(
        alloc: Global,
        vector: Vector,
        flags: Flags,
        until_end: bool,
    ) -> Result<Core, OutOfMemory>
        ensures { IfOk result (λ c. c ≡ initial vector flags until_end) }
    {
        Ok(Core {
            gate: Gate::new(alloc, vector, flags, until_end)?,
            held: VecDeque::new(alloc),
        })
    }

    /// Begins a lane of the shard, and gives its number.
    pub fn begin(&mut self, name: &ShardName) -> Result<usize, OutOfMemory>
        requires { MayBegin self.old name.now }
        ensures number { IfOk result (λ lane. lane ≡ length self.old.names) }
        ensures ok { OnOk result (self.new ≡ lane_begun self.old name.now) }
        ensures err { OnErr result (self.new ≡ self.old) }
    {
        self.gate.begin(name)
    }

    /// Takes a piece of the lane.
    pub fn take(&mut self, lane: usize, piece: Piece) -> Result<(), (Piece, OutOfMemory)>
        requires { MayTake self.old lane }
        ensures ok { OnOk result (self.new ≡ piece_taken self.old lane piece) }
        ensures err { IfErr result (λ e. (self.new ≡ self.old) × (e.0 ≡ piece)) }
    {
        match self.held.push_back((lane, piece)) {
            Ok(()) => Ok(()),
            Err(failed) => Err((failed.value.1, AllocError)),
        }
    }

    /// How far each shard has come.
    pub fn vector(&self) -> &Vector
        ensures { result.now ≡ self.now.vector }
    {
        self.gate.vector.as_vector()
    }

    /// Ends the core. The rooms of the pieces that were not handled are in what is left.
    pub fn close(self) -> Rest
        ensures { result ≡ self.held }
    {
        let Core { gate: _, held } = self;
        Rest { held }
    }
}
