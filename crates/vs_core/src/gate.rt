//! The core but for the pieces that it holds.
ghost use Rattle.std.specs.Prelude.{◌≡◌, ◌++◌, ◌∷◌, IfOk, OnErr, OnOk, [], length};
ghost use Rattle.vs_core.specs.Machine.{initial, lane_begun};
ghost use Rattle.vs_gather.specs.Gathering.{AreWaiting};

use crate::spelled::SpelledVector;
use crate::{LaneState, OutOfMemory};
use std::alloc::{AllocError, Global};
use std::marker::Model;
use vs_base::ShardName;
use vs_gather::Gather;
use vs_request::Flags;
use vs_vector::Vector;

/// The vector, the lanes by their numbers, the journals that wait, and what was asked for. It is seen
/// as a core that holds no piece.
#[derive(Drop)]
pub(crate) struct Gate {
    pub(crate) alloc: Global,
    pub(crate) vector: SpelledVector,
    pub(crate) names: Vec<ShardName>,
    pub(crate) states: Vec<LaneState>,
    pub(crate) gather: Gather,
    pub(crate) all_copied: bool,
    pub(crate) flags: Flags,
    pub(crate) until_end: bool,
}

impl Model for Gate {
    ghost use Rattle.std.specs.Prelude.{[]};
    ghost use Rattle.vs_core.specs.Machine.{CoreState};

    ghost Value = { CoreState };

    ghost view = { λ g. record { vector = g.vector; names = g.names.items; states = g.states.items; held = []; kept = g.gather; all_copied = g.all_copied; flags = g.flags; until_end = g.until_end } };
}

impl Gate {
    pub(crate) fn new(
        alloc: Global,
        vector: Vector,
        flags: Flags,
        until_end: bool,
    ) -> Result<Gate, OutOfMemory>
        ensures { IfOk result (λ g. g ≡ initial vector flags until_end) }
    {
        Ok(Gate {
            alloc,
            vector: SpelledVector::new(alloc, vector)?,
            names: Vec::new(alloc),
            states: Vec::new(alloc),
            gather: Gather::new(alloc),
            all_copied: false,
            flags,
            until_end,
        })
    }

    /// The skew that was asked for, in seconds.
    pub(crate) fn max_skew(&self) -> u64
        ensures { result ≡ self.now.flags.max_skew }
    {
        self.flags.max_skew
    }

    /// Whether the end of every log ends the stream.
    pub(crate) fn until_end(&self) -> bool
        ensures { result ≡ self.now.until_end }
    {
        self.until_end
    }

    /// The ids of the journals that wait.
    pub(crate) fn waiting(&self, alloc: Global) -> Result<Vec<i64>, OutOfMemory>
        ensures { IfOk result (λ ids. AreWaiting ids.items self.now.kept) }
    {
        self.gather.waiting(alloc)
    }

    /// How many lanes were begun.
    pub(crate) fn lanes(&self) -> usize
        ensures { result ≡ length self.now.names }
    {
        self.names.len()
    }

    /// Begins a lane of the shard, and gives its number.
    pub(crate) fn begin(&mut self, name: &ShardName) -> Result<usize, OutOfMemory>
        ensures number { IfOk result (λ lane. lane ≡ length self.old.names) }
        ensures ok { OnOk result (self.new ≡ lane_begun self.old name.now) }
        ensures err { OnErr result (self.new ≡ self.old) }
    {
        let name = name.copy(self.alloc)?;
        let lane = self.names.len();
        self.names.push(name)?;
        if self.states.push(LaneState::Live).is_err() {
            self.names.pop();
            return Err(AllocError);
        }
        Ok(lane)
    }
}
