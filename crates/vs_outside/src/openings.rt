ghost use Rattle.std.specs.Prelude.{◌≤◌, ℕ};
ghost use Rattle.vs_base.specs.declared.shard_name.ShardName.{ShardName};
ghost use Rattle.vs_outside.specs.Feeds.{times};
ghost use Rattle.vs_outside.specs.Openings.{opened_names, returned_of};

use std::alloc::Global;
use vs_base::{OutOfMemory, ShardName};

/// A log that was opened; whether its feed was given back, and what that feed had counted.
#[derive(Debug, Drop)]
pub struct Opening {
    pub name: ShardName,
    pub returned: bool,
    pub faults: u64,
    pub waits: u64,
}

impl Opening {
    ghost use Rattle.std.specs.Prelude.{◌≡◌, true};

    /// The feed is given back, and had counted this.
    fn close(&mut self, faults: u64, waits: u64)
        ensures name { self.new.name ≡ self.old.name }
        ensures returned { self.new.returned ≡ true }
        ensures faults { self.new.faults ≡ faults }
        ensures waits { self.new.waits ≡ waits }
    {
        self.returned = true;
        self.faults = faults;
        self.waits = waits;
    }
}

/// The logs that tablets opened, oldest first, with the counts of each name's feeds that were
/// given back: how many, their faults and their waits.
#[derive(Debug, Drop)]
pub struct Openings {
    pub openings: Vec<Opening>,
    pub ghost within: { (n : ShardName) → returned_of openings.items n ≤ times n (opened_names openings.items) },
}

impl Openings {
    ghost use Rattle.std.specs.Prelude.{◌≡◌, ◌<◌, ◌+◌, ◌++◌, ◌∷◌, ◌&&◌, [], OnErr, OnOk, not, position};
    ghost use Rattle.vs_base.specs.Names.{same_name};
    ghost use Rattle.vs_outside.specs.Counts.{KeepsCounts, KeepsOthers, raised};
    ghost use Rattle.vs_outside.specs.Openings.{faults_of, waits_of};

    /// No opening.
    pub fn new(alloc: Global) -> Openings
        ensures { result.openings.items ≡ [] }
    {
        Openings {
            openings: Vec::new(alloc),
        }
    }

    /// Appends the name; its feed is out.
    pub fn push(&mut self, alloc: Global, name: &ShardName) -> Result<(), OutOfMemory>
        ensures names { OnOk result (opened_names self.new.openings.items ≡ opened_names self.old.openings.items ++ name.now ∷ []) }
        ensures lent { OnOk result (returned_of self.new.openings.items name.now < times name.now (opened_names self.new.openings.items)) }
        ensures faults { KeepsCounts (faults_of self.old.openings.items) (faults_of self.new.openings.items) }
        ensures waits { KeepsCounts (waits_of self.old.openings.items) (waits_of self.new.openings.items) }
        ensures returned { KeepsCounts (returned_of self.old.openings.items) (returned_of self.new.openings.items) }
        ensures err { OnErr result (self.new.openings.items ≡ self.old.openings.items) }
    {
        let opening = Opening {
            name: name.copy(alloc)?,
            returned: false,
            faults: 0,
            waits: 0,
        };
        self.openings.push(opening)?;
        Ok(())
    }

    /// The first opening of the name whose feed is out.
    fn place_out(&self, name: &ShardName) -> Option<usize>
        ensures { result ≡ position (λ o. same_name o.name name.now && not o.returned) self.now.openings.items }
    {
        self.openings
            .iter()
            .position(|o| o.name.is_same(name) && !o.returned)
    }

    /// Counts a feed of the name that is given back, and adds its faults and waits.
    pub fn add(&mut self, name: &ShardName, faults: u64, waits: u64)
        requires lent { returned_of self.old.openings.items name.now < times name.now (opened_names self.old.openings.items) }
        ensures names { opened_names self.new.openings.items ≡ opened_names self.old.openings.items }
        ensures faults { faults_of self.new.openings.items name.now ≡ raised faults (faults_of self.old.openings.items name.now) }
        ensures waits { waits_of self.new.openings.items name.now ≡ raised waits (waits_of self.old.openings.items name.now) }
        ensures returned { returned_of self.new.openings.items name.now ≡ returned_of self.old.openings.items name.now + 1 }
        ensures other_faults { KeepsOthers name.now (faults_of self.old.openings.items) (faults_of self.new.openings.items) }
        ensures other_waits { KeepsOthers name.now (waits_of self.old.openings.items) (waits_of self.new.openings.items) }
        ensures other_returned { KeepsOthers name.now (returned_of self.old.openings.items) (returned_of self.new.openings.items) }
    {
        let Some(place) = self.place_out(name) else {
            return;
        };
        self.openings[place].close(faults, waits);
    }
}
