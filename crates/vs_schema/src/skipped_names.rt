ghost use Rattle.std.specs.Prelude.{◌≡◌, ◌++◌, ◌∷◌, [], OnOk};
ghost use Rattle.std.specs.List.{list_any};
ghost use Rattle.vs_schema.specs.Kinds.{same};

use std::alloc::Global;
use std::collections::BTreeSet;
use std::marker::Model;
use vs_base::{List, OutOfMemory, Text};

/// The names of tables that are skipped, in the order in which they came.
#[derive(Debug, Drop)]
pub struct SkippedNames {
    names: Vec<Text>,
    /// the same, for the look-up
    sorted: BTreeSet<Text>,
}

impl Model for SkippedNames {
    ghost use Rattle.std.specs.Prelude.{List, ℕ};
    ghost use Rattle.vs_schema.specs.Named.{AreTheSame};

    ghost Value = { List (List ℕ) };

    ghost view = { λ s. s.names.items };

    ghost invariant = { λ s. AreTheSame s.sorted.keys s.names.items };
}

impl SkippedNames {
    pub fn new(alloc: Global) -> SkippedNames
        ensures { result ≡ [] }
    {
        SkippedNames {
            names: Vec::new(alloc),
            sorted: BTreeSet::new(alloc),
        }
    }

    pub fn push(&mut self, alloc: Global, name: Text) -> Result<(), OutOfMemory>
        ensures { OnOk result (self.new ≡ self.old ++ name ∷ []) }
    {
        self.names.push(name.copy(alloc)?)?;
        if let Err(failed) = self.sorted.insert(name) {
            self.names.pop();
            return Err(failed.into());
        }
        Ok(())
    }

    pub fn has(&self, name: &Text) -> bool
        ensures { result ≡ list_any (λ skipped. same skipped name.now) self.now }
    {
        self.sorted.contains(name)
    }

    pub fn into_list(self) -> List<Text>
        ensures { result ≡ self }
    {
        let SkippedNames { names, .. } = self;
        List::from_vec(names)
    }
}
