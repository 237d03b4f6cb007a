ghost use Rattle.std.specs.Prelude.{IsTrue};
ghost use Rattle.vs_outside.specs.Names.{is_shard_text};

use crate::{Feed, FeedAnswer, MemFeed, Opened};
use std::alloc::Global;
use vs_base::{OutOfMemory, ShardName, Text};

/// A shard that tablets in memory hold. The k-th opening of its log reads by the k-th script.
#[derive(Debug, Drop)]
pub struct Held {
    pub name: ShardName,
    pub log: Vec<u8>,
    pub schema: Text,
    pub scripts: Vec<Vec<FeedAnswer>>,
    pub next: usize,
    pub ghost lawful: { IsTrue (is_shard_text name.shard) },
}

impl Held {
    ghost use Rattle.std.specs.Prelude.{◌≡◌, [], Some, IfOk};
    ghost use Rattle.vs_outside.specs.Memory.{holds_no_failure};
    ghost use Rattle.vs_outside.specs.Scripts.{has_no_failure};

    /// The script of the next opening; the empty one where there is none.
    fn next_script(&self, alloc: Global) -> Result<Vec<FeedAnswer>, OutOfMemory>
        ensures { IfOk result (λ s. IsTrue (holds_no_failure self.now) → IsTrue (has_no_failure s.items)) }
    {
        match self.scripts.get(self.next) {
            Some(script) => Vec::from_slice(alloc, script),
            None => Ok(Vec::new(alloc)),
        }
    }

    pub fn open(&self, alloc: Global) -> Result<Opened<MemFeed>, OutOfMemory>
        ensures origin { IfOk result (λ o. ⟦<MemFeed as Feed>⟧.origin o.feed ≡ self.now.name) }
        ensures all { IfOk result (λ o. ⟦<MemFeed as Feed>⟧.all o.feed ≡ Some self.now.log.items) }
        ensures given { IfOk result (λ o. ⟦<MemFeed as Feed>⟧.given o.feed ≡ Some []) }
        ensures faults { IfOk result (λ o. ⟦<MemFeed as Feed>⟧.faults o.feed ≡ 0) }
        ensures waits { IfOk result (λ o. ⟦<MemFeed as Feed>⟧.waits o.feed ≡ 0) }
        ensures schema { IfOk result (λ o. o.schema ≡ self.now.schema) }
        ensures sound { IfOk result (λ o. IsTrue (holds_no_failure self.now) → IsTrue (⟦<MemFeed as Feed>⟧.sound o.feed)) }
    {
        let script = self.next_script(alloc)?;
        let log = Vec::from_slice(alloc, &self.log)?;
        let feed = MemFeed::new(self.name.copy(alloc)?, log, script);
        let schema = self.schema.copy(alloc)?;
        Ok(Opened { feed, schema })
    }
}
