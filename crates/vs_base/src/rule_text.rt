ghost use Rattle.std.specs.Prelude.{◌≡◌, IfOk};

use crate::{OutOfMemory, Text};
use std::alloc::Global;

/// A rule of a filter, as its texts: which tables it fits, and what of them is streamed.
#[derive(Debug, Drop, PartialEq, Eq)]
pub struct RuleText {
    pub pattern: Text,
    pub filter: Text,
}

impl RuleText {
    pub fn copy(&self, alloc: Global) -> Result<RuleText, OutOfMemory>
        ensures { IfOk result (λ r. r ≡ self.now) }
    {
        Ok(RuleText {
            pattern: self.pattern.copy(alloc)?,
            filter: self.filter.copy(alloc)?,
        })
    }
}
