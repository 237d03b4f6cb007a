ghost use Rattle.vs_entries.specs.Laws.{BoundsParts, LogLaws};

use vs_log::{law_base, law_changes, law_entries, law_growth, law_meaning, law_steps};
use vs_rows::Maps;

/// The laws of logs, on which the reader stands. It does nothing.
#[inline(always)]
pub fn laws()
    ensures { LogLaws }
{
    law_meaning::<Maps>();
    law_growth::<Maps>();
    law_base::<Maps>();
    law_steps::<Maps>();
    law_entries::<Maps>();
    law_changes();
}

/// Less than an event is less than 64 MiB, and with a piece of at most 65,536 bytes less than both.
#[inline(always)]
pub fn law_part()
    ensures { BoundsParts }
{}
