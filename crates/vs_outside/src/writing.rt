ghost use Rattle.std.specs.Prelude.{◌≡◌, ◌≤◌, OnErr, MatchResult};
ghost use Rattle.vs_outside.specs.Counts.{Rose};
ghost use Rattle.vs_outside.specs.Told.{IsPrefixOf, Writes};

use crate::{Failed, Sink};

/// Writes all the bytes. After a refusal the sink has taken some front of them.
pub fn write_all<O: Sink>(output: &mut O, bytes: &[u8]) -> Result<(), Failed>
    ensures wrote { Writes (O.sent output.old) (O.sent output.new) (λ written. MatchResult result (λ _. written ≡ bytes.now) (λ _. IsPrefixOf written bytes.now)) }
    ensures later { O.faults output.old ≤ O.faults output.new }
    ensures failed { OnErr result (Rose (O.faults output.old) (O.faults output.new)) }
{
    let mut at = 0;
    while at < bytes.len() {
        at += output.write(&bytes[at..])?;
    }
    Ok(())
}
