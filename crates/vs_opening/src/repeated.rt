ghost use Rattle.std.specs.Prelude.{◌≡◌, IfOk, MatchOption, map, true};
ghost use Rattle.std.specs.List.{list_any};
ghost use Rattle.vs_base.specs.Names.{names_differ, same_name};
ghost use Rattle.vs_opening.specs.Asked.{IsFirstRepeated, shards_named};

use crate::{Named, OutOfMemory};
use std::alloc::Global;
use vs_base::ShardName;

/// Whether one of these has the name.
fn has_name(named: &[Named], name: &ShardName) -> bool
    ensures { result ≡ list_any (λ other. same_name name.now other.name) named.now }
{
    named.iter().any(|other| name.is_same(&other.name))
}

/// The first name that stands there for the second time.
pub fn first_repeated(alloc: Global, named: &[Named]) -> Result<Option<ShardName>, OutOfMemory>
    ensures { IfOk result (λ o. MatchOption o (names_differ (shards_named named.now) ≡ true) (IsFirstRepeated (shards_named named.now))) }
{
    for (index, one) in named.iter().enumerate() {
        if has_name(&named[..index], &one.name) {
            return Ok(Some(one.name.copy(alloc)?));
        }
    }
    Ok(None)
}
