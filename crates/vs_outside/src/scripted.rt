ghost use Rattle.std.specs.Prelude.{◌≡◌, ◌++◌, ◌∷◌, [], OnErr, OnOk, false, not, slice_get, true, unwrap_or};
ghost use Rattle.std.specs.List.{list_all};

use std::alloc::Global;
use vs_base::{OutOfMemory, ShardName};

/// Whether the script lets its call at the place fail. Past its end no call fails.
pub fn fails_at(script: &[bool], place: usize) -> bool
    ensures value { result ≡ unwrap_or (slice_get script.now place) false }
    ensures failure { result ≡ true → list_all not script.now ≡ false }
{
    script.get(place).copied().unwrap_or(false)
}

pub fn push_copy(
    names: &mut Vec<ShardName>,
    alloc: Global,
    name: &ShardName,
) -> Result<(), OutOfMemory>
    ensures ok { OnOk result (names.new.items ≡ names.old.items ++ name.now ∷ []) }
    ensures err { OnErr result (names.new.items ≡ names.old.items) }
{
    names.push(name.copy(alloc)?)?;
    Ok(())
}
