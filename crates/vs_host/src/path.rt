ghost use Rattle.std.specs.Prelude.{◌≡◌, ◌++◌, ◌∷◌, [], IfErr, IfOk, IfSome, string_bytes};

use std::alloc::Global;
use vs_base::{OutOfMemory, ShardName};
use vs_outside::{AskEnd, names_keyspace, names_shard};

/// The path of a file of a shard, or none where the name is not a lawful one.
pub fn file_path(
    alloc: Global,
    folder: &str,
    name: &ShardName,
    ending: &str,
) -> Result<Option<String>, AskEnd>
    ensures path { IfOk result (λ o. IfSome o (λ path. string_bytes path ≡ ((folder.now ++ 47 ∷ name.now.keyspace) ++ 47 ∷ name.now.shard) ++ 46 ∷ ending.now)) }
    ensures memory { IfErr result (λ e. e ≡ AskEnd.Memory) }
{
    let keyspace = name.keyspace.as_bytes();
    let shard = name.shard.as_bytes();
    if !names_keyspace(keyspace) || !names_shard(shard) {
        return Ok(None);
    }
    let (Ok(keyspace), Ok(shard)) = (str::from_utf8(keyspace), str::from_utf8(shard)) else {
        return Ok(None);
    };
    match shard_file(alloc, folder, keyspace, shard, ending) {
        Ok(path) => Ok(Some(path)),
        Err(_) => Err(AskEnd::Memory),
    }
}

/// The file of a shard in the folder of its keyspace.
fn shard_file(
    alloc: Global,
    folder: &str,
    keyspace: &str,
    shard: &str,
    ending: &str,
) -> Result<String, OutOfMemory>
    ensures { IfOk result (λ path. string_bytes path ≡ ((folder.now ++ 47 ∷ keyspace.now) ++ 47 ∷ shard.now) ++ 46 ∷ ending.now) }
{
    let folder = joined(alloc, folder, keyspace)?;
    let mut path = joined(alloc, folder.as_str(), shard)?;
    path.push('.')?;
    path.push_str(ending)?;
    Ok(path)
}

/// The path of the folder of a keyspace, or none where the name is not a lawful one.
pub fn folder_path(alloc: Global, folder: &str, keyspace: &[u8]) -> Result<Option<String>, AskEnd>
    ensures path { IfOk result (λ o. IfSome o (λ path. string_bytes path ≡ folder.now ++ 47 ∷ keyspace.now)) }
    ensures memory { IfErr result (λ e. e ≡ AskEnd.Memory) }
{
    if !names_keyspace(keyspace) {
        return Ok(None);
    }
    let Ok(keyspace) = str::from_utf8(keyspace) else {
        return Ok(None);
    };
    match joined(alloc, folder, keyspace) {
        Ok(path) => Ok(Some(path)),
        Err(_) => Err(AskEnd::Memory),
    }
}

/// What lies in a folder under a name.
fn joined(alloc: Global, folder: &str, name: &str) -> Result<String, OutOfMemory>
    ensures { IfOk result (λ path. string_bytes path ≡ folder.now ++ 47 ∷ name.now) }
{
    let mut path = String::from_str(alloc, folder)?;
    path.push('/')?;
    path.push_str(name)?;
    Ok(path)
}
