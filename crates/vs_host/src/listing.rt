ghost use Rattle.std.specs.Prelude.{◌≡◌, All, IfOk, IfSome, IsTrue, OnOk};
ghost use Rattle.std.specs.BTreeSet.{insert_key};
ghost use Rattle.std.specs.List.Sorted.{IsStrictlySortedBy};
ghost use Rattle.std.specs.Ordering.{nat_cmp};
ghost use Rattle.std.specs.Cmp.Lexicographic.{slice_cmp};
ghost use Rattle.vs_outside.specs.Clusters.{IsListing};
ghost use Rattle.vs_outside.specs.Names.{is_shard_text};

use crate::path::folder_path;
use std::alloc::Global;
use std::collections::BTreeSet;
use std::fs::ReadDir;
use std::io::ErrorKind;
use std::rt::Files;
use std::{fs, io};
use vs_base::{OutOfMemory, Text};
use vs_outside::{AskEnd, names_shard};

/// A failed call for want of memory is no fault of the folder.
pub fn end_of(error: &io::Error) -> AskEnd {
    if error.kind() == ErrorKind::OutOfMemory {
        AskEnd::Memory
    } else {
        AskEnd::Failed
    }
}

/// The shard whose log the file would be, or none where it is no log.
fn shard_of(alloc: Global, file: &str) -> Result<Option<Text>, OutOfMemory>
    ensures { IfOk result (λ o. IfSome o (λ shard. IsTrue (is_shard_text shard))) }
{
    let Some(shard) = file.strip_suffix(".binlog") else {
        return Ok(None);
    };
    if !names_shard(shard.as_bytes()) {
        return Ok(None);
    }
    Ok(Some(Text::from_bytes(alloc, shard.as_bytes())?))
}

/// The names, ascending; or none where there is none.
fn in_order(alloc: Global, names: BTreeSet<Text>) -> Result<Option<Vec<Text>>, OutOfMemory>
    requires { All (λ name. IsTrue (is_shard_text name)) names.keys }
    ensures { IfOk result (λ o. IfSome o (λ names. IsListing names.items)) }
{
    if names.is_empty() {
        return Ok(None);
    }
    Ok(Some(names.into_iter().collect(alloc)?))
}

/// Adds a name.
fn insert_name(names: &mut BTreeSet<Text>, name: Text) -> Result<(), OutOfMemory>
    ensures { OnOk result (names.new.keys ≡ insert_key (slice_cmp nat_cmp) names.old.keys name) }
{
    names.insert(name)?;
    Ok(())
}

/// Adds a lawful name to lawful names.
fn insert_lawful(names: &mut BTreeSet<Text>, name: Text) -> Result<(), OutOfMemory>
    requires kept { All (λ name. IsTrue (is_shard_text name)) names.old.keys }
    requires lawful { IsTrue (is_shard_text name) }
    ensures { OnOk result (All (λ name. IsTrue (is_shard_text name)) names.new.keys) }
{
    insert_name(names, name)?;
    Ok(())
}

/// Adds the shard whose log the file is, if it is one.
fn add_file(names: &mut BTreeSet<Text>, alloc: Global, file: &str) -> Result<(), OutOfMemory>
    requires { All (λ name. IsTrue (is_shard_text name)) names.old.keys }
    ensures { OnOk result (All (λ name. IsTrue (is_shard_text name)) names.new.keys) }
{
    if let Some(shard) = shard_of(alloc, file)? {
        insert_lawful(names, shard)?;
    }
    Ok(())
}

/// What lies in the folder, or none where it is missing. An interrupted call is tried again.
fn open_folder<R: Files + Alloc + Clone + Drop>(
    rt: &R,
    path: &str,
) -> Result<Option<ReadDir<R, R::A>>, AskEnd> {
    for _ in 0..u64::MAX {
        match fs::read_dir(rt, path) {
            Ok(entries) => return Ok(Some(entries)),
            Err(error) if error.kind() == ErrorKind::NotFound => return Ok(None),
            Err(error) if error.kind() == ErrorKind::Interrupted => {}
            Err(error) => return Err(end_of(&error)),
        }
    }
    Err(AskEnd::Failed)
}

/// The shards whose logs are among the entries, or none where their reading was interrupted.
fn read_names<R: Files + Alloc + Clone + Drop>(
    alloc: Global,
    entries: ReadDir<R, R::A>,
) -> Result<Option<BTreeSet<Text>>, AskEnd>
    ensures { IfOk result (λ o. IfSome o (λ names. All (λ name. IsTrue (is_shard_text name)) names.keys)) }
{
    let mut names: BTreeSet<Text> = BTreeSet::new(alloc);
    for entry in entries {
        match entry {
            Ok(entry) => {
                add_file(&mut names, alloc, entry.file_name())?;
            }
            Err(error) if error.kind() == ErrorKind::InvalidFilename => {}
            Err(error) if error.kind() == ErrorKind::Interrupted => return Ok(None),
            Err(error) => return Err(end_of(&error)),
        }
    }
    Ok(Some(names))
}

/// The shards whose logs lie in the keyspace's folder, ascending; or none where there is none. What
/// was interrupted is begun again.
pub fn names_in<R: Files + Alloc + Clone + Drop>(
    rt: &R,
    alloc: Global,
    folder: &str,
    keyspace: &[u8],
) -> Result<Option<Vec<Text>>, AskEnd>
    ensures { IfOk result (λ o. IfSome o (λ names. IsListing names.items)) }
{
    let Some(path) = folder_path(alloc, folder, keyspace)? else {
        return Ok(None);
    };
    for _ in 0..u64::MAX {
        let Some(entries) = open_folder(rt, path.as_str())? else {
            return Ok(None);
        };
        if let Some(names) = read_names(alloc, entries)? {
            return Ok(in_order(alloc, names)?);
        }
    }
    Err(AskEnd::Failed)
}
