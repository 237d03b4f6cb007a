ghost use Rattle.std.specs.Prelude.{◌≡◌, ◌++◌, ◌∷◌, [], IfOk, IfSome, OnErr, OnOk};

use crate::FileFeed;
use crate::again::read_rest;
use crate::listing::{end_of, names_in};
use crate::path::file_path;
use regex::bytes::Regex;
use std::alloc::Global;
use std::fs;
use std::fs::File;
use std::io::ErrorKind;
use std::rt::Files;
use vs_base::{OutOfMemory, ShardName, Text};
use vs_outside::{AskEnd, BuiltPatterns, Feed, Opened, Openings, PatternEnd, Tablets};

/// The logs of a folder. It tells no cluster, since files may change at any time.
#[derive(Drop)]
pub struct FolderTablets<R: Files<File = File> + Drop> {
    rt: R,
    folder: String,
    openings: Openings,
    /// The names whose fetch failed, each as often as it did.
    failed: Vec<ShardName>,
    list_faults: u64,
    patterns: BuiltPatterns,
}

impl<R: Files<File = File> + Drop> FolderTablets<R> {
    /// The logs of the program's own folder, until `point` names another.
    pub fn new(rt: R, alloc: Global) -> FolderTablets<R> {
        FolderTablets {
            rt,
            folder: String::new(alloc),
            openings: Openings::new(alloc),
            failed: Vec::new(alloc),
            list_faults: 0,
            patterns: BuiltPatterns::new(),
        }
    }
}

/// The file of the path, or none where it is missing. An interrupted call is tried again.
fn open_file<R: Files<File = File>>(rt: &R, path: &str) -> Result<Option<File>, AskEnd> {
    for _ in 0..u64::MAX {
        match fs::open(rt, path) {
            Ok(file) => return Ok(Some(file)),
            Err(error) if error.kind() == ErrorKind::NotFound => return Ok(None),
            Err(error) if error.kind() == ErrorKind::Interrupted => {}
            Err(error) => return Err(end_of(&error)),
        }
    }
    Err(AskEnd::Failed)
}

/// The bytes of the path's file; none at all where it is missing.
fn read_whole<R: Files<File = File>>(rt: &R, alloc: Global, path: &str) -> Result<Text, AskEnd> {
    let Some(mut file) = open_file(rt, path)? else {
        return Ok(Text::new(alloc));
    };
    match read_rest(&mut file, alloc) {
        Ok(bytes) => Ok(Text::from_vec(bytes)),
        Err(error) => Err(end_of(&error)),
    }
}

/// The log and the schema text of a shard, or none where the folder lacks the log.
fn fetch<R: Files<File = File>>(
    rt: &R,
    alloc: Global,
    folder: &str,
    name: &ShardName,
) -> Result<Option<Opened<FileFeed>>, AskEnd>
    ensures origin { IfOk result (λ o. IfSome o (λ o. ⟦<FileFeed as Feed>⟧.origin o.feed ≡ name.now)) }
    ensures fresh { IfOk result (λ o. IfSome o (λ o. ⟦<FileFeed as Feed>⟧.faults o.feed ≡ 0)) }
{
    let Some(log) = file_path(alloc, folder, name, "binlog")? else {
        return Ok(None);
    };
    let Some(schema) = file_path(alloc, folder, name, "schema")? else {
        return Ok(None);
    };
    let Some(file) = open_file(rt, log.as_str())? else {
        return Ok(None);
    };
    let schema = read_whole(rt, alloc, schema.as_str())?;
    let feed = FileFeed::new(name.copy(alloc)?, file);
    Ok(Some(Opened { feed, schema }))
}

/// Appends a copy of the name. Where there is no memory for it, the names stay.
fn push_copy(names: &mut Vec<ShardName>, alloc: Global, name: &ShardName) -> Result<(), OutOfMemory>
    ensures ok { OnOk result (names.new.items ≡ names.old.items ++ name.now ∷ []) }
    ensures err { OnErr result (names.new.items ≡ names.old.items) }
{
    names.push(name.copy(alloc)?)?;
    Ok(())
}

impl<R: Files<File = File> + Alloc + Clone + Drop> Tablets for FolderTablets<R> {
    ghost use Rattle.std.specs.Prelude.{None, false, string_bytes};
    ghost use Rattle.std.proofs.Common.{sym};
    ghost use Rattle.std.proofs.lemmas.Bool.{true≢false};
    ghost use Rattle.vs_outside.specs.Memory.{failures_of};
    ghost use Rattle.vs_outside.specs.Openings.{faults_of, opened_names, returned_of, waits_of};

    type Feed = FileFeed;

    ghost cluster = { λ _. None };

    ghost opened = { λ t. opened_names t.openings.openings.items };

    ghost returned = { λ t. returned_of t.openings.openings.items };

    ghost faults = { λ t. faults_of t.openings.openings.items };

    ghost waits = { λ t. waits_of t.openings.openings.items };

    ghost open_faults = { λ t. failures_of t.failed.items };

    ghost list_faults = { λ t. t.list_faults };

    ghost pattern_faults = { λ t. t.patterns.refused };

    ghost folder = { λ t. string_bytes t.folder };

    ghost sound = { λ _. false };

    ghost below_last = { λ _ sound. absurd (true≢false (sym sound)) };

    ghost within = { λ t. t.openings.within };

    fn point(&mut self, alloc: Global, path: &str) -> Result<(), OutOfMemory> {
        self.folder = String::from_str(alloc, path)?;
        Ok(())
    }

    fn list(&mut self, alloc: Global, keyspace: &[u8]) -> Result<Option<Vec<Text>>, AskEnd> {
        match names_in(&self.rt, alloc, self.folder.as_str(), keyspace) {
            Err(AskEnd::Failed) => {
                self.list_faults = self.list_faults.saturating_add(1);
                Err(AskEnd::Failed)
            }
            listed => listed,
        }
    }

    fn open_log(
        &mut self,
        alloc: Global,
        name: &ShardName,
    ) -> Result<Option<Opened<FileFeed>>, AskEnd> {
        match fetch(&self.rt, alloc, self.folder.as_str(), name) {
            Ok(Some(opened)) => {
                self.openings.push(alloc, name)?;
                Ok(Some(opened))
            }
            Err(AskEnd::Failed) => {
                push_copy(&mut self.failed, alloc, name)?;
                Err(AskEnd::Failed)
            }
            unopened => unopened,
        }
    }

    fn give_back(&mut self, name: &ShardName, feed: FileFeed) {
        self.openings.add(name, feed.faults(), 0);
    }

    fn pattern(&mut self, alloc: Global, text: &[u8]) -> Result<Regex, PatternEnd> {
        self.patterns.pattern(alloc, text)
    }
}
