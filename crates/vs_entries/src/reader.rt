ghost use Rattle.std.specs.Prelude.{◌≡◌, ◌≤◌, ◌<◌, ◌+◌, ◌-◌, ◌⊎◌, [], IfOk, MatchOption, OnErr, OnOk, false, length, true};
ghost use Rattle.vs_log.specs.Meaning.{knows_base};
ghost use Rattle.vs_entries.specs.Pieces.{GivesEntry, KeepsFew, fresh, log_fed, rules_fed, with_piece};

use crate::fault::{Fault, keep, tell};
use crate::laws::laws;
use crate::magic::{Magic, read_magic};
use crate::out::Out;
use crate::took::{LogRefusal, Took};
use crate::walk::{Next, Walk};
use crate::window::Window;
use std::alloc::Global;
use std::marker::Model;
use vs_base::{OutOfMemory, Text};
use vs_gtid::GtidSet;
use vs_schema::Schema;

/// Reads the log of a shard, whose bytes come in pieces, from its first byte on. It keeps the bytes
/// that it hasn't read, and what the entry that is open told.
#[derive(Drop)]
pub struct Reader {
    alloc: Global,
    keyspace: Text,
    schema: Schema,
    window: Window,
    walk: Walk,
    /// whether the first event that tells of the base was refused
    refused: bool,
    /// what is wrong behind the entries, once it was told
    fault: Option<Fault>,
    /// whether memory ran out as an entry was read
    spent: bool,
}

impl Model for Reader {
    ghost use Rattle.vs_entries.specs.Pieces.{Fed};
    ghost use Rattle.vs_entries.specs.Rules.{rules_of};
    ghost use Rattle.vs_entries.specs.Walks.{IsReader};

    ghost Value = { Fed };

    ghost view = { λ r. record { keyspace = r.keyspace; schema = r.schema; bytes = r.window.bytes; given = r.walk.given; at = r.walk.at; from = r.window.from; spent = r.spent } };

    ghost invariant = { λ r. IsReader (rules_of r.keyspace r.schema) r.window r.walk r.refused r.fault };
}

impl Reader {
    /// A reader that was fed nothing, of the log of a shard of the keyspace.
    pub fn new(alloc: Global, schema: &Schema, keyspace: &[u8]) -> Result<Reader, OutOfMemory>
        ensures { IfOk result (λ r. r ≡ fresh keyspace.now schema.now) }
    {
        laws();
        Ok(Reader {
            alloc,
            keyspace: Text::from_bytes(alloc, keyspace)?,
            schema: schema.copy(alloc)?,
            window: Window::new(alloc),
            walk: Walk::new(alloc),
            refused: false,
            fault: None,
            spent: false,
        })
    }

    /// Takes the next bytes of the log.
    pub fn feed(&mut self, piece: &[u8]) -> Result<(), OutOfMemory>
        ensures ok { OnOk result (self.new ≡ with_piece self.old piece.now self.new.at self.new.from) }
        ensures later { self.old.at ≤ self.new.at }
        ensures few { OnOk result (KeepsFew self.old self.new.from) }
        ensures err { OnErr result (self.new ≡ record self.old { from = self.new.from }) }
    {
        laws();
        make_room(&mut self.window, self.walk.at)?;
        let held = self.window.len();
        self.window.feed(piece)?;
        if self.refused || !self.walk.progress.standing.is_early() {
            return Ok(());
        }
        match self.walk.read_front(
            self.alloc,
            &self.window,
            self.keyspace.as_bytes(),
            &self.schema,
        ) {
            Ok(refused) => {
                self.refused = refused;
                Ok(())
            }
            Err(error) => {
                self.window.take_back(held);
                Err(error)
            }
        }
    }

    /// How many bytes it keeps that it has not taken as events.
    pub fn held(&self) -> usize
        ensures { result ≡ length self.now.bytes - self.now.at }
    {
        let passed = self.walk.at - self.window.from();
        self.window.len().saturating_sub(passed)
    }

    /// The entry behind those that were given. Once memory ran out here it says so for good.
    pub fn next_entry(&mut self) -> Result<Took, LogRefusal>
        ensures gives { GivesEntry self.old result self.new }
        ensures later { self.old.at ≤ self.new.at }
    {
        laws();
        if self.spent {
            return Err(LogRefusal::Memory);
        }
        if let Some(fault) = &self.fault {
            return Err(tell(self.alloc, fault, &mut self.spent));
        }
        match read_magic(&self.window) {
            Magic::Whole => {}
            Magic::Part => return Ok(Took::More),
            Magic::Wrong => return Err(LogRefusal::of_magic()),
        }
        let mut out = Out::new();
        match self.walk.read_entry(
            self.alloc,
            &self.window,
            self.keyspace.as_bytes(),
            &self.schema,
            &mut out,
        ) {
            Ok(Next::Gave) => Ok(self.walk.took(out.into_entry())),
            Ok(Next::Ended) => {
                let Out { why, .. } = out;
                match why {
                    None => Ok(Took::More),
                    Some(why) => {
                        let at = self.walk.at as u64;
                        Err(keep(self.alloc, at, why, &mut self.fault, &mut self.spent))
                    }
                }
            }
            Err(_) => {
                self.spent = true;
                Err(LogRefusal::Memory)
            }
        }
    }

    /// The GTIDs before the log, once the bytes tell them: the first event behind the format
    /// description that isn't passed over was fed whole, or is refused.
    pub fn base(&self) -> Option<&GtidSet>
        ensures { MatchOption result ((knows_base (rules_fed self.now) self.now.bytes ≡ false) × ((log_fed self.now).base ≡ [])) (λ b. (knows_base (rules_fed self.now) self.now.bytes ≡ true) × (b.now ≡ (log_fed self.now).base)) }
    {
        laws();
        if self.refused || !self.walk.progress.standing.is_early() {
            return Some(&self.walk.progress.base);
        }
        None
    }
}

/// Lets the bytes go that a walk has passed, if it has passed the magic.
fn make_room(window: &mut Window, at: usize) -> Result<(), OutOfMemory>
    requires from { window.old.from ≤ at }
    requires within { 4 < at → at ≤ length window.old.bytes }
    ensures bytes { window.new.bytes ≡ window.old.bytes }
    ensures from { window.new.from ≤ at }
    ensures begun { at ≤ 4 → window.new.from ≡ window.old.from }
    ensures few { OnOk result ((at < window.new.from + 65536) ⊎ (at + at ≤ window.new.from + length window.old.bytes)) }
{
    if 4 < at {
        window.let_go(at)?;
    }
    Ok(())
}
