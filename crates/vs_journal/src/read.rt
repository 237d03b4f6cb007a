//! The journal that a text says.
ghost use Rattle.std.specs.Prelude.{◌≡◌, IfErr, IfOk, MatchResult, Ok, length};
ghost use Rattle.vs_journal.specs.Grammar.{parsed_journal};
ghost use Rattle.vs_journal.specs.Judgement.{journal_said, plain_journal};
ghost use Rattle.vs_journal.specs.Names.{IsReading};
ghost use Rattle.vs_journal.specs.Refusals.{IsRefusal, IsUnparsed};

use crate::JournalRefusal;
use crate::judge::judged_journal;
use crate::parsed::ParsedJournal;
use crate::scan::next_token;
use crate::step::{first_state, journal_at, state_behind};
use std::alloc::Global;
use vs_gtid::JournalValue;

/// What a text in form says.
fn parsed_journal(alloc: Global, text: &[u8]) -> Result<ParsedJournal, JournalRefusal>
    ensures ok { IfOk result (λ j. parsed_journal text.now ≡ Ok j) }
    ensures bad { IfErr result (λ e. IsUnparsed (parsed_journal text.now) e) }
{
    let mut state = first_state(alloc);
    let mut left = text;
    while let Some(cut) = next_token(alloc, left)? {
        let at = text.len() - cut.left;
        match state_behind(alloc, state, cut.token)? {
            Some(next) => state = next,
            None => return Err(JournalRefusal::BadJournal { at }),
        }
        left = cut.rest;
    }
    match journal_at(state) {
        Some(journal) => Ok(journal),
        None => Err(JournalRefusal::BadJournal { at: text.len() }),
    }
}

/// Reads the protobuf text of a reshard journal, leniently: unknown fields that are well formed are
/// passed over, at most 32 brackets deep, and the last of a repeated scalar counts. Participants and
/// successors are put in order. A journal of tables is read with none of either.
pub fn read_text(alloc: Global, text: &[u8]) -> Result<JournalValue, JournalRefusal>
    ensures ok { IfOk result (λ j. journal_said text.now ≡ Ok (plain_journal j)) }
    ensures refused { IfErr result (λ e. IsRefusal (journal_said text.now) e) }
    ensures reads { IsReading text.now result }
{
    let journal = parsed_journal(alloc, text)?;
    judged_journal(alloc, text.len(), &journal)
}
