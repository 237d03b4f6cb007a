ghost use Rattle.std.specs.Prelude.{◌≡◌};
ghost use Rattle.vs_gtid.specs.Block.{block_of};
ghost use Rattle.vs_log.specs.Table.{format_refusal, gtid_in};
ghost use Rattle.vs_entries.specs.Reading.{Answers};
ghost use Rattle.vs_entries.specs.Rules.{base_of};

use crate::refusal::Refusal;
use std::alloc::Global;
use vs_base::{Gtid, Why};
use vs_binlog::{FormatRefusal, read_format, read_gtid};
use vs_gtid::{GtidRefusal, GtidSet};

/// What is wrong with the body of a format description.
pub fn format_fault(body: &[u8]) -> Option<Why>
    ensures { result ≡ format_refusal body.now }
{
    match read_format(body) {
        Ok(()) => None,
        Err(FormatRefusal::ShortFormat) => Some(Why::BadEvent { kind: 15 }),
        Err(FormatRefusal::BadVersion { version }) => Some(Why::BadVersion { version }),
        Err(FormatRefusal::HeadLength { .. }) => Some(Why::BadEvent { kind: 15 }),
        Err(FormatRefusal::Checksummed { kind }) => Some(Why::Checksummed { kind }),
    }
}

/// The GTID in the body of a GTID event, or what is wrong with it.
#[tactic(auto, unfolding(vs_log::specs::Table::gtid_in))]
pub fn named_gtid(body: &[u8]) -> Result<Gtid, Why>
    ensures { result ≡ gtid_in body.now }
{
    if body.len() < 25 {
        return Err(Why::BadEvent { kind: 33 });
    }
    match read_gtid(body) {
        Some(gtid) => Ok(gtid),
        None => Err(Why::BadGtid),
    }
}

/// The base in the body of a PREVIOUS_GTIDS event.
pub fn read_base(alloc: Global, body: &[u8]) -> Result<GtidSet, Refusal>
    ensures { Answers result (base_of (block_of body.now)) }
{
    match GtidSet::from_block(alloc, body) {
        Ok(base) => Ok(base),
        Err(GtidRefusal::TooManyIntervals) => Err(Refusal::Wrong(Why::TooManyIntervals)),
        Err(GtidRefusal::Memory) => Err(Refusal::Memory),
        Err(_) => Err(Refusal::Wrong(Why::BadEvent { kind: 35 })),
    }
}
