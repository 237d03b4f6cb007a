ghost use Rattle.std.specs.Prelude.{true};
ghost use Rattle.vs_proto.specs.Tables.{filter, flags, request, rule};

use crate::OutOfMemory;
use crate::backward::Backward;
use crate::message::Message;
use crate::nested::{put_more, put_one, take_more, take_one};
use crate::number::{put_flag, put_u64, take_flag, take_u64};
use crate::refusal::Stop;
use crate::text::{put_text, take_string};
use crate::vgtid::VGtid;
use std::alloc::Global;
use vs_base::{List, Text};
use vs_wire::FieldValue;

/// Which tables are streamed: a pattern of names, and the rows and columns of them.
#[derive(Debug, Drop, PartialEq, Eq)]
pub struct Rule {
    pub pattern: Text,
    pub filter: Text,
}

/// The rules of a request, of which the first that fits a table counts.
#[derive(Debug, Drop, PartialEq, Eq)]
pub struct Filter {
    pub rules: List<Rule>,
}

/// How a request is to be streamed; the times are seconds.
#[derive(Debug, Drop, PartialEq, Eq)]
pub struct Flags {
    pub max_skew: u64,
    pub heartbeat_interval: u64,
    pub stop_on_reshard: bool,
    pub include_journals: bool,
}

/// What a client asks for: where to start, and what of it.
#[derive(Debug, Drop, PartialEq, Eq)]
pub struct VStreamRequest {
    pub vgtid: Option<VGtid>,
    pub filter: Option<Filter>,
    pub flags: Option<Flags>,
}

#[tactic(auto, unfolding(crate::specs::Tables::rule))]
impl Message for Rule {
    ghost shape = { rule true };

    fn empty(alloc: Global) -> Rule {
        Rule {
            pattern: Text::new(alloc),
            filter: Text::new(alloc),
        }
    }

    fn is_whole(&self) -> bool {
        true
    }

    fn take(&mut self, alloc: Global, number: u32, value: FieldValue<'_>) -> Result<(), Stop> {
        match number {
            1 => take_string(alloc, &mut self.pattern, value),
            2 => take_string(alloc, &mut self.filter, value),
            _ => Ok(()),
        }
    }

    fn put(&self, out: &mut Backward) -> Result<(), OutOfMemory> {
        put_text(out, 2, &self.filter)?;
        put_text(out, 1, &self.pattern)
    }
}

#[tactic(auto, unfolding(crate::specs::Tables::filter))]
impl Message for Filter {
    ghost shape = { filter true };

    fn empty(alloc: Global) -> Filter {
        Filter {
            rules: List::new(alloc),
        }
    }

    fn is_whole(&self) -> bool {
        true
    }

    fn take(&mut self, alloc: Global, number: u32, value: FieldValue<'_>) -> Result<(), Stop> {
        match number {
            1 => take_more(alloc, &mut self.rules, value),
            _ => Ok(()),
        }
    }

    fn put(&self, out: &mut Backward) -> Result<(), OutOfMemory> {
        put_more(out, 1, &self.rules)
    }
}

#[tactic(auto, unfolding(crate::specs::Tables::flags))]
impl Message for Flags {
    ghost shape = { flags true };

    fn empty(_alloc: Global) -> Flags {
        Flags {
            max_skew: 0,
            heartbeat_interval: 0,
            stop_on_reshard: false,
            include_journals: false,
        }
    }

    fn is_whole(&self) -> bool {
        true
    }

    fn take(&mut self, _alloc: Global, number: u32, value: FieldValue<'_>) -> Result<(), Stop> {
        match number {
            1 => take_u64(&mut self.max_skew, value),
            2 => take_u64(&mut self.heartbeat_interval, value),
            3 => take_flag(&mut self.stop_on_reshard, value),
            4 => take_flag(&mut self.include_journals, value),
            _ => Ok(()),
        }
    }

    fn put(&self, out: &mut Backward) -> Result<(), OutOfMemory> {
        put_flag(out, 4, &self.include_journals)?;
        put_flag(out, 3, &self.stop_on_reshard)?;
        put_u64(out, 2, &self.heartbeat_interval)?;
        put_u64(out, 1, &self.max_skew)
    }
}

#[tactic(auto, unfolding(crate::specs::Tables::request))]
impl Message for VStreamRequest {
    ghost shape = { request true };

    fn empty(_alloc: Global) -> VStreamRequest {
        VStreamRequest {
            vgtid: None,
            filter: None,
            flags: None,
        }
    }

    fn is_whole(&self) -> bool {
        true
    }

    fn take(&mut self, alloc: Global, number: u32, value: FieldValue<'_>) -> Result<(), Stop> {
        match number {
            1 => take_one(alloc, &mut self.vgtid, value),
            2 => take_one(alloc, &mut self.filter, value),
            3 => take_one(alloc, &mut self.flags, value),
            _ => Ok(()),
        }
    }

    fn put(&self, out: &mut Backward) -> Result<(), OutOfMemory> {
        put_one(out, 3, &self.flags)?;
        put_one(out, 2, &self.filter)?;
        put_one(out, 1, &self.vgtid)
    }
}
