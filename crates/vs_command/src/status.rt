ghost use Rattle.std.specs.Prelude.{◌≡◌, ◌≤◌, ◌++◌, codes, IfOk, OnErr};
ghost use Rattle.vs_outside.specs.Counts.{Rose};
ghost use Rattle.vs_outside.specs.Told.{Writes};
ghost use Rattle.vs_command.specs.Lines.{IsWritten};
ghost use Rattle.vs_command.specs.StatusTexts.{status_line, status_number};

use crate::line::{parts_of, write_parts};
use std::alloc::{AllocError, Global};
use vs_base::{Gtid, OutOfMemory, ShardName, Text, Why};
use vs_frame::FrameWhy;
use vs_outside::{Failed, MemSink, Sink, write_all};
use vs_proto::ProtoRefusal;
use vs_select::SelectRefusal;

/// What is wrong with a request. An `index` counts its entries from 0.
#[derive(Debug, Drop)]
pub enum RequestFault {
    /// The input ends before a frame is whole; so many bytes were there.
    Cut { held: usize },
    /// The length of the frame is over 16,777,216.
    TooLong { length: u32 },
    /// The bytes are no message.
    Message(ProtoRefusal),
    NoShards,
    TooManyShards { n: usize },
    /// A keyspace or a shard that can't be a name.
    BadName { index: usize },
    /// The position of an entry is no set of GTIDs, from this byte of its text on.
    BadPosition { index: usize, at: usize },
    /// A set of GTIDs beside an empty shard.
    NeedsShard { index: usize },
    /// Two last keys, or one without a set of GTIDs.
    TooManyKeys { index: usize },
    /// A last key over its limits.
    LongKey { index: usize },
    TooManyRules { n: usize },
    /// The match of a rule is no pattern. Rules are counted from 0.
    BadPattern { index: usize },
    /// The pattern of a rule was refused for another reason than its text.
    PatternRefused { index: usize },
    /// The filter of a rule is no select, from this byte of its text on, or doesn't stand on its match.
    BadRule { index: usize, at: usize },
    /// The select of a rule doesn't stand on its table.
    Unbound { index: usize, why: SelectRefusal },
    /// This release does not do what is asked for.
    NotBuilt { index: usize },
}

/// How a session ended.
#[derive(Debug, Drop)]
pub enum Status {
    /// All that was due was sent.
    Done,
    Memory,
    /// The words are none that the program takes.
    Usage,
    Request(RequestFault),
    /// The cluster lacks the shard.
    UnknownShard {
        name: ShardName,
    },
    /// The log no longer has this transaction, which the position lacks.
    Purged {
        name: ShardName,
        missing: Gtid,
    },
    /// The log has a fault at this byte.
    BadLog {
        name: ShardName,
        offset: u64,
        why: Why,
    },
    /// A read of the shard's log failed.
    FeedFault {
        name: ShardName,
    },
    /// A write of the output failed.
    LinkFault,
    /// A read of the input failed.
    InputFault,
    /// The log of the shard could not be opened.
    OpenFault {
        name: ShardName,
    },
    /// The position with the next transaction has over 1,024 intervals.
    PositionTooLarge {
        name: ShardName,
    },
    /// All that was due before a journal of the shard was sent. The journal ends the shard's stream, and
    /// this release doesn't go on with its successors.
    Stopped {
        name: ShardName,
        id: i64,
    },
    /// The schema text of the shard is refused at this line, from 1 on.
    BadSchema {
        name: ShardName,
        line: usize,
    },
    /// The frame of a recording with this number, from 1 on, is the first that is none.
    BadFrame {
        number: u64,
        why: FrameWhy,
    },
}

impl Status {
    /// The number of the end, which is the program's exit status.
    #[tactic(auto, unfolding(crate::specs::StatusTexts::status_number))]
    pub fn number(&self) -> u8
        ensures { result ≡ status_number self.now }
    {
        match self {
            Status::Done => 0,
            Status::Memory => 1,
            Status::Usage => 2,
            Status::Request(_) => 3,
            Status::UnknownShard { .. } => 4,
            Status::Purged { .. } => 5,
            Status::BadLog { .. } => 6,
            Status::Stopped { .. } => 7,
            Status::FeedFault { .. } => 9,
            Status::LinkFault => 10,
            Status::InputFault => 11,
            Status::OpenFault { .. } => 12,
            Status::PositionTooLarge { .. } => 14,
            Status::BadSchema { .. } => 16,
            Status::BadFrame { .. } => 17,
        }
    }

    /// The line for the person who runs the program, without a line feed. Of `Done` it is empty.
    pub fn line(&self, alloc: Global) -> Result<Text, OutOfMemory>
        ensures { IfOk result (λ t. t ≡ status_line self.now) }
    {
        let mut text = MemSink::new(alloc, &[])?;
        let parts = parts_of(self);
        if write_parts(&mut text, &parts).is_err() {
            return Err(AllocError);
        }
        Text::from_bytes(alloc, text.sent())
    }

    /// Writes the line and a line feed, piece by piece, and takes no memory. A name or a table's name
    /// that isn't UTF-8 is written as its bytes are.
    pub fn write_line<O: Sink>(&self, output: &mut O) -> Result<(), Failed>
        ensures wrote { Writes (O.sent output.old) (O.sent output.new) (IsWritten (status_line self.now ++ codes "\n") result) }
        ensures later { O.faults output.old ≤ O.faults output.new }
        ensures failed { OnErr result (Rose (O.faults output.old) (O.faults output.new)) }
    {
        let parts = parts_of(self);
        write_parts(output, &parts)?;
        write_all(output, b"\n")
    }
}
