//! What a table of steps has.

/// A place of the first vector.
#[derive(Clone, Copy)]
pub enum Start {
    Fresh,
    At(&'static [u8]),
}

/// What a piece is. A GTID is a letter, the last digit of its UUID, and a number.
#[derive(Clone, Copy)]
pub enum Content {
    /// A statement at a second.
    Tx(u8, u64, u32),
    /// A journal in which the shard takes no part.
    Foreign(u8, u64, &'static [u8]),
    /// Rows of a copy at a position, up to a key.
    Chunk(&'static [u8], &'static [u8]),
    CopyDone(&'static [u8]),
    Idle,
    AtEnd,
    OwnJournal(&'static [u8]),
    FeedFault,
    BadLog(u64),
}

/// What a turn answers.
#[derive(Debug, Clone, Copy, PartialEq, Eq)]
pub enum Told {
    Frame,
    Switched,
    Halted,
    AllCopied,
    Arrived,
    Ended,
    Idled,
    Restart,
    Nothing,
    Done,
    Stuck,
    Differs,
    Clashes,
    Stranger,
    PositionTooLarge,
    TooManyShards,
    Lane,
    Spent,
    Memory,
}

/// A step of a stream.
#[derive(Clone, Copy)]
pub enum Step {
    /// A lane of the shard begins. Lanes are numbered as they begin.
    Begins(&'static [u8]),
    /// A piece of the lane is taken.
    Takes(usize, Content),
    /// A turn is made, and answers so: with a lane, a journal's number, or a count.
    Turns(Told, u64),
}

/// A stream, from its first vector.
#[derive(Clone, Copy)]
pub struct Case {
    pub name: &'static str,
    pub starts: &'static [(&'static [u8], Start)],
    pub skew: u64,
    pub stops: bool,
    pub journals: bool,
    pub until_end: bool,
    pub steps: &'static [Step],
    /// what the last turn wrote
    pub sent: &'static [u8],
    /// the vector at last
    pub ends: &'static [(&'static [u8], &'static [u8])],
}
