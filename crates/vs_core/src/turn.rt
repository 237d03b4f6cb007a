use vs_base::ShardName;
use vs_render::Room;

/// What a turn did. The room is that of the piece that was handled.
#[derive(Debug, Drop)]
pub enum Turn {
    /// A frame of the lane's shard was sent.
    Frame {
        lane: usize,
        room: Room,
    },
    /// A journal took effect, by the arrival of the lane's shard.
    Switched {
        lane: usize,
        room: Room,
        retired: Vec<ShardName>,
        started: Vec<ShardName>,
    },
    /// A journal would have taken effect, and the stream halts in its place.
    Halted {
        lane: usize,
        room: Room,
        id: i64,
    },
    /// That all copies ended was sent.
    AllCopied,
    /// The lane's shard has come to a journal that others are still to come to.
    Arrived {
        lane: usize,
        room: Room,
    },
    /// The lane came to the end of its log.
    Ended {
        lane: usize,
        room: Room,
    },
    /// The lane had nothing yet.
    Idled {
        lane: usize,
        room: Room,
    },
    /// The lane's feed failed; the shard is to be read anew.
    Restart {
        lane: usize,
        name: ShardName,
        room: Room,
    },
    /// No piece is held.
    Nothing,
    /// No piece is held, and every shard came to the end of its log.
    Done,
    /// No piece is held, and every shard came to the end of its log or waits at a journal: these.
    Stuck {
        ids: Vec<i64>,
    },
}
