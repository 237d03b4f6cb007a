ghost use Rattle.std.specs.Prelude.{◌≡◌};
ghost use Rattle.vs_core.specs.Tells.{turn_with};

use crate::Turn;
use vs_base::ShardName;
use vs_render::Room;

/// What was done for a piece of a lane: the answer of a turn, but for the lane and the room.
#[derive(Drop)]
pub(crate) enum Handled {
    Frame,
    Switched {
        retired: Vec<ShardName>,
        started: Vec<ShardName>,
    },
    Halted {
        id: i64,
    },
    Arrived,
    Ended,
    Idled,
    Restart {
        name: ShardName,
    },
}

impl Handled {
    /// The turn's answer, with the room of the piece.
    pub(crate) fn with_room(self, lane: usize, room: Room) -> Turn
        ensures { result ≡ turn_with lane self room }
    {
        match self {
            Handled::Frame => Turn::Frame { lane, room },
            Handled::Switched { retired, started } => Turn::Switched {
                lane,
                room,
                retired,
                started,
            },
            Handled::Halted { id } => Turn::Halted { lane, room, id },
            Handled::Arrived => Turn::Arrived { lane, room },
            Handled::Ended => Turn::Ended { lane, room },
            Handled::Idled => Turn::Idled { lane, room },
            Handled::Restart { name } => Turn::Restart { lane, name, room },
        }
    }
}
