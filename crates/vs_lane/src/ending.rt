//! Whether a lane may give what came, by the base of its log.
ghost use Rattle.std.specs.Prelude.{◌≡◌, MatchOption, true};
ghost use Rattle.vs_gtid.specs.Missing.{IsFirstMissing};
ghost use Rattle.vs_gtid.specs.Positions.{IsSubset};
ghost use Rattle.vs_lane.specs.Answers.{Says};
ghost use Rattle.vs_lane.specs.Feeding.{log_read};
ghost use Rattle.vs_lane.specs.Pieces.{buffer_size};
ghost use Rattle.vs_lane.specs.Steps.{HasBaseIn};

use crate::entries::{Came, Entries};
use crate::piece::piece_said;
use std::alloc::Global;
use vs_base::{Gtid, ShardName};
use vs_filter::Bound;
use vs_gtid::GtidSet;
use vs_outside::Feed;
use vs_render::{EndCause, Piece, Room};

/// The least GTID of the log's base that the start lacks, as far as the base is known. It is looked at
/// until it is known.
fn missing_base<F: Feed>(entries: &Entries<F>, start: &GtidSet, checked: &mut bool) -> Option<Gtid>
    requires { checked.old ≡ true → HasBaseIn entries.now start.now }
    ensures missing { MatchOption result (IsSubset (log_read entries.now).base start.now) (λ g. IsFirstMissing (log_read entries.now).base start.now g) }
    ensures checked { checked.new ≡ true → HasBaseIn entries.now start.now }
{
    if *checked {
        return None;
    }
    match entries.base() {
        None => None,
        Some(base) => {
            if let Some(missing) = base.first_missing(start) {
                return Some(missing);
            }
            *checked = true;
            None
        }
    }
}

/// The piece of what came, unless the log's base has a GTID that the start lacks.
pub(crate) fn answer<F: Feed>(
    alloc: Global,
    name: &ShardName,
    bound: &Bound,
    start: &GtidSet,
    until_end: bool,
    entries: &Entries<F>,
    checked: &mut bool,
    came: Came,
    room: Room,
) -> Piece
    requires { checked.old ≡ true → HasBaseIn entries.now start.now }
    ensures says { Says name.now bound.now start.now until_end entries.now came result }
    ensures checked { checked.new ≡ true → HasBaseIn entries.now start.now }
    ensures size { buffer_size result ≡ room.buf.size }
{
    if !came.tells_log() {
        return piece_said(alloc, name, bound, until_end, came, room);
    }
    match missing_base(entries, start, checked) {
        Some(missing) => Piece::End {
            cause: EndCause::Purged { missing },
            room,
        },
        None => piece_said(alloc, name, bound, until_end, came, room),
    }
}
