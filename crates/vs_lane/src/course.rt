//! How far a lane has come.
ghost use Rattle.std.specs.Prelude.{◌≡◌};
ghost use Rattle.vs_lane.specs.Steps.{course_behind, is_over, is_seeking};

use vs_render::Piece;

/// How far a lane has come.
#[derive(Debug, Clone, Copy, PartialEq, Eq)]
pub(crate) enum Course {
    /// Its start is the end of the log, and wasn't found yet.
    Seeks,
    GoesOn,
    /// It gave an End where no entry stood, or found no start.
    Ended,
    /// The entry that it read last made it end.
    EndedAtEntry,
}

impl Course {
    pub fn is_seeking(&self) -> bool
        ensures { result ≡ is_seeking self.now }
    {
        matches!(self, Course::Seeks)
    }

    pub fn is_over(&self) -> bool
        ensures { result ≡ is_over self.now }
    {
        matches!(self, Course::Ended | Course::EndedAtEntry)
    }

    /// The course of a lane that gave the piece, of an entry or not.
    pub fn behind(at_entry: bool, piece: &Piece) -> Course
        ensures { result ≡ course_behind at_entry piece.now }
    {
        match piece {
            Piece::End { .. } => {
                if at_entry {
                    Course::EndedAtEntry
                } else {
                    Course::Ended
                }
            }
            _ => Course::GoesOn,
        }
    }
}
