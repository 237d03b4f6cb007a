ghost use Rattle.std.specs.Prelude.{◌≡◌};

use vs_proto::event_kind;

/// What an event tells.
pub(crate) enum Kind {
    Begin,
    Commit,
    Ddl,
    Other,
    Row,
    Field,
    Heartbeat,
    Vgtid,
    Journal,
    CopyCompleted,
    /// A type of event without a word of its own here.
    Unnamed,
}

impl Kind {
    ghost use Rattle.vs_show.specs.Kinds.{kind_of};

    /// The kind with this number of the type.
    #[tactic(auto, unfolding(crate::specs::Kinds::kind_of))]
    pub(crate) fn of(number: i32) -> Kind
        ensures { result ≡ kind_of number }
    {
        match number {
            event_kind::BEGIN => Kind::Begin,
            event_kind::COMMIT => Kind::Commit,
            event_kind::DDL => Kind::Ddl,
            event_kind::OTHER => Kind::Other,
            event_kind::ROW => Kind::Row,
            event_kind::FIELD => Kind::Field,
            event_kind::HEARTBEAT => Kind::Heartbeat,
            event_kind::VGTID => Kind::Vgtid,
            event_kind::JOURNAL => Kind::Journal,
            event_kind::COPY_COMPLETED => Kind::CopyCompleted,
            _ => Kind::Unnamed,
        }
    }
}
