ghost use Rattle.std.specs.Prelude.{◌≡◌};
ghost use Rattle.vs_rows.specs.Layouts.{images};
ghost use Rattle.vs_rows.specs.Rows.{kind_of};

/// What rows events change.
#[derive(Debug, Clone, Copy, PartialEq, Eq)]
pub(crate) enum RowsKind {
    Insert,
    Update,
    Delete,
}

impl RowsKind {
    /// The kind of the events of a type: WRITE_ROWS, UPDATE_ROWS and DELETE_ROWS of version 2.
    pub fn of(number: u8) -> Option<RowsKind>
        ensures { result ≡ kind_of number }
    {
        match number {
            30 => Some(RowsKind::Insert),
            31 => Some(RowsKind::Update),
            32 => Some(RowsKind::Delete),
            _ => None,
        }
    }

    /// How many images a row has.
    pub fn images(self) -> usize
        ensures { result ≡ images self }
    {
        match self {
            RowsKind::Update => 2,
            RowsKind::Insert | RowsKind::Delete => 1,
        }
    }
}
