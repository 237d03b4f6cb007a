use crate::{Comparison, Select};
use vs_base::{List, Text};

/// How far a select text has come.
#[derive(Debug, Drop)]
pub enum State {
    Begin,
    Selected,
    /// `*` stands in place of the columns.
    Starred,
    Listed(List<Text>),
    Comma(List<Text>),
    From(Option<List<Text>>),
    /// The table is named.
    Named(Select),
    /// `where` or `and` stands there.
    Wanting(Select),
    /// A column, then its operator, `is`, and `is not`.
    Column(Select, Text),
    Compared(Select, Text, Comparison),
    Is(Select, Text),
    IsNot(Select, Text),
    /// A test is whole.
    Tested(Select),
}
