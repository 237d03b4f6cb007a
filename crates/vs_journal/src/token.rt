use vs_base::Text;

/// The two kinds of brackets that may stand round a message.
#[derive(Debug, Clone, Copy, PartialEq, Eq)]
pub enum Bracket {
    Curly,
    Angle,
}

/// A token of a journal text.
#[derive(Debug, Drop)]
pub enum Token {
    /// Letters, digits and `_`, not beginning with a digit.
    Word(Text),
    /// A whole number: whether a `-` stands in front, and how far it is from zero where that is
    /// below 2^64.
    Number { negative: bool, size: Option<u64> },
    /// The bytes that a string stands for.
    Bytes(Text),
    Colon,
    Comma,
    Semicolon,
    OpenList,
    CloseList,
    Open(Bracket),
    Close(Bracket),
    /// What no token begins with.
    Wrong,
    /// A string that is none, and how much of the text is left where that shows.
    Faulty { left: usize },
}
