use crate::Comparison;
use vs_base::Text;

/// A part of a select text.
#[derive(Debug, Drop)]
pub enum Part {
    /// Letters, digits and `_`, not beginning with a digit.
    Word(Text),
    /// A name between backquotes.
    Quoted(Text),
    /// A whole number: whether a `-` stands in front, and how far it is from zero.
    Number { negative: bool, size: u64 },
    /// The bytes between quotes.
    Bytes(Text),
    Sign(Comparison),
    Star,
    Comma,
    /// What no part begins with.
    Wrong,
    /// A quote or a backquote that the text doesn't close.
    Unclosed,
}
