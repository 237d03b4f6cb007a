//! What the definitions keep to, as contracts of functions that do nothing.
ghost use Rattle.std.specs.Prelude.{◌≡◌, List as Items, ℕ};
ghost use Rattle.vs_binlog.specs.FirstWords.{IsFirstWord};
ghost use Rattle.vs_binlog.specs.Words.{word_in};

/// Each text has one first word: the one that is found.
pub fn law_first_word()
    ensures is { (text : Items ℕ) → IsFirstWord text (word_in text) }
    ensures only { (text word : Items ℕ) → IsFirstWord text word → word ≡ word_in text }
{}
