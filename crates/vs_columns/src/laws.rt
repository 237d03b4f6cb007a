//! What the definitions keep to, as contracts of functions that do nothing.
ghost use Rattle.std.specs.Prelude.{◌≡◌, ◌<◌, ◌^◌, ◌++◌, List as Items, ℕ, Ok, length, take};
ghost use Rattle.std.specs.Str.Parse.{digits_value, AllDigits};
ghost use Rattle.vs_base.specs.declared.table.ColumnKind.{ColumnKind};
ghost use Rattle.vs_columns.specs.Digits.{padded};
ghost use Rattle.vs_columns.specs.Values.{value_of};

/// A value is told by the bytes that it takes: any others may stand behind them.
pub fn law_value()
    ensures { (kind : ColumnKind) → (meta bytes rest text : Items ℕ) → (n : ℕ) → value_of kind meta bytes ≡ Ok (text, n) → value_of kind meta (take n bytes ++ rest) ≡ Ok (text, n) }
{}

/// A number of at most so many digits is told by that many, which say that number.
pub fn law_digits()
    ensures count { (k : ℕ) → (n : ℕ) → length (padded k n) ≡ k }
    ensures digits { (k : ℕ) → (n : ℕ) → AllDigits 10 (padded k n) }
    ensures number { (k : ℕ) → (n : ℕ) → n < 10 ^ k → digits_value 10 (padded k n) ≡ n }
{}
