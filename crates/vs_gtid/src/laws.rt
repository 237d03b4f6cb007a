//! What sets keep to, as contracts of functions that do nothing.
ghost use Rattle.std.specs.Prelude.{◌≡◌, ◌≤◌, ◌||◌, ℕ, List, Result, Ok, length};
ghost use Rattle.vs_base.specs.Names.{same_gtid};
ghost use Rattle.vs_base.specs.declared.gtid.Gtid.{Gtid};
ghost use Rattle.vs_gtid.specs.Joins.{added, united};
ghost use Rattle.vs_gtid.specs.declared.refusal.GtidRefusal.{GtidRefusal};
ghost use Rattle.vs_gtid.specs.Positions.{has, IsCanonical, Position, SameSet};
ghost use Rattle.vs_gtid.specs.Readings.{ReadsSet};
ghost use Rattle.vs_gtid.specs.Text.{position_text, set_text};

/// Sets with the same GTIDs are equal.
pub fn law_equal_sets()
    ensures { (p : Position) → (q : Position) → IsCanonical p → IsCanonical q → SameSet p q → p ≡ q }
{}

/// A set with one GTID more has that GTID, what it had, and nothing else.
pub fn law_added()
    ensures { (p : Position) → (g : Gtid) → (x : Gtid) → has (added p g) x ≡ (has p x || same_gtid g x) }
{}

/// The union of two sets has the GTIDs of both, and nothing else, and is canonical.
pub fn law_united()
    ensures members { (p : Position) → (q : Position) → IsCanonical p → IsCanonical q → (x : Gtid) → has (united p q) x ≡ (has p x || has q x) }
    ensures canonical { (p : Position) → (q : Position) → IsCanonical p → IsCanonical q → IsCanonical (united p q) }
{}

/// Each text says one thing: a set, or a fault with its place.
pub fn law_readings()
    ensures one { (text : List ℕ) → (r : Result Position GtidRefusal) → (s : Result Position GtidRefusal) → ReadsSet text r → ReadsSet text s → r ≡ s }
    ensures some { (text : List ℕ) → (r : Result Position GtidRefusal) × ReadsSet text r }
{}

/// What is printed of a set says that set, with the prefix and without.
pub fn law_printed()
    ensures set { (p : Position) → IsCanonical p → length p ≤ 1024 → ReadsSet (set_text p) (Ok p) }
    ensures position { (p : Position) → IsCanonical p → length p ≤ 1024 → ReadsSet (position_text p) (Ok p) }
{}
