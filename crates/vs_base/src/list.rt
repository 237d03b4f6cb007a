ghost use Rattle.std.specs.Prelude.{◌≡◌, IfOk, OnErr, OnOk, ◌++◌, ◌∷◌, []};
ghost use Rattle.std.specs.Hash as fed;
ghost use Rattle.std.specs.Hash.{items_Alike};
ghost use Rattle.std.specs.Cmp.Lexicographic.{
  lists_agrees,
  lists_equiv,
  lists_per,
  lists_po,
  lists_ties,
  lists_total,
  pointwise,
  slice_cmp,
  slice_partial_cmp,
};

use crate::{Copied, OutOfMemory};
use std::alloc::Global;
use std::cmp::Ordering;
use std::hash::{Hash, Hasher};
use std::marker::Model;

/// A `Vec` that contracts see as the list of its items.
#[derive(Debug, Drop)]
pub struct List<X> {
    items: Vec<X>,
}

impl<X> Model for List<X> {
    ghost use Rattle.std.specs.Prelude.{List as Items};
    ghost use Rattle.std.specs.Coded.{coded_list};

    ghost Value = { Items X };

    ghost coded = { coded_list X.code };

    ghost view = { λ l. l.items.items };
}

impl<X> List<X> {
    pub fn new(alloc: Global) -> List<X>
        ensures { result ≡ [] }
    {
        List {
            items: Vec::new(alloc),
        }
    }

    /// Without items, and with the memory for so many.
    pub fn with_capacity(alloc: Global, count: usize) -> Result<List<X>, OutOfMemory>
        ensures { IfOk result (λ l. l ≡ []) }
    {
        Ok(List {
            items: Vec::with_capacity(alloc, count)?,
        })
    }

    pub fn from_vec(items: Vec<X>) -> List<X>
        ensures { result ≡ items.items }
    {
        List { items }
    }

    pub fn into_vec(self) -> Vec<X>
        ensures { result.items ≡ self }
    {
        let List { items } = self;
        items
    }

    pub fn as_slice(&self) -> &[X]
        ensures { result.now ≡ self.now }
    {
        self.items.as_slice()
    }
}

impl<X: Drop> List<X> {
    pub fn push(&mut self, item: X) -> Result<(), OutOfMemory>
        ensures ok { OnOk result (self.new ≡ self.old ++ item ∷ []) }
        ensures err { OnErr result (self.new ≡ self.old) }
    {
        self.items.push(item)?;
        Ok(())
    }
}

impl<X: Copied> List<X> {
    pub fn copy(&self, alloc: Global) -> Result<List<X>, OutOfMemory>
        ensures { IfOk result (λ c. c ≡ self.now) }
    {
        let mut copy = List::with_capacity(alloc, self.as_slice().len())?;
        for item in self.as_slice() {
            copy.push(item.copy(alloc)?)?;
        }
        Ok(copy)
    }
}

impl<X: PartialEq> PartialEq for List<X> {
    ghost eq = { pointwise X.eq };

    ghost laws = { lists_per X.laws };

    fn eq(&self, other: &Self) -> bool {
        PartialEq::eq(&self.as_slice(), &other.as_slice())
    }
}

impl<X: Eq> Eq for List<X> {
    ghost laws = { lists_equiv X.Eq.laws };
}

impl<X: PartialOrd> PartialOrd for List<X> {
    ghost partial_cmp = { slice_partial_cmp X.partial_cmp };

    ghost laws = { lists_po X.PartialOrd.laws };

    fn partial_cmp(&self, other: &Self) -> Option<Ordering> {
        PartialOrd::partial_cmp(&self.as_slice(), &other.as_slice())
    }
}

impl<X: Ord> Ord for List<X> {
    ghost cmp = { slice_cmp X.cmp };

    ghost total = { lists_total X.total };

    ghost matches_partial_cmp = { lists_agrees X.matches_partial_cmp };

    ghost matches_eq = { lists_ties X.cmp X.matches_eq };

    fn cmp(&self, other: &Self) -> Ordering {
        Ord::cmp(&self.as_slice(), &other.as_slice())
    }
}

impl<X: Hash> Hash for List<X> {
    ghost hash_input = { fed.slice X.hash_input };

    ghost respects_eq = { (items_Alike (record { fed = X.respects_eq })).fed };

    fn hash<H: Hasher>(&self, state: &mut H) {
        self.as_slice().hash(state);
    }
}
