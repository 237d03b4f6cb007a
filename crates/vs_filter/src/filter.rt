ghost use Rattle.std.specs.Prelude.{◌≡◌, ◌≤◌, IfErr, IfOk, None, OnOk, map};
ghost use Rattle.vs_outside.specs.Counts.{KeepsCounts};
ghost use Rattle.vs_filter.specs.Causes.{HasNoPattern, NotBuiltIs, UnboundIs, meant_as};
ghost use Rattle.vs_filter.specs.Rules.{first_fault, first_unbound, meant_by, picked_by};

use crate::binding::{check_rules, pick_tables};
use crate::bound::Bound;
use crate::rule::{Rule, build_rule};
use std::alloc::Global;
use thiserror::Error;
use vs_base::{List, OutOfMemory, RuleText};
use vs_outside::Tablets;
use vs_schema::Schema;
use vs_select::SelectRefusal;

/// The rules of a request.
#[derive(Drop)]
pub struct Filter {
    pub rules: List<Rule>,
}

/// Why there is no filter, or why it doesn't bind to a schema. Rules are counted from 0.
#[derive(Debug, Drop, Error)]
pub enum FilterRefusal {
    /// The match of this rule is no pattern.
    #[error("bad pattern in rule {index}")]
    BadPattern { index: usize },
    /// The pattern of this rule was refused for another reason than its text.
    #[error("refused pattern in rule {index}")]
    PatternRefused { index: usize },
    /// The filter of this rule is no select, at this byte; or a select stands on a pattern or names another table.
    #[error("bad rule {index} at {at}")]
    BadRule { index: usize, at: usize },
    /// The select of this rule doesn't bind to its table.
    #[error("unbound rule {index}")]
    Unbound { index: usize, why: SelectRefusal },
    #[error("out of memory")]
    Memory,
}

impl From<OutOfMemory> for FilterRefusal {
    ghost use Rattle.vs_filter.specs.declared.filter.FilterRefusal.TheVariants.{Memory};

    ghost from_gives = { λ _ e. e ≡ Memory };

    fn from(_refused: OutOfMemory) -> FilterRefusal {
        FilterRefusal::Memory
    }
}

impl Filter {
    /// Builds the rules of a request. Of the tablets it calls `pattern` alone.
    pub fn build<T: Tablets>(
        alloc: Global,
        rules: &[RuleText],
        tablets: &mut T,
    ) -> Result<Filter, FilterRefusal>
        ensures rules { IfOk result (λ f. map meant_as f.rules ≡ map meant_by rules.now) }
        ensures lawful { OnOk result (first_fault rules.now ≡ None) }
        ensures refused { IfErr result (NotBuiltIs rules.now (T.pattern_faults tablets.old) (T.pattern_faults tablets.new)) }
        ensures later { T.pattern_faults tablets.old ≤ T.pattern_faults tablets.new }
        ensures quiet { HasNoPattern rules.now → T.pattern_faults tablets.new ≡ T.pattern_faults tablets.old }
        ensures cluster { T.cluster tablets.new ≡ T.cluster tablets.old }
        ensures opened { T.opened tablets.new ≡ T.opened tablets.old }
        ensures returned { KeepsCounts (T.returned tablets.old) (T.returned tablets.new) }
        ensures faults { KeepsCounts (T.faults tablets.old) (T.faults tablets.new) }
        ensures waits { KeepsCounts (T.waits tablets.old) (T.waits tablets.new) }
        ensures open_faults { KeepsCounts (T.open_faults tablets.old) (T.open_faults tablets.new) }
        ensures list_faults { T.list_faults tablets.new ≡ T.list_faults tablets.old }
        ensures folder { T.folder tablets.new ≡ T.folder tablets.old }
        ensures sound { T.sound tablets.new ≡ T.sound tablets.old }
    {
        let mut built = List::new(alloc);
        for (index, rule) in rules.iter().enumerate() {
            match build_rule(alloc, rule, index, tablets) {
                Ok(rule) => built.push(rule)?,
                Err(refusal) => return Err(refusal),
            }
        }
        Ok(Filter { rules: built })
    }

    /// The rules over the tables of a schema. Each pattern is tried once on each table.
    pub fn bind(&self, alloc: Global, schema: &Schema) -> Result<Bound, FilterRefusal>
        ensures tables { IfOk result (λ b. b.tables ≡ picked_by (map meant_as self.now.rules) schema.now.tables) }
        ensures bound { OnOk result (first_unbound (map meant_as self.now.rules) schema.now.tables ≡ None) }
        ensures unbound { IfErr result (UnboundIs (map meant_as self.now.rules) schema.now.tables) }
    {
        check_rules(alloc, self.rules.as_slice(), schema.tables())?;
        Ok(Bound {
            tables: pick_tables(alloc, self.rules.as_slice(), schema.tables())?,
        })
    }
}
