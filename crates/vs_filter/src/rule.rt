ghost use Rattle.std.specs.Prelude.{◌≡◌, ◌≤◌, Err, IfErr, IfOk, None, OnOk, false};
ghost use Rattle.vs_outside.specs.Counts.{KeepsCounts};
ghost use Rattle.vs_filter.specs.Causes.{RuleRefusalIs, meant_as};
ghost use Rattle.vs_filter.specs.Fits.{IsRegexMatch};
ghost use Rattle.vs_filter.specs.Rules.{fault_of, meant_by, place_of_fault, take_of};

use crate::filter::FilterRefusal;
use crate::rule_match::{RuleMatch, begins_with_slash};
use std::alloc::{AllocError, Global};
use vs_base::{OutOfMemory, RuleText};
use vs_outside::{PatternEnd, Tablets};
use vs_select::{Select, SelectRefusal};

/// What a rule takes of the tables that its match fits.
#[derive(Debug, Drop)]
pub enum Take {
    Nothing,
    Everything,
    /// The rows and columns of a select.
    Chosen(Select),
}

/// A rule, ready to be bound.
#[derive(Drop)]
pub struct Rule {
    pub matching: RuleMatch,
    pub take: Take,
}

/// What a filter's text takes, or the place at which it says nothing.
fn take_of(alloc: Global, filter: &[u8]) -> Result<Result<Take, usize>, OutOfMemory>
    ensures { IfOk result (λ r. r ≡ take_of filter.now) }
{
    if filter.is_empty() {
        return Ok(Ok(Take::Everything));
    }
    if filter == b"exclude".as_slice() {
        return Ok(Ok(Take::Nothing));
    }
    match Select::read(alloc, filter) {
        Ok(select) => Ok(Ok(Take::Chosen(select))),
        Err(SelectRefusal::BadSelect { at }) => Ok(Err(at)),
        Err(_) => Err(AllocError),
    }
}

/// The place at which a filter doesn't stand on its match.
fn place_of_fault(pattern: &[u8], take: &Result<Take, usize>) -> Option<usize>
    ensures { result ≡ place_of_fault pattern.now take.now }
{
    match take {
        Err(at) => Some(*at),
        Ok(Take::Chosen(select)) => {
            if begins_with_slash(pattern) || select.table.as_bytes() != pattern {
                Some(0)
            } else {
                None
            }
        }
        Ok(_) => None,
    }
}

/// Builds a rule, which stands at this place.
pub(crate) fn build_rule<T: Tablets>(
    alloc: Global,
    rule: &RuleText,
    index: usize,
    tablets: &mut T,
) -> Result<Rule, FilterRefusal>
    ensures meant { IfOk result (λ r. meant_as r ≡ meant_by rule.now) }
    ensures lawful { OnOk result (fault_of rule.now ≡ None) }
    ensures refused { IfErr result (RuleRefusalIs rule.now index (T.pattern_faults tablets.old) (T.pattern_faults tablets.new)) }
    ensures later { T.pattern_faults tablets.old ≤ T.pattern_faults tablets.new }
    ensures quiet { ¬ (IsRegexMatch rule.now.pattern) → T.pattern_faults tablets.new ≡ T.pattern_faults tablets.old }
    ensures cluster { T.cluster tablets.new ≡ T.cluster tablets.old }
    ensures opened { T.opened tablets.new ≡ T.opened tablets.old }
    ensures returned { KeepsCounts (T.returned tablets.old) (T.returned tablets.new) }
    ensures faults { KeepsCounts (T.faults tablets.old) (T.faults tablets.new) }
    ensures waits { KeepsCounts (T.waits tablets.old) (T.waits tablets.new) }
    ensures open_faults { KeepsCounts (T.open_faults tablets.old) (T.open_faults tablets.new) }
    ensures list_faults { T.list_faults tablets.new ≡ T.list_faults tablets.old }
    ensures folder { T.folder tablets.new ≡ T.folder tablets.old }
    ensures sound { T.sound tablets.new ≡ T.sound tablets.old }
{
    let matching = match RuleMatch::build(alloc, rule.pattern.as_bytes(), tablets) {
        Ok(matching) => matching,
        Err(PatternEnd::Syntax) => return Err(FilterRefusal::BadPattern { index }),
        Err(PatternEnd::Refused) => return Err(FilterRefusal::PatternRefused { index }),
        Err(PatternEnd::Memory) => return Err(FilterRefusal::Memory),
    };
    let take = take_of(alloc, rule.filter.as_bytes())?;
    if let Some(at) = place_of_fault(rule.pattern.as_bytes(), &take) {
        return Err(FilterRefusal::BadRule { index, at });
    }
    match take {
        Ok(take) => Ok(Rule { matching, take }),
        Err(at) => Err(FilterRefusal::BadRule { index, at }),
    }
}
