//! The bodies of overloads, by their ranges.

ghost use Rattle.std.specs.Prelude.{◌≡◌, ◌||◌, OnOk, IfOk, []};
ghost use Rattle.base.specs.declared.range.Range.{Range as ARange};
ghost use Rattle.dts_rules.specs.Ranges.{has_range, same_range};

use base::Range;
use std::alloc::{AllocError, Global};
use std::collections::BTreeSet;
use std::marker::Model;

/// Ranges in order: one is found by as many steps as the logarithm of their number.
#[derive(Debug, Drop)]
pub struct RangeSet {
    set: BTreeSet<Range>,
}

impl Model for RangeSet {
    ghost use Rattle.std.specs.Prelude.{List};
    ghost use Rattle.base.specs.declared.range.Range.{Range};

    ghost Value = { List Range };

    ghost view = { λ it. it.set.keys };
}

impl RangeSet {
    /// No ranges.
    fn new(alloc: Global) -> RangeSet
        ensures { result ≡ [] }
    {
        RangeSet {
            set: BTreeSet::new(alloc),
        }
    }

    /// One range more.
    fn insert(&mut self, range: Range) -> Result<(), AllocError>
        ensures { OnOk result ((r : ARange) → has_range self.new r ≡ (same_range range r || has_range self.old r)) }
    {
        self.set.insert(range)?;
        Ok(())
    }

    /// These ranges.
    pub fn of(alloc: Global, ranges: &[Range]) -> Result<RangeSet, AllocError>
        ensures { IfOk result (λ set. (r : ARange) → has_range set r ≡ has_range ranges.now r) }
    {
        let mut all = RangeSet::new(alloc);
        let mut row = ranges;
        while let Some((first, rest)) = row.split_first() {
            all.insert(*first)?;
            row = rest;
        }
        Ok(all)
    }
}

/// Whether a range is one of these.
pub fn is_listed(ranges: &RangeSet, range: Range) -> bool
    ensures { has_range ranges.now range ≡ result }
{
    ranges.set.contains(&range)
}
