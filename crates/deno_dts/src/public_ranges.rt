//! Which ranges of a module are those of bodies of overloads.

ghost use Rattle.std.specs.Prelude.{◌≡◌, IfOk};
ghost use Rattle.base.specs.declared.range.Range.{Range as ARange};
ghost use Rattle.dts_rules.specs.Ranges as rules;
ghost use Rattle.dts_rules.specs.Ranges.{has_range};

use base::Range;
use dts_members::{RangeSet, is_listed};
use dts_overloads::overloads;
use es_program::Program;
use std::alloc::{AllocError, Global};
use std::marker::Model;

/// The ranges of functions, methods and constructors that implement overloads, in bytes of a text.
#[derive(Debug, Drop)]
pub struct ModulePublicRanges {
    ranges: RangeSet,
}

impl Model for ModulePublicRanges {
    ghost use Rattle.std.specs.Prelude.{List};
    ghost use Rattle.base.specs.declared.range.Range.{Range};

    ghost Value = { List Range };

    ghost view = { λ it. it.ranges };
}

impl ModulePublicRanges {
    /// Of these ranges.
    pub fn new(alloc: Global, ranges: &[Range]) -> Result<ModulePublicRanges, AllocError>
        ensures { IfOk result (λ it. (r : ARange) → has_range it r ≡ has_range ranges.now r) }
    {
        Ok(ModulePublicRanges {
            ranges: RangeSet::of(alloc, ranges)?,
        })
    }

    /// The ranges of a program: of each function, method or constructor with a body that directly follows one of its name
    /// without. That of an exported function is the range of its item.
    pub fn of(alloc: Global, program: &Program) -> Result<ModulePublicRanges, AllocError>
        ensures { IfOk result (λ it. (r : ARange) → has_range it r ≡ has_range (rules.overloads program.now.typed) r) }
    {
        let (text, tokens, row) = program.parts();
        let found = overloads(alloc, text, tokens, &row)?;
        let ranges = RangeSet::of(alloc, found.as_slice())?;
        Ok(ModulePublicRanges { ranges })
    }

    /// Whether a function, a method or a constructor with this range implements overloads.
    pub fn is_impl_with_overloads(&self, range: &Range) -> bool
        ensures { result ≡ has_range self.now range.now }
    {
        is_listed(&self.ranges, *range)
    }

    /// The ranges.
    pub fn set(&self) -> &RangeSet
        ensures { result.now ≡ self.now }
    {
        &self.ranges
    }
}
