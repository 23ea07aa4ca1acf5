//! The transformer of programs to declarations.

ghost use Rattle.std.specs.Prelude.{◌≡◌, [], ◌∷◌, ◌++◌, Some, IfOk, OnOk, OnErr};
ghost use Rattle.dts_rules.specs.Programs.{declared};
ghost use Rattle.dts_sets.specs.Ids.{Numbered};
ghost use Rattle.dts_rules.specs.Sets.{Numbers};
ghost use Rattle.deno_dts.specs.Declarations.{declarations_in};
ghost use Rattle.deno_dts.specs.Diagnostics.{diagnostic_of};
ghost use Rattle.deno_dts.specs.Transformed.{Begins, diagnosed, diagnostics_with, env_of, state_in};
ghost use Rattle.url.specs.Parts.{serialize};

use crate::declarations::Declarations;
use crate::declaring::{Declared, declare};
use crate::diagnostics::{FastCheckDiagnosticRange, FastCheckDtsDiagnostic};
use crate::public_ranges::ModulePublicRanges;
use dts_rules::Found;
use es_program::Program;
use es_variables::ScopeIds;
use source_text::SourceTextInfo;
use std::alloc::{AllocError, Global};
use url::Url;

/// Makes declarations of programs.
#[derive(Drop)]
pub struct FastCheckDtsTransformer<'a> {
    /// The lines of the text, for whoever shows a diagnostic.
    pub text_info: &'a SourceTextInfo,
    public_ranges: &'a ModulePublicRanges,
    specifier: &'a Url,
    unresolved_context: u32,
    /// How many names were made.
    made: u32,
    /// What couldn't be determined, in the order in which it was found.
    pub diagnostics: Vec<FastCheckDtsDiagnostic>,
}

impl<'a> FastCheckDtsTransformer<'a> {
    /// A transformer of the module with this specifier; names whose number is the last argument are declared nowhere.
    pub fn new(
        alloc: Global,
        text_info: &'a SourceTextInfo,
        public_ranges: &'a ModulePublicRanges,
        specifier: &'a Url,
        unresolved_context: u32,
    ) -> FastCheckDtsTransformer<'a>
        ensures diagnostics { result.diagnostics.items ≡ [] }
        ensures made { result.made ≡ 0 }
        ensures ranges { result.public_ranges.now ≡ public_ranges.entry.now }
        ensures specifier { result.specifier.now ≡ specifier.entry.now }
        ensures unresolved { result.unresolved_context ≡ unresolved_context }
    {
        FastCheckDtsTransformer {
            text_info,
            public_ranges,
            specifier,
            unresolved_context,
            made: 0,
            diagnostics: Vec::new(alloc),
        }
    }

    /// The declarations of a program, whose names have these numbers. What couldn't be determined comes after the earlier
    /// diagnostics, each with the specifier, and made names go on counting. Where memory runs out, the diagnostics are the
    /// first of those that there are.
    pub fn transform(
        &mut self,
        alloc: Global,
        program: &Program,
        numbers: &ScopeIds,
    ) -> Result<Declarations, AllocError>
        ensures tree { IfOk result (λ it. (number : Numbers) → Numbered program.now.tokens numbers.now number
            → declarations_in it ≡ Some (declared (env_of number self.old) program.now.typed (state_in self.old)).0) }
        ensures found { OnOk result ((number : Numbers) → Numbered program.now.tokens numbers.now number
            → state_in self.new ≡ (declared (env_of number self.old) program.now.typed (state_in self.old)).1) }
        ensures diagnostics { OnOk result ((number : Numbers) → Numbered program.now.tokens numbers.now number
            → self.new.diagnostics.items ≡ diagnostics_with number self.old program.now.typed) }
        ensures prefix { OnErr result ((number : Numbers) → Numbered program.now.tokens numbers.now number
            → Begins self.new.diagnostics.items (diagnostics_with number self.old program.now.typed)) }
        ensures made { OnErr result (self.new.made ≡ self.old.made) }
        ensures specifier { self.new.specifier.now ≡ self.old.specifier.now }
        ensures ranges { self.new.public_ranges.now ≡ self.old.public_ranges.now }
        ensures unresolved { self.new.unresolved_context ≡ self.old.unresolved_context }
    {
        let Declared {
            declarations,
            found,
            made,
        } = declare(
            alloc,
            program,
            numbers,
            self.public_ranges,
            self.unresolved_context,
            self.made,
        )?;
        self.add(found.as_slice())?;
        self.made = made;
        Ok(declarations)
    }

    /// Adds diagnostics of the module.
    fn add(&mut self, found: &[Found]) -> Result<(), AllocError>
        ensures added { OnOk result (self.new.diagnostics.items ≡ self.old.diagnostics.items ++ diagnosed self.old found.now) }
        ensures begun { OnErr result (Begins self.new.diagnostics.items (self.old.diagnostics.items ++ diagnosed self.old found.now)) }
        ensures made { self.new.made ≡ self.old.made }
        ensures specifier { self.new.specifier.now ≡ self.old.specifier.now }
        ensures ranges { self.new.public_ranges.now ≡ self.old.public_ranges.now }
        ensures unresolved { self.new.unresolved_context ≡ self.old.unresolved_context }
    {
        for it in found {
            self.add_one(it)?;
        }
        Ok(())
    }

    /// Adds one diagnostic; without memory none is added.
    fn add_one(&mut self, it: &Found) -> Result<(), AllocError>
        ensures added { OnOk result (self.new.diagnostics.items ≡ self.old.diagnostics.items ++ diagnostic_of (serialize self.old.specifier.now) it.now ∷ []) }
        ensures kept { OnErr result (self.new.diagnostics.items ≡ self.old.diagnostics.items) }
        ensures made { self.new.made ≡ self.old.made }
        ensures specifier { self.new.specifier.now ≡ self.old.specifier.now }
        ensures ranges { self.new.public_ranges.now ≡ self.old.public_ranges.now }
        ensures unresolved { self.new.unresolved_context ≡ self.old.unresolved_context }
    {
        let place = FastCheckDiagnosticRange::new(self.specifier.clone()?, it.range);
        self.diagnostics
            .push(FastCheckDtsDiagnostic::new(it.kind, place))?;
        Ok(())
    }
}
