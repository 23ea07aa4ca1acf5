//! The nodes that name a module by themselves.

ghost use Rattle.std.specs.Prelude.{◌≡◌, false, ◌++◌, IfOk, IfSome, OnOk, option_map};
ghost use Rattle.es_lowering.specs.Texts.{str_of};
ghost use Rattle.es_site.specs.declared.site.Attribute.TheVariants as attribute;
ghost use Rattle.es_site.specs.declared.site.DependencyKind.TheVariants as kinds;
ghost use Rattle.es_law_sites.specs.plain.Part.{part, group, is_there};
ghost use Rattle.es_law_sites.specs.plain.Own.{naming, str_in, src_in, options_in};
ghost use Rattle.es_tree_sites.specs.Parts.{parts_in, Cuts, HasCut};
ghost use Rattle.es_tree_sites.specs.Plan.{declares, requires, calls, names};

use crate::source::TokenizedText;
use base::Items;
use es_grammar::NodeKind as Kind;
use es_site::{Attribute, DependencyKind, Site};
use es_syntax::Siblings;
use es_token::Token;
use std::alloc::AllocError;

impl TokenizedText<'_> {
    /// A literal that names a module, where there is one.
    #[tactic(auto, unfolding(es_lowering::specs::Texts::str_of))]
    fn name(
        &self,
        found: &mut Items<Site>,
        kind: DependencyKind,
        type_only: bool,
        attribute: Attribute,
        src: Option<Token>,
    ) -> Result<(), AllocError>
        requires { IfSome src (Cuts self.now.text.now) }
        ensures { OnOk result (found.new ≡ found.old
            ++ naming self.now.text.now self.now.tokens.now kind type_only attribute (option_map (str_of self.now.text.now) src)) }
    {
        if let Some(token) = src {
            let value = self.value(token)?;
            found.push(Site {
                kind,
                type_only,
                range: token.range(),
                value,
                attribute,
            })?;
        }
        Ok(())
    }

    /// The literal at a place, with the attribute that the group at another gives.
    fn declare(
        &self,
        found: &mut Items<Site>,
        kind: DependencyKind,
        type_only: bool,
        parts: &Siblings<'_>,
        src: usize,
        with: usize,
    ) -> Result<(), AllocError>
        requires { HasCut self.now }
        ensures { OnOk result (found.new ≡ found.old
            ++ declares self.now.text.now self.now.tokens.now kind type_only (parts_in self.now parts.now) src with) }
    {
        let attribute = self.attribute(&self.group(parts, with))?;
        self.name(found, kind, type_only, attribute, self.token_at(parts, src))
    }

    /// `import a = require("a")`
    fn require(&self, found: &mut Items<Site>, parts: &Siblings<'_>) -> Result<(), AllocError>
        requires { HasCut self.now }
        ensures { OnOk result (found.new ≡ found.old
            ++ requires self.now.text.now self.now.tokens.now (parts_in self.now parts.now)) }
    {
        let kind = DependencyKind::ImportEquals;
        let type_only = self.is_there(parts, 0);
        let src = self.token_at(parts, 2);
        self.name(found, kind, type_only, Attribute::Unknown, src)
    }

    /// `import("a")`, in any phase, where the first argument is a string literal.
    fn call(
        &self,
        found: &mut Items<Site>,
        kind: DependencyKind,
        parts: &Siblings<'_>,
    ) -> Result<(), AllocError>
        requires { HasCut self.now }
        ensures { OnOk result (found.new ≡ found.old
            ++ calls self.now.text.now self.now.tokens.now kind (parts_in self.now parts.now)) }
    {
        let attribute = self.options(&self.group(parts, 1))?;
        let src = self.literal_at(parts, 0);
        self.name(found, kind, false, attribute, src)
    }

    /// `import .. from "a"`, `export * from "a"`
    fn from(
        &self,
        found: &mut Items<Site>,
        kind: DependencyKind,
        parts: &Siblings<'_>,
    ) -> Result<(), AllocError>
        requires { HasCut self.now }
        ensures { OnOk result (found.new ≡ found.old ++ declares self.now.text.now self.now.tokens.now kind
            (is_there (group (parts_in self.now parts.now) 0)) (parts_in self.now parts.now) 2 3) }
    {
        let type_only = self.is_there(parts, 0);
        self.declare(found, kind, type_only, parts, 2, 3)
    }

    /// `export { .. }`, with `from "a"` or without.
    fn exported(&self, found: &mut Items<Site>, parts: &Siblings<'_>) -> Result<(), AllocError>
        requires { HasCut self.now }
        ensures { OnOk result (found.new ≡ found.old ++ declares self.now.text.now self.now.tokens.now kinds.Export
            (is_there (group (parts_in self.now parts.now) 0)) (group (parts_in self.now parts.now) 2) 0 1) }
    {
        let type_only = self.is_there(parts, 0);
        let from = self.group(parts, 2);
        self.declare(found, DependencyKind::Export, type_only, &from, 0, 1)
    }

    /// What a node of this alternative names by itself.
    #[tactic(auto, unfolding(crate::specs::Plan::names))]
    pub fn names(
        &self,
        found: &mut Items<Site>,
        label: Kind,
        parts: &Siblings<'_>,
    ) -> Result<(), AllocError>
        requires { HasCut self.now }
        ensures { OnOk result (found.new ≡ found.old
            ++ names self.now.text.now self.now.tokens.now label (parts_in self.now parts.now)) }
    {
        match label {
            Kind::BareImport => { self.declare(found, DependencyKind::Import, false, parts, 0, 1) }
            Kind::FromImport => self.from(found, DependencyKind::Import, parts),
            Kind::SourceImport => {
                self.declare(found, DependencyKind::ImportSource, false, parts, 1, 2)
            }
            Kind::DeferImport => {
                self.declare(found, DependencyKind::ImportDefer, false, parts, 1, 2)
            }
            Kind::RequireImport | Kind::ExportedRequireImport => self.require(found, parts),
            Kind::ExportAll => self.from(found, DependencyKind::Export, parts),
            Kind::ExportNames => self.exported(found, parts),
            Kind::ImportCall => self.call(found, DependencyKind::Dynamic, parts),
            Kind::SourceCall => self.call(found, DependencyKind::DynamicSource, parts),
            Kind::DeferCall => self.call(found, DependencyKind::DynamicDefer, parts),
            _ => Ok(()),
        }
    }
}
