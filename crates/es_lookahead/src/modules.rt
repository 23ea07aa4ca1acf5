//! Predicates of items, imports and exports.

ghost use Rattle.std.specs.Prelude.{◌≡◌, ◌+◌, ◌^◌, ◌<◌};
ghost use Rattle.grammar_theory.specs.Key.{keys_of, seen};
ghost use Rattle.es_grammar.specs.types.Modules.{may_end, opens_type_import, opens_type_name, is_renamed, is_no_type_as_as, has_comma, behind_type, names_before_equal, opens_equals, shows_require, opens_require, opens_bare, opens_source_import, opens_defer_import, opens_type_export, opens_all, opens_exported_equals, opens_exported_require, opens_namespace};
ghost use Rattle.es_grammar.specs.types.Items.{opens_import, opens_default, opens_default_function, opens_default_class, opens_declaration};

use crate::looks::{self, is};
use crate::tokens::Tokens;
use es_token::TokenKind;
use grammar_theory::Lang;

/// The place after the modifier `type`.
fn behind_type(modified: bool, at: usize) -> usize
    requires { at + 1 < 2 ^ 64 }
    ensures { result ≡ behind_type modified at }
{
    if modified { at + 1 } else { at }
}

impl Tokens<'_> {
    /// Whether END is allowed here.
    pub fn may_end(&self, at: usize) -> bool
        ensures { result ≡ may_end (seen (keys_of self.now.tokens.now) at) }
    {
        looks::may_end(self.seen(at))
    }

    /// In TypeScript `type` is a modifier of the import here.
    #[tactic(auto, unfolding(es_grammar::specs::types::Modules::opens_type_import))]
    pub fn opens_type_import(&self, lang: Lang, at: usize) -> bool
        ensures { result ≡ opens_type_import lang (keys_of self.now.tokens.now) at }
    {
        if !lang.is_typed() || !self.sees(TokenKind::TypeWord, at) {
            return false;
        }
        let next = self.seen_after(at, 1);
        is(TokenKind::OpenBrace, next)
            || is(TokenKind::Star, next)
            || (looks::has_name(next)
                && !(is(TokenKind::FromWord, next) && is(TokenKind::Str, self.seen_after(at, 2))))
    }

    /// In TypeScript `type` is a modifier of the specifier here.
    #[tactic(auto, unfolding(es_grammar::specs::types::Modules::opens_type_name))]
    pub fn opens_type_name(&self, lang: Lang, at: usize) -> bool
        ensures { result ≡ opens_type_name lang (keys_of self.now.tokens.now) at }
    {
        if !lang.is_typed() || !self.sees(TokenKind::TypeWord, at) {
            return false;
        }
        let next = self.seen_after(at, 1);
        is(TokenKind::Str, next) || (looks::has_word(next) && !is(TokenKind::AsWord, next))
    }

    /// A name or Str before `as`, also after the modifier `type`.
    #[tactic(auto, unfolding(es_grammar::specs::types::Modules::is_renamed))]
    pub fn is_renamed(&self, lang: Lang, at: usize) -> bool
        ensures { result ≡ is_renamed lang (keys_of self.now.tokens.now) at }
    {
        if self.opens_type_name(lang, at) {
            is(TokenKind::AsWord, self.seen_after(at, 2))
        } else {
            is(TokenKind::AsWord, self.seen_after(at, 1))
        }
    }

    /// `type as` names `type`, and its second name isn't `as`.
    #[tactic(auto, unfolding(es_grammar::specs::types::Modules::is_no_type_as_as))]
    pub fn is_no_type_as_as(&self, at: usize) -> bool
        ensures { result ≡ is_no_type_as_as (keys_of self.now.tokens.now) at }
    {
        !(self.sees(TokenKind::TypeWord, at)
            && is(TokenKind::AsWord, self.seen_after(at, 1))
            && is(TokenKind::AsWord, self.seen_after(at, 2)))
    }

    /// A name before `,`.
    #[tactic(auto, unfolding(es_grammar::specs::types::Modules::has_comma))]
    pub fn has_comma(&self, at: usize) -> bool
        ensures { result ≡ has_comma (keys_of self.now.tokens.now) at }
    {
        is(TokenKind::Comma, self.seen_after(at, 1))
    }

    /// A name before `=`, also after the modifier `type`.
    pub fn names_before_equal(&self, lang: Lang, at: usize) -> bool
        ensures { result ≡ names_before_equal lang (keys_of self.now.tokens.now) at }
    {
        if !lang.is_typed() {
            return false;
        }
        if self.opens_type_import(lang, at) {
            looks::has_name(self.seen_after(at, 1)) && is(TokenKind::Equal, self.seen_after(at, 2))
        } else {
            self.sees_name(at) && is(TokenKind::Equal, self.seen_after(at, 1))
        }
    }

    /// `import` before such a name.
    #[tactic(auto, unfolding(es_grammar::specs::types::Modules::opens_equals))]
    pub fn opens_equals(&self, lang: Lang, at: usize) -> bool
        ensures { result ≡ opens_equals lang (keys_of self.now.tokens.now) at }
    {
        self.stands(TokenKind::ImportWord, at) && self.names_before_equal(lang, at + 1)
    }

    /// `require` before `(`.
    #[tactic(auto, unfolding(es_grammar::specs::types::Modules::shows_require))]
    pub fn shows_require(&self, at: usize) -> bool
        ensures { result ≡ shows_require (keys_of self.now.tokens.now) at }
    {
        self.sees(TokenKind::RequireWord, at) && is(TokenKind::OpenParen, self.seen_after(at, 1))
    }

    /// `require` before `(` follows the `=` of the import here.
    #[tactic(auto, unfolding(es_grammar::specs::types::Modules::opens_require))]
    pub fn opens_require(&self, lang: Lang, at: usize) -> bool
        ensures { result ≡ opens_require lang (keys_of self.now.tokens.now) at }
    {
        if at >= self.tokens.len() {
            return false;
        }
        let modified = self.opens_type_import(lang, at + 1);
        self.shows_require(behind_type(modified, at + 1) + 2)
    }

    /// `import` before a Str.
    #[tactic(auto, unfolding(es_grammar::specs::types::Modules::opens_bare))]
    pub fn opens_bare(&self, at: usize) -> bool
        ensures { result ≡ opens_bare (keys_of self.now.tokens.now) at }
    {
        is(TokenKind::Str, self.seen_after(at, 1))
    }

    /// Behind `import`, `source` is the phase before a name, except `from` with a Str after it.
    #[tactic(auto, unfolding(es_grammar::specs::types::Modules::opens_source_import))]
    pub fn opens_source_import(&self, at: usize) -> bool
        ensures { result ≡ opens_source_import (keys_of self.now.tokens.now) at }
    {
        if !is(TokenKind::SourceWord, self.seen_after(at, 1)) {
            return false;
        }
        let name = self.seen_after(at, 2);
        looks::has_name(name)
            && !(is(TokenKind::FromWord, name) && is(TokenKind::Str, self.seen_after(at, 3)))
    }

    /// Behind `import`, `defer` is the phase before `*`.
    #[tactic(auto, unfolding(es_grammar::specs::types::Modules::opens_defer_import))]
    pub fn opens_defer_import(&self, at: usize) -> bool
        ensures { result ≡ opens_defer_import (keys_of self.now.tokens.now) at }
    {
        is(TokenKind::DeferWord, self.seen_after(at, 1))
            && is(TokenKind::Star, self.seen_after(at, 2))
    }

    /// In TypeScript `type` is a modifier of the export here.
    #[tactic(auto, unfolding(es_grammar::specs::types::Modules::opens_type_export))]
    pub fn opens_type_export(&self, lang: Lang, at: usize) -> bool
        ensures { result ≡ opens_type_export lang (keys_of self.now.tokens.now) at }
    {
        if !lang.is_typed() || !self.sees(TokenKind::TypeWord, at) {
            return false;
        }
        let next = self.seen_after(at, 1);
        is(TokenKind::OpenBrace, next) || is(TokenKind::Star, next)
    }

    /// `*` after `export`, or after its modifier.
    #[tactic(auto, unfolding(es_grammar::specs::types::Modules::opens_all))]
    pub fn opens_all(&self, lang: Lang, at: usize) -> bool
        ensures { result ≡ opens_all lang (keys_of self.now.tokens.now) at }
    {
        if at >= self.tokens.len() {
            return false;
        }
        let modified = self.opens_type_export(lang, at + 1);
        self.sees(TokenKind::Star, behind_type(modified, at + 1))
    }

    /// `export` before `import`, before a name and `=`.
    #[tactic(auto, unfolding(es_grammar::specs::types::Modules::opens_exported_equals))]
    pub fn opens_exported_equals(&self, lang: Lang, at: usize) -> bool
        ensures { result ≡ opens_exported_equals lang (keys_of self.now.tokens.now) at }
    {
        if at >= self.tokens.len() {
            return false;
        }
        self.opens_equals(lang, at + 1)
    }

    /// `require` before `(` follows the `=` of the exported import here.
    #[tactic(auto, unfolding(es_grammar::specs::types::Modules::opens_exported_require))]
    pub fn opens_exported_require(&self, lang: Lang, at: usize) -> bool
        ensures { result ≡ opens_exported_require lang (keys_of self.now.tokens.now) at }
    {
        if at >= self.tokens.len() {
            return false;
        }
        self.opens_require(lang, at + 1)
    }

    /// In TypeScript `export as namespace`.
    #[tactic(auto, unfolding(es_grammar::specs::types::Modules::opens_namespace))]
    pub fn opens_namespace(&self, lang: Lang, at: usize) -> bool
        ensures { result ≡ opens_namespace lang (keys_of self.now.tokens.now) at }
    {
        lang.is_typed() && is(TokenKind::AsWord, self.seen_after(at, 1))
    }

    /// `import` heads an import but before `(` or `.`.
    #[tactic(auto, unfolding(es_grammar::specs::types::Items::opens_import))]
    pub fn opens_import(&self, at: usize) -> bool
        ensures { result ≡ opens_import (keys_of self.now.tokens.now) at }
    {
        if !self.sees(TokenKind::ImportWord, at) {
            return false;
        }
        let next = self.seen_after(at, 1);
        !(is(TokenKind::OpenParen, next) || is(TokenKind::Dot, next))
    }

    /// `default` follows `export`.
    #[tactic(auto, unfolding(es_grammar::specs::types::Items::opens_default))]
    pub fn opens_default(&self, at: usize) -> bool
        ensures { result ≡ opens_default (keys_of self.now.tokens.now) at }
    {
        is(TokenKind::DefaultWord, self.seen_after(at, 1))
    }

    /// A function follows `export default`.
    #[tactic(auto, unfolding(es_grammar::specs::types::Items::opens_default_function))]
    pub fn opens_default_function(&self, at: usize) -> bool
        ensures { result ≡ opens_default_function (keys_of self.now.tokens.now) at }
    {
        if is(TokenKind::FunctionWord, self.seen_after(at, 2)) {
            return true;
        }
        if at >= self.tokens.len() {
            return false;
        }
        self.opens_async_function(at + 2)
    }

    /// A class follows `export default`.
    #[tactic(auto, unfolding(es_grammar::specs::types::Items::opens_default_class))]
    pub fn opens_default_class(&self, at: usize) -> bool
        ensures { result ≡ opens_default_class (keys_of self.now.tokens.now) at }
    {
        is(TokenKind::ClassWord, self.seen_after(at, 2))
    }

    /// A declaration follows `export`.
    #[tactic(auto, unfolding(es_grammar::specs::types::Items::opens_declaration))]
    pub fn opens_declaration(&self, at: usize) -> bool
        ensures { result ≡ opens_declaration (keys_of self.now.tokens.now) at }
    {
        if at >= self.tokens.len() {
            return false;
        }
        let first = at + 1;
        self.sees_variable_word(first)
            || self.sees(TokenKind::FunctionWord, first)
            || self.sees(TokenKind::ClassWord, first)
            || self.opens_async_function(first)
            || self.opens_using(first)
    }
}
