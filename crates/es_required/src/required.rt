//! Which names are declared so.

ghost use Rattle.std.specs.Prelude.{◌≡◌, slice_get, slice_range};
ghost use Rattle.std.specs.List.{list_any};
ghost use Rattle.es_variables.specs.Numbers.{at_in};
ghost use Rattle.es_variables.specs.scope_numbers.Cuts.{Cuts, IsCut};
ghost use Rattle.es_required.specs.Required as spec;

use crate::steps::Mark;
use es_token::Token;
use es_variables::ScopeIds;

/// A text, its tokens, which cut it between characters, the numbers of its names, and its marks.
#[derive(Clone, Copy)]
pub struct Required<'a> {
    pub text: &'a str,
    pub tokens: &'a [Token],
    pub ids: &'a ScopeIds,
    pub marks: &'a [Mark],
    pub ghost cut: { IsCut text.now tokens.now },
}

impl Required<'_> {
    /// Whether the name that is the token of this number is declared so.
    #[tactic(auto, unfolding(crate::specs::Required::is_required))]
    pub fn is_required(&self, at: Option<u32>) -> bool
        ensures { spec.is_required self.now.text.now self.now.tokens.now (at_in self.now.ids.now) self.now.marks.now at ≡ result }
    {
        match at {
            Some(at) => self.is_made(at),
            None => false,
        }
    }

    fn is_made(&self, at: u32) -> bool
        ensures { list_any (spec.makes self.now.text.now self.now.tokens.now (at_in self.now.ids.now) self.now.marks.now at) self.now.marks.now ≡ result }
    {
        self.one_makes(self.marks, at)
    }

    fn one_makes(&self, marks: &[Mark], at: u32) -> bool
        ensures { result ≡ list_any (spec.makes self.now.text.now self.now.tokens.now (at_in self.now.ids.now) self.now.marks.now at) marks.now }
    {
        for mark in marks {
            if self.makes(at, *mark) {
                return true;
            }
        }
        false
    }

    fn makes(&self, at: u32, mark: Mark) -> bool
        ensures { spec.makes self.now.text.now self.now.tokens.now (at_in self.now.ids.now) self.now.marks.now at mark ≡ result }
    {
        match mark {
            Mark::Made(name, callee) => self.is_same(at, name) && self.is_imported(callee),
            Mark::Imported(_) => false,
        }
    }

    fn is_imported(&self, at: u32) -> bool
        ensures { list_any (spec.imports self.now.text.now self.now.tokens.now (at_in self.now.ids.now) at) self.now.marks.now ≡ result }
    {
        self.one_imports(self.marks, at)
    }

    fn one_imports(&self, marks: &[Mark], at: u32) -> bool
        ensures { result ≡ list_any (spec.imports self.now.text.now self.now.tokens.now (at_in self.now.ids.now) at) marks.now }
    {
        for mark in marks {
            if self.imports(at, *mark) {
                return true;
            }
        }
        false
    }

    fn imports(&self, at: u32, mark: Mark) -> bool
        ensures { spec.imports self.now.text.now self.now.tokens.now (at_in self.now.ids.now) at mark ≡ result }
    {
        match mark {
            Mark::Imported(name) => self.is_same(at, name),
            Mark::Made(_, _) => false,
        }
    }

    /// Whether one scope declares both names, which are one.
    fn is_same(&self, a: u32, b: u32) -> bool
        ensures { spec.same_name self.now.text.now self.now.tokens.now (at_in self.now.ids.now) a b ≡ result }
    {
        let number = self.ids.number(a);
        number != 0 && number == self.ids.number(b) && self.is_same_text(a, b)
    }

    #[tactic(auto, unfolding(es_lowering::specs::Texts::ident_of))]
    fn is_same_text(&self, a: u32, b: u32) -> bool
        ensures { spec.same_text self.now.text.now self.now.tokens.now (slice_get self.now.tokens.now a) (slice_get self.now.tokens.now b) ≡ result }
    {
        match self.numbered(a) {
            Some(token) => self.is_spelled(self.cut(token), b),
            None => false,
        }
    }

    #[tactic(auto, unfolding(es_lowering::specs::Texts::ident_of))]
    fn is_spelled(&self, word: &str, at: u32) -> bool
        ensures { spec.same_word self.now.text.now self.now.tokens.now word.now (slice_get self.now.tokens.now at) ≡ result }
    {
        match self.numbered(at) {
            Some(token) => self.cut(token) == word,
            None => false,
        }
    }

    /// The token of this number.
    fn numbered(&self, at: u32) -> Option<Token>
        ensures { result ≡ slice_get self.now.tokens.now at }
    {
        self.tokens.get(at as usize).copied()
    }

    /// The text of a token.
    fn cut(&self, token: Token) -> &str
        requires { Cuts self.now.text.now token }
        ensures { result.now ≡ slice_range self.now.text.now token.range.start token.range.end }
    {
        let range = token.range();
        &self.text[range.start..range.end]
    }
}
