//! The numbers of names.

ghost use Rattle.std.specs.Prelude.{◌≡◌, ◌+◌, ◌++◌, [], ◌∷◌, ℕ, List, None, Some, slice_get, slice_range, MatchOption, OnOk, IfOk};
ghost use Rattle.es_lexer.specs.Reads.{ReadsTokens};
ghost use Rattle.es_scopes.specs.declared.steps.Mark.{Mark as AMark};
ghost use Rattle.es_variables.specs.scope_numbers.Cuts.{Cuts, HasCut};
ghost use Rattle.es_scopes.specs.Numbers.{Named, Scope, closed, innermost as innermost_of, declaring, ids_in};
ghost use Rattle.es_variables.specs.scope_numbers.Stacks.{spelled_at, copies, left_in, AreDeclared, AreStacked};
ghost use Rattle.es_variables.specs.scope_numbers.Meets.{tokens_in};
ghost use Rattle.es_variables.specs.scope_numbers.Spelt.{tops_in};

use crate::scope_numbers::declared::{Declared, declared_names};
use crate::scope_numbers::opened::Opened;
use crate::scope_numbers::tops::{Tops, last, pop, push};
use base::Items;
use es_scopes::Mark;
use es_token::Token;
use std::alloc::{AllocError, Global};
use std::collections::HashMap;

/// A text and its tokens.
#[derive(Clone, Copy)]
struct Spellings<'a> {
    alloc: Global,
    text: &'a str,
    tokens: &'a [Token],
}

impl Spellings<'_> {
    /// The token of this number.
    fn numbered(&self, at: u32) -> Option<Token>
        ensures { result ≡ slice_get self.now.tokens.now at }
    {
        self.tokens.get(at as usize).copied()
    }

    /// The text of a token.
    fn cut(&self, token: Token) -> &str
        requires { Cuts self.now.text.now token }
        ensures { result.now ≡ slice_range self.now.text.now token.range.start token.range.end }
    {
        let range = token.range();
        &self.text[range.start..range.end]
    }

    /// The text of the token of this number.
    #[tactic(auto, unfolding(es_lowering::specs::Texts::ident_of))]
    fn spelled(&self, at: u32) -> Option<&str>
        requires { HasCut self.now }
        ensures { MatchOption result (spelled_at self.now.text.now self.now.tokens.now at ≡ None) (λ name. spelled_at self.now.text.now self.now.tokens.now at ≡ Some name.now) }
    {
        match self.numbered(at) {
            Some(token) => Some(self.cut(token)),
            None => None,
        }
    }

    /// A name has this number from now on.
    #[tactic(auto, using(crate::proofs::scope_numbers_lemmas::NameLemmas::copies_some, crate::proofs::scope_numbers_lemmas::NameLemmas::copies_none))]
    fn push(&self, tops: &mut Tops, n: u32, token: u32) -> Result<(), AllocError>
        requires { HasCut self.now }
        ensures { OnOk result ((q : List ℕ) → tops_in tops.new q ≡ tops_in tops.old q ++ copies self.now.text.now self.now.tokens.now n (token ∷ []) q) }
    {
        match self.spelled(token) {
            Some(name) => push(tops, self.alloc, name, n),
            None => Ok(()),
        }
    }

    /// A name has the number again that it had before.
    #[tactic(auto, using(crate::proofs::scope_numbers_lemmas::NameLemmas::popped_some, crate::proofs::scope_numbers_lemmas::NameLemmas::popped_none))]
    fn pop(&self, tops: &mut Tops, token: u32)
        requires { HasCut self.now }
        ensures { (rest : List ℕ → List ℕ) (n : ℕ)
            → ((q : List ℕ) → tops_in tops.old q ≡ rest q ++ copies self.now.text.now self.now.tokens.now n (token ∷ []) q)
            → (q : List ℕ) → tops_in tops.new q ≡ rest q }
    {
        match self.spelled(token) {
            Some(name) => pop(tops, name),
            None => {}
        }
    }

    #[tactic(auto, using(crate::proofs::scope_numbers_lemmas::NameLemmas::push_more))]
    fn push_all(&self, tops: &mut Tops, n: u32, names: &[u32]) -> Result<(), AllocError>
        requires { HasCut self.now }
        ensures { OnOk result ((q : List ℕ) → tops_in tops.new q ≡ tops_in tops.old q ++ copies self.now.text.now self.now.tokens.now n names.now q) }
    {
        let mut row = names;
        while let Some((token, rest)) = row.split_first() {
            self.push(tops, n, *token)?;
            row = rest;
        }
        Ok(())
    }

    #[tactic(auto, using(crate::proofs::scope_numbers_lemmas::NameLemmas::pop_less))]
    fn pop_all(&self, tops: &mut Tops, names: &[u32])
        requires { HasCut self.now }
        ensures { (rest : List ℕ → List ℕ) (n : ℕ)
            → ((q : List ℕ) → tops_in tops.old q ≡ rest q ++ copies self.now.text.now self.now.tokens.now n names.now q)
            → (q : List ℕ) → tops_in tops.new q ≡ rest q }
    {
        let mut row = names;
        while let Some((token, before)) = row.split_last() {
            self.pop(tops, *token);
            row = before;
        }
    }

    /// The number that a name has now.
    #[tactic(auto, using(crate::proofs::scope_numbers_lemmas::NameLemmas::number_some, crate::proofs::scope_numbers_lemmas::NameLemmas::number_none))]
    fn number(&self, tops: &Tops, token: u32) -> u32
        requires { HasCut self.now }
        ensures { (names : List Named) (around : List Scope) → AreStacked self.now.text.now self.now.tokens.now names around (tops_in tops.now)
            → declaring self.now.text.now self.now.tokens.now names (spelled_at self.now.text.now self.now.tokens.now token) around ≡ result }
    {
        match self.spelled(token) {
            Some(name) => last(tops, name),
            None => 0,
        }
    }

    /// A scope begins.
    #[tactic(auto, using(crate::proofs::scope_numbers_lemmas::NameLemmas::stacked_more))]
    fn open(
        &self,
        tops: &mut Tops,
        opened: &mut Opened,
        declared: &Declared,
        hoists: bool,
    ) -> Result<(), AllocError>
        requires { HasCut self.now }
        ensures around { OnOk result (opened.new.around ≡ record { number = opened.old.next; hoists = hoists } ∷ opened.old.around) }
        ensures next { OnOk result (opened.new.next ≡ opened.old.next + 1) }
        ensures stacked { OnOk result ((names : List Named) → AreDeclared names (tokens_in declared.now)
            → AreStacked self.now.text.now self.now.tokens.now names opened.old.around (tops_in tops.old)
            → AreStacked self.now.text.now self.now.tokens.now names opened.new.around (tops_in tops.new)) }
    {
        let n = opened.next();
        self.push_all(tops, n, tokens_of(declared, n))?;
        opened.open(hoists)
    }

    /// The names of the innermost scope have the numbers again that they had before.
    #[tactic(auto, using(crate::proofs::scope_numbers_lemmas::NameLemmas::closed_some, crate::proofs::scope_numbers_lemmas::NameLemmas::closed_none))]
    fn leave(&self, tops: &mut Tops, innermost: Option<u32>, declared: &Declared)
        requires { HasCut self.now }
        ensures { (names : List Named) (around : List Scope) → innermost ≡ innermost_of around → AreDeclared names (tokens_in declared.now)
            → AreStacked self.now.text.now self.now.tokens.now names around (tops_in tops.old)
            → AreStacked self.now.text.now self.now.tokens.now names (closed around) (tops_in tops.new) }
    {
        match innermost {
            Some(n) => self.pop_all(tops, tokens_of(declared, n)),
            None => {}
        }
    }

    /// The innermost scope ends.
    fn close(&self, tops: &mut Tops, opened: &mut Opened, declared: &Declared)
        requires { HasCut self.now }
        ensures around { opened.new.around ≡ closed opened.old.around }
        ensures next { opened.new.next ≡ opened.old.next }
        ensures stacked { (names : List Named) → AreDeclared names (tokens_in declared.now)
            → AreStacked self.now.text.now self.now.tokens.now names opened.old.around (tops_in tops.old)
            → AreStacked self.now.text.now self.now.tokens.now names opened.new.around (tops_in tops.new) }
    {
        self.leave(tops, opened.innermost(), declared);
        opened.close();
    }
}

/// The tokens that a scope declares.
fn tokens_of(declared: &Declared, n: u32) -> &[u32]
    ensures { result.now ≡ tokens_in declared.now n }
{
    match declared.get(&n) {
        Some(tokens) => tokens.as_slice(),
        None => &[],
    }
}

/// What a mark makes of what is kept, and of the numbers.
#[tactic(auto, using(crate::proofs::scope_numbers_lemmas::NameLemmas::left_open, crate::proofs::scope_numbers_lemmas::NameLemmas::left_close, crate::proofs::scope_numbers_lemmas::NameLemmas::left_name))]
fn meet(
    source: &Spellings<'_>,
    ids: &mut Items<(u32, u32)>,
    tops: &mut Tops,
    opened: &mut Opened,
    declared: &Declared,
    mark: Mark,
) -> Result<(), AllocError>
    requires { HasCut source.now }
    ensures { OnOk result ((names : List Named) (rest : List AMark) → AreDeclared names (tokens_in declared.now)
        → AreStacked source.now.text.now source.now.tokens.now names opened.old.around (tops_in tops.old)
        → AreStacked source.now.text.now source.now.tokens.now names opened.new.around (tops_in tops.new)
        × (ids.new ++ left_in source.now.text.now source.now.tokens.now names opened.new rest
        ≡ ids.old ++ left_in source.now.text.now source.now.tokens.now names opened.old (mark ∷ rest))) }
{
    match mark {
        Mark::Open(hoists) => source.open(tops, opened, declared, hoists),
        Mark::Close => {
            source.close(tops, opened, declared);
            Ok(())
        }
        Mark::Name(_, token) => ids.push((token, source.number(tops, token))),
    }
}

/// The names among the marks of a program, by their tokens, each with its number, in the order of the text.
#[tactic(auto, using(crate::proofs::scope_numbers_lemmas::NameLemmas::left_more, crate::proofs::scope_numbers_lemmas::NameLemmas::left_end), unfolding(es_scopes::specs::Numbers::ids_in))]
pub fn scope_ids(
    alloc: Global,
    text: &str,
    tokens: &[Token],
    marks: &[Mark],
) -> Result<Items<(u32, u32)>, AllocError>
    requires { ReadsTokens text.now tokens.now }
    ensures { IfOk result (λ ids. ids ≡ ids_in text.now tokens.now marks.now) }
{
    let declared = declared_names(alloc, marks)?;
    let source = Spellings {
        alloc,
        text,
        tokens,
    };
    let mut ids = Items::new(alloc);
    let mut tops = HashMap::new(alloc);
    let mut opened = Opened::new(alloc);
    let mut row = marks;
    while let Some((mark, rest)) = row.split_first() {
        meet(&source, &mut ids, &mut tops, &mut opened, &declared, *mark)?;
        row = rest;
    }
    Ok(ids)
}
