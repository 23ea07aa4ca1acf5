//! A text with its tokens, and the parts of its plain tree.

ghost use Rattle.std.specs.Prelude.{◌≡◌, ◌+◌, ◌≤◌, ◌<◌, length, Some, slice_get, slice_range, IfOk, IfSome, bytes_eq};
ghost use Rattle.es_lowering.specs.Texts.{str_of, name_of};
ghost use Rattle.es_site.specs.Attributes.{spells};
ghost use Rattle.es_law_sites.specs.plain.Part.{part, as_group, group, is_there};
ghost use Rattle.es_law_sites.specs.plain.Own.{token_in, str_in, same_word, same_str};
ghost use Rattle.es_syntax.specs.Trees.{trees};
ghost use Rattle.es_tree_sites.specs.Plan.{is_single, is_token};
ghost use Rattle.es_tree_sites.specs.Parts.{first_trees, Splits, parts_in, part_in, first_in, there, Seen, Cuts, HasCut};

use base::Text;
use es_grammar::NodeKind as Kind;
use es_literal::literal_text::literal_text;
use es_syntax::{Item, Siblings, What};
use es_token::{Token, TokenKind};
use std::alloc::{AllocError, Global};

/// A text and its tokens.
#[derive(Clone, Copy)]
pub struct TokenizedText<'a> {
    pub alloc: Global,
    pub text: &'a str,
    pub tokens: &'a [Token],
}

/// The first part in a row, and those after it.
#[tactic(auto, using(crate::proofs::RowLemmas::trees_none, crate::proofs::RowLemmas::trees_some))]
fn split<'t>(row: &Siblings<'t>) -> Option<(Item<'t>, Siblings<'t>)>
    ensures trees { trees row.now.entries.now ≡ first_trees result }
    ensures entries { Splits row.now.entries.now result }
    ensures below { IfSome result (λ p. length p.0.parts.entries.now + length p.1.entries.now < length row.now.entries.now) }
{
    match row.entries.split_first() {
        None => None,
        Some((head, behind)) => {
            let cut = (head.size as usize).min(behind.len());
            let (parts, rest) = behind.split_at(cut);
            let item = Item {
                what: head.what,
                from: head.from,
                to: head.to,
                parts: Siblings { entries: parts },
            };
            Some((item, Siblings { entries: rest }))
        }
    }
}

impl TokenizedText<'_> {
    /// The first of these parts, and those after it.
    pub fn split<'t>(&self, parts: &Siblings<'t>) -> Option<(Item<'t>, Siblings<'t>)>
        ensures value { parts_in self.now parts.now ≡ first_in self.now result }
        ensures entries { Splits parts.now.entries.now result }
        ensures below { IfSome result (λ p. length p.0.parts.entries.now + length p.1.entries.now < length parts.now.entries.now) }
    {
        split(parts)
    }

    /// The part at a place.
    pub fn part<'t>(&self, parts: &Siblings<'t>, n: usize) -> Option<Item<'t>>
        ensures value { part (parts_in self.now parts.now) n ≡ there self.now result }
        ensures below { IfSome result (λ item. length item.parts.entries.now < length parts.now.entries.now) }
    {
        match self.split(parts) {
            None => None,
            Some((first, rest)) => {
                if n == 0 {
                    return Some(first);
                }
                self.part(&rest, n - 1)
            }
        }
    }

    /// Whether there is exactly one part.
    #[tactic(auto, unfolding(crate::specs::Plan::is_single))]
    pub fn is_single(&self, parts: &Siblings<'_>) -> bool
        ensures { result ≡ is_single (parts_in self.now parts.now) }
    {
        match self.split(parts) {
            None => false,
            Some((_, rest)) => match self.split(&rest) {
                None => true,
                Some(_) => false,
            },
        }
    }

    /// The parts of the item, where it is a group.
    #[tactic(auto, using(crate::proofs::PartLemmas::group_leaf, crate::proofs::PartLemmas::group_node, crate::proofs::PartLemmas::group_role, crate::proofs::PartLemmas::group_parts, crate::proofs::PartLemmas::group_lean))]
    pub fn group_in<'t>(&self, item: &Item<'t>) -> Siblings<'t>
        ensures value { parts_in self.now result ≡ as_group (part_in self.now item.now) }
        ensures below { length result.entries.now ≤ length item.now.parts.entries.now }
    {
        match item.what {
            What::Parts => item.parts,
            What::Leaf => Siblings { entries: &[] },
            What::Node(_) => Siblings { entries: &[] },
            What::Role(_) => Siblings { entries: &[] },
            What::Lean(_) => Siblings { entries: &[] },
        }
    }

    /// The parts of a group at a place; none where no group is there.
    #[tactic(auto, using(crate::proofs::PartLemmas::parts_none))]
    pub fn group<'t>(&self, parts: &Siblings<'t>, n: usize) -> Siblings<'t>
        ensures value { parts_in self.now result ≡ group (parts_in self.now parts.now) n }
        ensures below { length result.entries.now ≤ length parts.now.entries.now }
    {
        match self.part(parts, n) {
            Some(item) => self.group_in(&item),
            None => Siblings { entries: &[] },
        }
    }

    /// Whether a part that may be absent is there.
    pub fn is_there(&self, parts: &Siblings<'_>, n: usize) -> bool
        ensures { result ≡ is_there (group (parts_in self.now parts.now) n) }
    {
        match self.split(&self.group(parts, n)) {
            Some(_) => true,
            None => false,
        }
    }

    /// The node that the item is, by its alternative, and its parts: no node in another role, no left-associative one.
    #[tactic(auto, using(crate::proofs::PartLemmas::seen_leaf, crate::proofs::PartLemmas::seen_node, crate::proofs::PartLemmas::seen_role, crate::proofs::PartLemmas::seen_parts, crate::proofs::PartLemmas::seen_lean))]
    pub fn as_node<'t>(&self, item: &Item<'t>) -> Option<(Kind, Siblings<'t>)>
        ensures { Seen self.now result (part_in self.now item.now) }
    {
        match item.what {
            What::Node(label) => Some((label, item.parts)),
            What::Leaf => None,
            What::Role(_) => None,
            What::Parts => None,
            What::Lean(_) => None,
        }
    }

    #[tactic(auto, using(crate::proofs::TokenLemmas::token_leaf, crate::proofs::TokenLemmas::token_node, crate::proofs::TokenLemmas::token_role, crate::proofs::TokenLemmas::token_parts, crate::proofs::TokenLemmas::token_lean))]
    fn is_token(&self, item: &Item<'_>) -> bool
        ensures { result ≡ is_token (part_in self.now item.now) }
    {
        match item.what {
            What::Leaf => true,
            What::Node(_) => false,
            What::Role(_) => false,
            What::Parts => false,
            What::Lean(_) => false,
        }
    }

    /// Whether the part at a place is a token.
    #[tactic(auto, unfolding(crate::specs::Plan::is_token))]
    pub fn is_token_at(&self, parts: &Siblings<'_>, n: usize) -> bool
        ensures { result ≡ is_token (part (parts_in self.now parts.now) n) }
    {
        match self.part(parts, n) {
            Some(item) => self.is_token(&item),
            None => false,
        }
    }

    /// The token of this number.
    fn numbered(&self, at: u32) -> Option<Token>
        ensures { result ≡ slice_get self.now.tokens.now at }
    {
        self.tokens.get(at as usize).copied()
    }

    /// The token that the item is.
    #[tactic(auto, using(crate::proofs::Looks::token_leaf, crate::proofs::Looks::token_node, crate::proofs::Looks::token_role, crate::proofs::Looks::token_parts, crate::proofs::Looks::token_lean))]
    fn token(&self, item: &Item<'_>) -> Option<Token>
        ensures { result ≡ token_in self.now.text.now self.now.tokens.now (part_in self.now item.now) }
    {
        match item.what {
            What::Leaf => self.numbered(item.from),
            What::Node(_) => None,
            What::Role(_) => None,
            What::Parts => None,
            What::Lean(_) => None,
        }
    }

    /// The token at a place among the parts.
    pub fn token_at(&self, parts: &Siblings<'_>, n: usize) -> Option<Token>
        requires { HasCut self.now }
        ensures is { result ≡ token_in self.now.text.now self.now.tokens.now (part (parts_in self.now parts.now) n) }
        ensures cut { IfSome result (Cuts self.now.text.now) }
    {
        match self.part(parts, n) {
            Some(item) => self.token(&item),
            None => None,
        }
    }

    /// The text of a token.
    fn cut(&self, token: Token) -> &str
        requires { Cuts self.now.text.now token }
        ensures { result.now ≡ slice_range self.now.text.now token.range.start token.range.end }
    {
        let range = token.range();
        &self.text[range.start..range.end]
    }

    /// The value of a string literal.
    #[tactic(auto, unfolding(es_lowering::specs::Texts::str_of))]
    pub fn value(&self, token: Token) -> Result<Text, AllocError>
        requires { Cuts self.now.text.now token }
        ensures { IfOk result (λ value. value ≡ (str_of self.now.text.now token).value) }
    {
        literal_text(self.alloc, self.cut(token))
    }

    /// Whether the token is this word.
    #[tactic(auto, unfolding(es_lowering::specs::Texts::ident_of))]
    pub fn is_word(&self, word: &str, token: Token) -> bool
        requires { Cuts self.now.text.now token }
        ensures { result ≡ same_word self.now.text.now self.now.tokens.now word.now (Some token) }
    {
        self.cut(token) == word
    }

    /// Whether the first of these parts is this word.
    pub fn is_word_at(&self, word: &str, parts: &Siblings<'_>) -> bool
        requires { HasCut self.now }
        ensures { result ≡ same_word self.now.text.now self.now.tokens.now word.now (token_in self.now.text.now self.now.tokens.now (part (parts_in self.now parts.now) 0)) }
    {
        match self.token_at(parts, 0) {
            Some(token) => self.is_word(word, token),
            None => false,
        }
    }

    /// Whether the first of these parts is a string literal of this word.
    pub fn is_literal_at(&self, word: &str, parts: &Siblings<'_>) -> Result<bool, AllocError>
        requires { HasCut self.now }
        ensures { IfOk result (λ yes. yes ≡ same_str self.now.text.now self.now.tokens.now word.now (str_in self.now.text.now self.now.tokens.now (part (parts_in self.now parts.now) 0))) }
    {
        match self.token_at(parts, 0) {
            Some(token) => self.is_literal_of(word, token),
            None => Ok(false),
        }
    }

    /// Whether the token is a string literal of this word.
    pub fn is_literal_of(&self, word: &str, token: Token) -> Result<bool, AllocError>
        requires { Cuts self.now.text.now token }
        ensures { IfOk result (λ yes. yes ≡ bytes_eq (str_of self.now.text.now token).value word.now) }
    {
        let value = self.value(token)?;
        Ok(value.as_str() == word)
    }

    /// Whether the token is this word, or a string literal of it.
    #[tactic(auto, unfolding(es_lowering::specs::Texts::name_of))]
    pub fn spells(&self, word: &str, token: Token) -> Result<bool, AllocError>
        requires { Cuts self.now.text.now token }
        ensures { IfOk result (λ yes. yes ≡ spells word.now (name_of self.now.text.now token)) }
    {
        if token.kind() == TokenKind::Str {
            return self.is_literal_of(word, token);
        }
        Ok(self.is_word(word, token))
    }
}
