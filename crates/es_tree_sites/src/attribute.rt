//! The `type` among the attributes of a declaration.

ghost use Rattle.std.specs.Prelude.{◌≡◌, None, IfOk, IfSome, option_map, codes};
ghost use Rattle.es_lowering.specs.Texts.{str_of};
ghost use Rattle.es_site.specs.Attributes.{named};
ghost use Rattle.es_law_sites.specs.plain.Own.{spelt, last_type, clause_attribute, attribute_in};
ghost use Rattle.es_tree_sites.specs.Parts.{parts_in, part_in, Cuts, HasCut};
ghost use Rattle.es_tree_sites.specs.Given.{clause_by, type_turn};

use crate::source::TokenizedText;
use es_grammar::NodeKind as Kind;
use es_site::Attribute;
use es_syntax::{Item, Siblings};
use es_token::Token;
use std::alloc::AllocError;

impl TokenizedText<'_> {
    /// The attribute of a declaration with this clause, or with none.
    pub fn attribute(&self, clauses: &Siblings<'_>) -> Result<Attribute, AllocError>
        requires { HasCut self.now }
        ensures { IfOk result (λ a. a ≡ attribute_in self.now.text.now self.now.tokens.now (parts_in self.now clauses.now)) }
    {
        match self.split(clauses) {
            None => Ok(Attribute::Absent),
            Some((clause, _)) => self.of_clause(&clause),
        }
    }

    #[tactic(auto, using(crate::proofs::Looks::clause_node, crate::proofs::Looks::clause_other))]
    fn of_clause(&self, clause: &Item<'_>) -> Result<Attribute, AllocError>
        requires { HasCut self.now }
        ensures { IfOk result (λ a. a ≡ clause_attribute self.now.text.now self.now.tokens.now (part_in self.now clause.now)) }
    {
        match self.as_node(clause) {
            Some((label, parts)) => self.of_clause_parts(label, &parts),
            None => Ok(Attribute::Absent),
        }
    }

    fn of_clause_parts(&self, label: Kind, parts: &Siblings<'_>) -> Result<Attribute, AllocError>
        requires { HasCut self.now }
        ensures { IfOk result (λ a. a ≡ clause_by self.now.text.now self.now.tokens.now label (parts_in self.now parts.now)) }
    {
        match label {
            Kind::Attributes => self.of_items(&self.group(parts, 0)),
            _ => Ok(Attribute::Absent),
        }
    }

    /// The attribute by the last value that `type` is given.
    fn of_items(&self, items: &Siblings<'_>) -> Result<Attribute, AllocError>
        requires { HasCut self.now }
        ensures { IfOk result (λ a. a ≡ named (last_type self.now.text.now self.now.tokens.now None (parts_in self.now items.now))) }
    {
        match self.last_type(items)? {
            Some(token) => Ok(Attribute::Named(self.value(token)?)),
            None => Ok(Attribute::Absent),
        }
    }

    /// The last value that `type` is given.
    #[tactic(auto, using(crate::proofs::Turns::type_none, crate::proofs::Turns::type_more))]
    fn last_type(&self, items: &Siblings<'_>) -> Result<Option<Token>, AllocError>
        requires { HasCut self.now }
        ensures is { IfOk result (λ last. option_map (str_of self.now.text.now) last ≡ last_type self.now.text.now self.now.tokens.now None (parts_in self.now items.now)) }
        ensures cut { IfOk result (λ last. IfSome last (Cuts self.now.text.now)) }
    {
        let mut last = None;
        let mut row = *items;
        while let Some((item, rest)) = self.split(&row) {
            last = self.type_or(last, &item)?;
            row = rest;
        }
        Ok(last)
    }

    /// The value that this item gives `type`, or what was given before.
    #[tactic(auto, unfolding(crate::specs::Given::type_turn))]
    fn type_or(&self, last: Option<Token>, item: &Item<'_>) -> Result<Option<Token>, AllocError>
        requires has { HasCut self.now }
        requires cut { IfSome last (Cuts self.now.text.now) }
        ensures is { IfOk result (λ given. option_map (str_of self.now.text.now) given
            ≡ type_turn self.now.text.now self.now.tokens.now (option_map (str_of self.now.text.now) last) (part_in self.now item.now)) }
        ensures cut { IfOk result (λ given. IfSome given (Cuts self.now.text.now)) }
    {
        let turn = self.group_in(item);
        if self.is_type(self.token_at(&self.group(&turn, 0), 0))? {
            return Ok(self.token_at(&turn, 1));
        }
        Ok(last)
    }

    fn is_type(&self, token: Option<Token>) -> Result<bool, AllocError>
        requires { IfSome token (Cuts self.now.text.now) }
        ensures { IfOk result (λ yes. yes ≡ spelt self.now.text.now self.now.tokens.now (codes "type") token) }
    {
        match token {
            Some(token) => self.spells("type", token),
            None => Ok(false),
        }
    }
}
