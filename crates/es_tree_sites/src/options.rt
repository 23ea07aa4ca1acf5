//! The `type` in the second argument of an `import()`.

ghost use Rattle.std.specs.Prelude.{◌≡◌, true, None, Some, IfOk, IfSome, option_map, codes, if◌then◌else◌};
ghost use Rattle.es_site.specs.declared.site.Attribute.TheVariants.{Unknown};
ghost use Rattle.es_lowering.specs.Texts.{str_of};
ghost use Rattle.es_law_sites.specs.plain.Part.{part};
ghost use Rattle.es_law_sites.specs.plain.Own.{src_by, src_in, is_word_key, key_says, is_plain, given_in, are_plain, last_given, type_by, type_in, with_by, with_in, options_by, options_of, options_in};
ghost use Rattle.es_tree_sites.specs.Parts.{parts_in, part_in, there, Cuts, HasCut};
ghost use Rattle.es_tree_sites.specs.Given.{is_word_label, key_by, plain_by, given_by, plain_turn, given_turn};

use crate::source::TokenizedText;
use es_grammar::NodeKind as Kind;
use es_site::Attribute;
use es_syntax::{Item, Siblings};
use es_token::Token;
use std::alloc::AllocError;

/// A word or a string as a key.
fn is_word_label(label: Kind) -> bool
    ensures { result ≡ is_word_label label }
{
    matches!(label, Kind::WordKey | Kind::StrKey)
}

impl TokenizedText<'_> {
    /// The token of the string literal that the item is.
    #[tactic(auto, using(crate::proofs::Looks::src_node, crate::proofs::Looks::src_other))]
    fn literal(&self, item: &Item<'_>) -> Option<Token>
        requires { HasCut self.now }
        ensures is { option_map (str_of self.now.text.now) result ≡ src_in self.now.text.now self.now.tokens.now (part_in self.now item.now) }
        ensures cut { IfSome result (Cuts self.now.text.now) }
    {
        match self.as_node(item) {
            Some((label, parts)) => self.literal_by(label, &parts),
            None => None,
        }
    }

    fn literal_by(&self, label: Kind, parts: &Siblings<'_>) -> Option<Token>
        requires { HasCut self.now }
        ensures is { option_map (str_of self.now.text.now) result ≡ src_by self.now.text.now self.now.tokens.now label (parts_in self.now parts.now) }
        ensures cut { IfSome result (Cuts self.now.text.now) }
    {
        match label {
            Kind::Str => self.token_at(parts, 0),
            _ => None,
        }
    }

    /// The token of the string literal at a place among the parts.
    pub fn literal_at(&self, parts: &Siblings<'_>, n: usize) -> Option<Token>
        requires { HasCut self.now }
        ensures is { option_map (str_of self.now.text.now) result ≡ src_in self.now.text.now self.now.tokens.now (part (parts_in self.now parts.now) n) }
        ensures cut { IfSome result (Cuts self.now.text.now) }
    {
        match self.part(parts, n) {
            Some(item) => self.literal(&item),
            None => None,
        }
    }

    #[tactic(auto, using(crate::proofs::Looks::word_key_node, crate::proofs::Looks::word_key_other))]
    fn is_word_key(&self, key: &Item<'_>) -> bool
        ensures { result ≡ is_word_key self.now.text.now self.now.tokens.now (part_in self.now key.now) }
    {
        match self.as_node(key) {
            Some((label, _)) => is_word_label(label),
            None => false,
        }
    }

    fn has_word_key(&self, parts: &Siblings<'_>) -> bool
        ensures { result ≡ is_word_key self.now.text.now self.now.tokens.now (part (parts_in self.now parts.now) 0) }
    {
        match self.part(parts, 0) {
            Some(key) => self.is_word_key(&key),
            None => false,
        }
    }

    fn is_plain_by(&self, label: Kind, parts: &Siblings<'_>) -> bool
        ensures { result ≡ plain_by self.now.text.now self.now.tokens.now label (parts_in self.now parts.now) }
    {
        match label {
            Kind::KeyValue => self.has_word_key(parts),
            _ => false,
        }
    }

    /// A plain `key: value`, whose key is a word or a string.
    #[tactic(auto, using(crate::proofs::Looks::plain_node, crate::proofs::Looks::plain_other))]
    fn is_plain(&self, prop: &Item<'_>) -> bool
        ensures { result ≡ is_plain self.now.text.now self.now.tokens.now (part_in self.now prop.now) }
    {
        match self.as_node(prop) {
            Some((label, parts)) => self.is_plain_by(label, &parts),
            None => false,
        }
    }

    #[tactic(auto, unfolding(crate::specs::Given::plain_turn))]
    fn is_plain_turn(&self, turn: &Item<'_>) -> bool
        ensures { result ≡ plain_turn self.now.text.now self.now.tokens.now (part_in self.now turn.now) }
    {
        match self.part(&self.group_in(turn), 0) {
            Some(prop) => self.is_plain(&prop),
            None => false,
        }
    }

    #[tactic(auto, using(crate::proofs::Turns::plain_none, crate::proofs::Turns::plain_more))]
    fn are_plain(&self, props: &Siblings<'_>) -> bool
        ensures { result ≡ are_plain self.now.text.now self.now.tokens.now true (parts_in self.now props.now) }
    {
        let mut plain = true;
        let mut row = *props;
        while let Some((turn, rest)) = self.split(&row) {
            plain = plain && self.is_plain_turn(&turn);
            row = rest;
        }
        plain
    }

    fn key_by(&self, word: &str, label: Kind, parts: &Siblings<'_>) -> Result<bool, AllocError>
        requires { HasCut self.now }
        ensures { IfOk result (λ yes. yes ≡ key_by self.now.text.now self.now.tokens.now word.now label (parts_in self.now parts.now)) }
    {
        match label {
            Kind::WordKey => Ok(self.is_word_at(word, parts)),
            Kind::StrKey => self.is_literal_at(word, parts),
            _ => Ok(false),
        }
    }

    #[tactic(auto, using(crate::proofs::Looks::key_node, crate::proofs::Looks::key_other))]
    fn key_says(&self, word: &str, key: &Item<'_>) -> Result<bool, AllocError>
        requires { HasCut self.now }
        ensures { IfOk result (λ yes. yes ≡ key_says self.now.text.now self.now.tokens.now word.now (part_in self.now key.now)) }
    {
        match self.as_node(key) {
            Some((label, parts)) => self.key_by(word, label, &parts),
            None => Ok(false),
        }
    }

    fn has_key(&self, word: &str, parts: &Siblings<'_>) -> Result<bool, AllocError>
        requires { HasCut self.now }
        ensures { IfOk result (λ yes. yes ≡ key_says self.now.text.now self.now.tokens.now word.now (part (parts_in self.now parts.now) 0)) }
    {
        match self.part(parts, 0) {
            Some(key) => self.key_says(word, &key),
            None => Ok(false),
        }
    }

    fn given_by<'t>(
        &self,
        word: &str,
        last: Option<Option<Item<'t>>>,
        label: Kind,
        parts: &Siblings<'t>,
    ) -> Result<Option<Option<Item<'t>>>, AllocError>
        requires { HasCut self.now }
        ensures { IfOk result (λ given. option_map (there self.now) given
            ≡ given_by self.now.text.now self.now.tokens.now word.now label (parts_in self.now parts.now) (option_map (there self.now) last.entry)) }
    {
        match label {
            Kind::KeyValue => {
                if self.has_key(word, parts)? {
                    Ok(Some(self.part(parts, 1)))
                } else {
                    Ok(last)
                }
            }
            _ => Ok(last),
        }
    }

    #[tactic(auto, using(crate::proofs::Looks::given_node, crate::proofs::Looks::given_other))]
    fn given_in<'t>(
        &self,
        word: &str,
        last: Option<Option<Item<'t>>>,
        prop: &Item<'t>,
    ) -> Result<Option<Option<Item<'t>>>, AllocError>
        requires { HasCut self.now }
        ensures { IfOk result (λ given. option_map (there self.now) given
            ≡ given_in self.now.text.now self.now.tokens.now word.now (part_in self.now prop.now) (option_map (there self.now) last.entry)) }
    {
        match self.as_node(prop) {
            Some((label, parts)) => self.given_by(word, last, label, &parts),
            None => Ok(last),
        }
    }

    #[tactic(auto, unfolding(crate::specs::Given::given_turn))]
    fn given_or<'t>(
        &self,
        word: &str,
        last: Option<Option<Item<'t>>>,
        turn: &Item<'t>,
    ) -> Result<Option<Option<Item<'t>>>, AllocError>
        requires { HasCut self.now }
        ensures { IfOk result (λ given. option_map (there self.now) given
            ≡ given_turn self.now.text.now self.now.tokens.now word.now (option_map (there self.now) last.entry) (part_in self.now turn.now)) }
    {
        match self.part(&self.group_in(turn), 0) {
            Some(prop) => self.given_in(word, last, &prop),
            None => Ok(last),
        }
    }

    /// What the last property that gives this word something gives it: a part, or none where the property has none.
    #[tactic(auto, using(crate::proofs::Turns::given_none, crate::proofs::Turns::given_more))]
    fn last_given<'t>(
        &self,
        word: &str,
        props: &Siblings<'t>,
    ) -> Result<Option<Option<Item<'t>>>, AllocError>
        requires { HasCut self.now }
        ensures { IfOk result (λ given. option_map (there self.now) given
            ≡ last_given self.now.text.now self.now.tokens.now word.now None (parts_in self.now props.now)) }
    {
        let mut last = None;
        let mut row = *props;
        while let Some((turn, rest)) = self.split(&row) {
            last = self.given_or(word, last, &turn)?;
            row = rest;
        }
        Ok(last)
    }

    /// The value of `type`, given by a string alone.
    fn of_type(&self, given: Option<Option<Item<'_>>>) -> Result<Attribute, AllocError>
        requires { HasCut self.now }
        ensures { IfOk result (λ a. a ≡ type_in self.now.text.now self.now.tokens.now (option_map (there self.now) given.entry)) }
    {
        match given {
            Some(Some(value)) => self.of_type_value(self.literal(&value)),
            Some(None) => Ok(Attribute::Unknown),
            None => Ok(Attribute::Absent),
        }
    }

    fn of_type_value(&self, literal: Option<Token>) -> Result<Attribute, AllocError>
        requires { IfSome literal (Cuts self.now.text.now) }
        ensures { IfOk result (λ a. a ≡ type_by self.now.text.now self.now.tokens.now (option_map (str_of self.now.text.now) literal)) }
    {
        match literal {
            Some(token) => Ok(Attribute::Named(self.value(token)?)),
            None => Ok(Attribute::Unknown),
        }
    }

    fn of_with_by(&self, label: Kind, parts: &Siblings<'_>) -> Result<Attribute, AllocError>
        requires { HasCut self.now }
        ensures { IfOk result (λ a. a ≡ with_by self.now.text.now self.now.tokens.now label (parts_in self.now parts.now)) }
    {
        match label {
            Kind::ObjectLiteral => self.of_with_props(&self.group(parts, 0)),
            _ => Ok(Attribute::Unknown),
        }
    }

    fn of_with_props(&self, props: &Siblings<'_>) -> Result<Attribute, AllocError>
        requires { HasCut self.now }
        ensures { IfOk result (λ a. a ≡ (if are_plain self.now.text.now self.now.tokens.now true (parts_in self.now props.now)
            then type_in self.now.text.now self.now.tokens.now (last_given self.now.text.now self.now.tokens.now (codes "type") None (parts_in self.now props.now))
            else Unknown)) }
    {
        if !self.are_plain(props) {
            return Ok(Attribute::Unknown);
        }
        let given = self.last_given("type", props)?;
        self.of_type(given)
    }

    #[tactic(auto, using(crate::proofs::Looks::with_node, crate::proofs::Looks::with_other))]
    fn of_with_value(&self, value: &Item<'_>) -> Result<Attribute, AllocError>
        requires { HasCut self.now }
        ensures { IfOk result (λ a. a ≡ with_in self.now.text.now self.now.tokens.now (Some (part_in self.now value.now))) }
    {
        match self.as_node(value) {
            Some((label, parts)) => self.of_with_by(label, &parts),
            None => Ok(Attribute::Unknown),
        }
    }

    /// The value of `with`, given by an object of plain properties.
    fn of_with(&self, given: Option<Option<Item<'_>>>) -> Result<Attribute, AllocError>
        requires { HasCut self.now }
        ensures { IfOk result (λ a. a ≡ with_in self.now.text.now self.now.tokens.now (option_map (there self.now) given.entry)) }
    {
        match given {
            Some(Some(value)) => self.of_with_value(&value),
            Some(None) => Ok(Attribute::Unknown),
            None => Ok(Attribute::Absent),
        }
    }

    fn of_options_props(&self, props: &Siblings<'_>) -> Result<Attribute, AllocError>
        requires { HasCut self.now }
        ensures { IfOk result (λ a. a ≡ (if are_plain self.now.text.now self.now.tokens.now true (parts_in self.now props.now)
            then with_in self.now.text.now self.now.tokens.now (last_given self.now.text.now self.now.tokens.now (codes "with") None (parts_in self.now props.now))
            else Unknown)) }
    {
        if !self.are_plain(props) {
            return Ok(Attribute::Unknown);
        }
        let given = self.last_given("with", props)?;
        self.of_with(given)
    }

    fn of_options_by(&self, label: Kind, parts: &Siblings<'_>) -> Result<Attribute, AllocError>
        requires { HasCut self.now }
        ensures { IfOk result (λ a. a ≡ options_by self.now.text.now self.now.tokens.now label (parts_in self.now parts.now)) }
    {
        match label {
            Kind::ObjectLiteral => self.of_options_props(&self.group(parts, 0)),
            _ => Ok(Attribute::Unknown),
        }
    }

    #[tactic(auto, using(crate::proofs::Looks::options_node, crate::proofs::Looks::options_other))]
    fn of_options(&self, options: &Item<'_>) -> Result<Attribute, AllocError>
        requires { HasCut self.now }
        ensures { IfOk result (λ a. a ≡ options_of self.now.text.now self.now.tokens.now (part_in self.now options.now)) }
    {
        match self.as_node(options) {
            Some((label, parts)) => self.of_options_by(label, &parts),
            None => Ok(Attribute::Unknown),
        }
    }

    /// The attribute of an `import()` with these arguments after the first, given by an object of plain properties.
    pub fn options(&self, args: &Siblings<'_>) -> Result<Attribute, AllocError>
        requires { HasCut self.now }
        ensures { IfOk result (λ a. a ≡ options_in self.now.text.now self.now.tokens.now (parts_in self.now args.now)) }
    {
        match self.split(args) {
            None => Ok(Attribute::Absent),
            Some((options, _)) => self.of_options(&options),
        }
    }
}
