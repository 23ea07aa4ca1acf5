//! What a test or predicate that is named by a value says at a place.

ghost use Rattle.std.specs.Prelude.{◌≡◌};
ghost use Rattle.grammar_theory.specs.Key.{keys_of, seen, has_kind};
ghost use Rattle.es_lookahead.specs.Named.{kinds_of, lookahead_of, predicate_of};

use crate::kinds;
use crate::named::{Kinds, Lookahead, Predicate};
use crate::tokens::Tokens;
use es_token::TokenKind;

/// The kind is one of these.
pub fn is_of(named: Kinds, kind: TokenKind) -> bool
    ensures { result ≡ kinds_of named kind }
{
    match named {
        Kinds::Only(other) => kind == other,
        Kinds::Name => kinds::is_name(kind),
        Kinds::Word => kinds::is_word(kind),
        Kinds::NameOrThis => kinds::is_name_or_this(kind),
        Kinds::Numeric => kinds::is_numeric(kind),
        Kinds::AccessorWord => kinds::is_accessor_word(kind),
        Kinds::Prefix => kinds::is_prefix(kind),
        Kinds::Update => kinds::is_update(kind),
        Kinds::Product => kinds::is_product(kind),
        Kinds::Sum => kinds::is_sum(kind),
        Kinds::Equality => kinds::is_equality(kind),
        Kinds::Relation => kinds::is_relation(kind),
        Kinds::Assignment => kinds::is_assignment(kind),
        Kinds::PropertyName => kinds::is_property_name(kind),
        Kinds::LiteralWord => kinds::is_literal_word(kind),
        Kinds::VariableWord => kinds::is_variable_word(kind),
    }
}

impl Tokens<'_> {
    /// Whether the token at this place is of one of these kinds.
    pub fn is_kind(&self, named: Kinds, at: usize) -> bool
        ensures { result ≡ has_kind (kinds_of named) (seen (keys_of self.now.tokens.now) at) }
    {
        match self.token(at) {
            Some(token) => is_of(named, token.kind()),
            None => false,
        }
    }

    /// Whether the test holds at this place.
    pub fn sees_ahead(&self, lookahead: Lookahead, at: usize) -> bool
        ensures { result ≡ lookahead_of lookahead (seen (keys_of self.now.tokens.now) at) }
    {
        match lookahead {
            Lookahead::Is(kind) => self.sees(kind, at),
            Lookahead::Other(kind) => self.is_other(kind, at),
            Lookahead::Has(named) => self.is_kind(named, at),
            Lookahead::Near => self.is_near(at),
            Lookahead::Token => self.is_token(at),
            Lookahead::MayEnd => self.may_end(at),
            Lookahead::NoArrow => self.no_arrow(at),
            Lookahead::FollowsSuper => self.follows_super(at),
            Lookahead::BeginsMember => self.begins_member(at),
            Lookahead::BeginsPost => self.begins_post(at),
            Lookahead::UpdateHere => self.is_update_here(at),
            Lookahead::NoUpdateHere => self.no_update_here(at),
            Lookahead::NoMix => self.no_mix(at),
            Lookahead::Operand => self.is_operand(at),
            Lookahead::Parameter => self.is_parameter(at),
            Lookahead::LabelHere => self.is_label_here(at),
            Lookahead::ValueHere => self.is_value_here(at),
            Lookahead::Case => self.is_case(at),
            Lookahead::InCase => self.is_in_case(at),
            Lookahead::BeginsNoOther => self.begins_no_other(at),
        }
    }

    /// Whether the predicate holds at this place.
    pub fn holds(&self, predicate: Predicate, at: usize) -> bool
        ensures { result ≡ predicate_of predicate (keys_of self.now.tokens.now) at }
    {
        match predicate {
            Predicate::OpensTypeImport(lang) => self.opens_type_import(lang, at),
            Predicate::OpensTypeName(lang) => self.opens_type_name(lang, at),
            Predicate::IsRenamed(lang) => self.is_renamed(lang, at),
            Predicate::IsNoTypeAsAs => self.is_no_type_as_as(at),
            Predicate::HasComma => self.has_comma(at),
            Predicate::OpensEquals(lang) => self.opens_equals(lang, at),
            Predicate::OpensRequire(lang) => self.opens_require(lang, at),
            Predicate::OpensBare => self.opens_bare(at),
            Predicate::OpensSourceImport => self.opens_source_import(at),
            Predicate::OpensDeferImport => self.opens_defer_import(at),
            Predicate::OpensTypeExport(lang) => self.opens_type_export(lang, at),
            Predicate::OpensAll(lang) => self.opens_all(lang, at),
            Predicate::OpensExportedEquals(lang) => self.opens_exported_equals(lang, at),
            Predicate::OpensExportedRequire(lang) => self.opens_exported_require(lang, at),
            Predicate::OpensNamespace(lang) => self.opens_namespace(lang, at),
            Predicate::OpensImport => self.opens_import(at),
            Predicate::OpensDefault => self.opens_default(at),
            Predicate::OpensDefaultFunction => self.opens_default_function(at),
            Predicate::OpensDefaultClass => self.opens_default_class(at),
            Predicate::OpensDeclaration => self.opens_declaration(at),
            Predicate::OpensUsing => self.opens_using(at),
            Predicate::OpensFor => self.opens_for(at),
            Predicate::OpensForAwait => self.opens_for_await(at),
            Predicate::OpensHeadPattern => self.opens_head_pattern(at),
            Predicate::StartsUsing => self.starts_using(at),
            Predicate::StartsExpression => self.starts_expression(at),
            Predicate::OpensLabel => self.opens_label(at),
            Predicate::IsScript(context) => self.is_script(context, at),
            Predicate::OpensInnerPattern => self.opens_inner_pattern(at),
            Predicate::OpensValue => self.opens_value(at),
            Predicate::IsPlainKey => self.is_plain_key(at),
            Predicate::OpensMethod => self.opens_method(at),
            Predicate::OpensAccessor(private) => self.opens_accessor(private, at),
            Predicate::OpensAsync(private) => self.opens_async(private, at),
            Predicate::OpensStatic => self.opens_static(at),
            Predicate::IsPlainMember => self.is_plain_member(at),
            Predicate::OpensStaticBlock => self.opens_static_block(at),
            Predicate::BehindStaticAccessor => self.behind_static_accessor(at),
            Predicate::BehindStaticAsync => self.behind_static_async(at),
            Predicate::BehindStaticStar => self.behind_static_star(at),
            Predicate::BehindStaticFieldAccessor => self.behind_static_field_accessor(at),
            Predicate::BehindStaticMethod => self.behind_static_method(at),
            Predicate::OpensAsyncParenthesis => self.opens_async_parenthesis(at),
            Predicate::IsNoArrowHead => self.is_no_arrow_head(at),
            Predicate::OpensAsyncFunction => self.opens_async_function(at),
            Predicate::OpensProperty => self.opens_property(at),
            Predicate::HasArgument => self.has_argument(at),
            Predicate::OpensSourceCall => self.opens_source_call(at),
            Predicate::OpensDeferCall => self.opens_defer_call(at),
            Predicate::OpensShift => self.opens_shift(at),
            Predicate::OpensArrow => self.opens_arrow(at),
            Predicate::OpensAsyncArrow => self.opens_async_arrow(at),
            Predicate::OpensPattern => self.opens_pattern(at),
            Predicate::OpensAssignment => self.opens_assignment(at),
            Predicate::IsModule(context) => self.is_module(context, at),
            Predicate::MayAwait(context) => self.may_await(context, at),
            Predicate::MayTest(context) => self.may_test(context, at),
            Predicate::OpensRelation(context) => self.opens_relation(context, at),
            Predicate::Joins(kind) => self.joins(kind, at),
        }
    }
}
