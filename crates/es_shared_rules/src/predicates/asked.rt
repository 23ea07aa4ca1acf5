//! What a test or predicate that is named by a value says at a place.

ghost use Rattle.std.specs.Prelude.{◌≡◌};
ghost use Rattle.grammar_theory.specs.Key.{keys_of, seen};
ghost use Rattle.es_shared_rules.specs.predicates.Named.{kinds_of, lookahead_of, predicate_of};

use crate::predicates::arguments::{
    opens_call, opens_call_arguments, opens_heritage_arguments, opens_new_arguments,
};
use crate::predicates::named::{Kinds, Lookahead, Modifiers, Predicate};
use crate::predicates::{arrows, classes, declarations, expressions, looks};
use es_lookahead::Tokens;
use es_rules::{Holds, Input, IsOfKinds, Sees};
use es_token::TokenKind;
use std::alloc::Global;

impl IsOfKinds for Kinds {
    ghost kinds = { λ s. kinds_of s };

    #[inline(always)]
    fn is_there(&self, tokens: &Tokens<'_>, at: usize) -> bool {
        looks::has(*self, tokens.seen(at))
    }
}

/// The most asked tests come first.
impl Sees for Lookahead {
    ghost look = { λ s. lookahead_of s };

    #[inline(always)]
    fn sees(&self, tokens: &Tokens<'_>, at: usize) -> bool {
        match *self {
            Lookahead::Is(kind) => tokens.sees(kind, at),
            Lookahead::Has(named) => named.is_there(tokens, at),
            other => sees_other(tokens, other, at),
        }
    }
}

impl Holds for Predicate {
    ghost predicate = { λ s. predicate_of s };

    #[inline(always)]
    fn holds(&self, input: &Input<'_>, at: usize) -> bool {
        holds(&input.tokens, input.alloc, *self, at)
    }
}

/// Whether the test holds at this place.
#[inline(always)]
fn sees_other(tokens: &Tokens<'_>, lookahead: Lookahead, at: usize) -> bool
    ensures { result ≡ lookahead_of lookahead (seen (keys_of tokens.now.tokens.now) at) }
{
    match lookahead {
        Lookahead::Is(kind) => tokens.sees(kind, at),
        Lookahead::Other(kind) => tokens.is_other(kind, at),
        Lookahead::Has(named) => named.is_there(tokens, at),
        Lookahead::Near => tokens.is_near(at),
        Lookahead::Token => tokens.is_token(at),
        Lookahead::MayEnd => tokens.may_end(at),
        Lookahead::NoArrow => tokens.no_arrow(at),
        Lookahead::FollowsSuper => tokens.follows_super(at),
        Lookahead::BeginsMember => tokens.begins_member(at),
        Lookahead::BeginsPost => tokens.begins_post(at),
        Lookahead::UpdateHere => tokens.is_update_here(at),
        Lookahead::NoUpdateHere => tokens.no_update_here(at),
        Lookahead::NoMix => tokens.no_mix(at),
        Lookahead::Parameter => tokens.is_parameter(at),
        Lookahead::LabelHere => tokens.is_label_here(at),
        Lookahead::Case => tokens.is_case(at),
        Lookahead::InCase => tokens.is_in_case(at),
        Lookahead::BeginsNoOther => tokens.begins_no_other(at),
        Lookahead::BeginsParameters(lang) => expressions::begins_parameters(tokens, lang, at),
        Lookahead::BeginsArguments(lang) => expressions::begins_arguments(tokens, lang, at),
        Lookahead::BeginsCalleePost(lang) => expressions::begins_callee_post(tokens, lang, at),
        Lookahead::ValueHere(lang) => expressions::begins_value_here(tokens, lang, at),
        Lookahead::Operand(lang) => expressions::opens_operand(tokens, lang, at),
        Lookahead::Assertion => looks::opens_assertion(tokens.seen(at)),
        Lookahead::NonNull => looks::opens_non_null(tokens.seen(at)),
        Lookahead::BeginsAngle => expressions::begins_angle(tokens, at),
    }
}

/// Whether the predicate holds at this place.
#[tactic(auto, unfolding(es_grammar::specs::Expressions::opens_typed_template, es_grammar::specs::Expressions::no_assignment, es_grammar::specs::Expressions::may_await, es_grammar::specs::Expressions::may_test, es_grammar::specs::Expressions::is_module, es_grammar::specs::Statements::is_script))]
#[inline(always)]
pub fn holds(tokens: &Tokens<'_>, alloc: Global, predicate: Predicate, at: usize) -> bool
    ensures { result ≡ predicate_of predicate (keys_of tokens.now.tokens.now) at }
{
    match predicate {
        Predicate::OpensParameterModifier(context) => classes::opens_parameter_modifier(
            tokens, context, at,
        ),
        Predicate::ParameterModifiersOnce(context) => classes::each_once(
            tokens,
            Modifiers::OfParameter(context),
            at,
        ),
        Predicate::OpensMarked => classes::opens_marked(tokens, at),
        Predicate::OpensAnyMethod(lang) => classes::opens_any_method(tokens, lang, at),
        Predicate::OpensModifier => classes::opens_modifier(tokens, at),
        Predicate::ModifiersOnce => classes::each_once(tokens, Modifiers::OfMember, at),
        Predicate::IsMemberKey => classes::is_member_key(tokens, at),
        Predicate::BehindAllIndex => classes::behind_all_index(tokens, at),
        Predicate::BehindAllAccessor => classes::behind_all_accessor(tokens, at),
        Predicate::BehindAllAsync => classes::behind_all_async(tokens, at),
        Predicate::BehindAllStar => classes::behind_all_star(tokens, at),
        Predicate::BehindAllFieldAccessor => classes::behind_all_field_accessor(tokens, at),
        Predicate::BehindAllMethod => classes::behind_all_method(tokens, at),
        Predicate::OpensDeclarator => classes::opens_declarator(tokens, at),
        Predicate::OpensInitial => expressions::opens_initial(tokens, at),
        Predicate::OpensInterface => declarations::opens_interface(tokens, at),
        Predicate::OpensAlias => declarations::opens_alias(tokens, at),
        Predicate::OpensEnum => declarations::opens_enum(tokens, at),
        Predicate::OpensNamespaceDeclaration => declarations::opens_namespace(tokens, at),
        Predicate::OpensModule => declarations::opens_module(tokens, at),
        Predicate::OpensGlobal => declarations::opens_global(tokens, at),
        Predicate::OpensDeclare => declarations::opens_declare(tokens, at),
        Predicate::DeclaresVariables => declarations::declares_variables(tokens, at),
        Predicate::OpensAnyDefaultClass(lang) => declarations::opens_any_default_class(
            tokens, lang, at,
        ),
        Predicate::OpensDefaultInterface => declarations::opens_default_interface(tokens, at),
        Predicate::OpensAnyDeclaration(lang) => declarations::opens_any_declaration(
            tokens, lang, at,
        ),
        Predicate::OpensExportAssignment => declarations::opens_export_assignment(tokens, at),
        Predicate::OpensTypeImport(lang) => tokens.opens_type_import(lang, at),
        Predicate::OpensTypeName(lang) => tokens.opens_type_name(lang, at),
        Predicate::IsRenamed(lang) => tokens.is_renamed(lang, at),
        Predicate::IsNoTypeAsAs => tokens.is_no_type_as_as(at),
        Predicate::HasComma => tokens.has_comma(at),
        Predicate::OpensEquals(lang) => tokens.opens_equals(lang, at),
        Predicate::OpensRequire(lang) => tokens.opens_require(lang, at),
        Predicate::OpensBare => tokens.opens_bare(at),
        Predicate::OpensSourceImport => tokens.opens_source_import(at),
        Predicate::OpensDeferImport => tokens.opens_defer_import(at),
        Predicate::OpensTypeExport(lang) => tokens.opens_type_export(lang, at),
        Predicate::OpensAll(lang) => tokens.opens_all(lang, at),
        Predicate::OpensExportedEquals(lang) => tokens.opens_exported_equals(lang, at),
        Predicate::OpensExportedRequire(lang) => tokens.opens_exported_require(lang, at),
        Predicate::OpensNamespace(lang) => tokens.opens_namespace(lang, at),
        Predicate::OpensImport => tokens.opens_import(at),
        Predicate::OpensDefault => tokens.opens_default(at),
        Predicate::OpensDefaultFunction => tokens.opens_default_function(at),
        Predicate::OpensDefaultClass => tokens.opens_default_class(at),
        Predicate::OpensDeclaration => tokens.opens_declaration(at),
        Predicate::OpensUsing => tokens.opens_using(at),
        Predicate::OpensFor => tokens.opens_for(at),
        Predicate::OpensForAwait => tokens.opens_for_await(at),
        Predicate::OpensHeadPattern => tokens.opens_head_pattern(at),
        Predicate::StartsUsing => tokens.starts_using(at),
        Predicate::StartsExpression => tokens.starts_expression(at),
        Predicate::OpensLabel => tokens.opens_label(at),
        Predicate::OpensInnerPattern => tokens.opens_inner_pattern(at),
        Predicate::OpensValue => tokens.opens_value(at),
        Predicate::IsPlainKey => tokens.is_plain_key(at),
        Predicate::OpensMethod => tokens.opens_method(at),
        Predicate::OpensAccessor(private) => tokens.opens_accessor(private, at),
        Predicate::OpensAsync(private) => tokens.opens_async(private, at),
        Predicate::OpensStatic => tokens.opens_static(at),
        Predicate::IsPlainMember => tokens.is_plain_member(at),
        Predicate::OpensStaticBlock => tokens.opens_static_block(at),
        Predicate::BehindStaticAccessor => tokens.behind_static_accessor(at),
        Predicate::BehindStaticAsync => tokens.behind_static_async(at),
        Predicate::BehindStaticStar => tokens.behind_static_star(at),
        Predicate::BehindStaticFieldAccessor => tokens.behind_static_field_accessor(at),
        Predicate::BehindStaticMethod => tokens.behind_static_method(at),
        Predicate::OpensAsyncParenthesis => tokens.opens_async_parenthesis(at),
        Predicate::IsNoArrowHead => tokens.is_no_arrow_head(at),
        Predicate::OpensAsyncFunction => tokens.opens_async_function(at),
        Predicate::OpensProperty => tokens.opens_property(at),
        Predicate::HasArgument => tokens.has_argument(at),
        Predicate::OpensSourceCall => tokens.opens_source_call(at),
        Predicate::OpensDeferCall => tokens.opens_defer_call(at),
        Predicate::OpensShift => tokens.opens_shift(at),
        Predicate::OpensArrow => tokens.opens_arrow(at),
        Predicate::OpensAsyncArrow => tokens.opens_async_arrow(at),
        Predicate::OpensPattern => tokens.opens_pattern(at),
        Predicate::OpensAssignment => tokens.opens_assignment(at),
        Predicate::NoAssignment => !tokens.opens_assignment(at),
        Predicate::Joins(kind) => tokens.joins(kind, at),
        Predicate::OpensAnyArrow(lang, context) => arrows::opens_any_arrow(
            tokens, alloc, lang, context, at,
        ),
        Predicate::OpensAsyncHere(lang, context) => arrows::opens_async_here(
            tokens, alloc, lang, context, at,
        ),
        Predicate::OpensAsyncList(lang) => arrows::opens_async_list(tokens, lang, at),
        Predicate::OpensArrowResult(context) => arrows::opens_arrow_result(tokens, context, at),
        Predicate::OpensNoArrow(lang, context) => arrows::opens_no_arrow(tokens, lang, context, at),
        Predicate::OpensCallArguments => opens_call_arguments(tokens, alloc, at),
        Predicate::OpensNewArguments => opens_new_arguments(tokens, alloc, at),
        Predicate::OpensHeritageArguments => opens_heritage_arguments(tokens, alloc, at),
        Predicate::OpensPost => expressions::opens_post(tokens, alloc, at),
        Predicate::OpensCall => opens_call(tokens, alloc, at),
        Predicate::OpensTypedTemplate => expressions::begins_angle(tokens, at),
        Predicate::OpensShiftIn(lang) => expressions::opens_shift_in(tokens, alloc, lang, at),
        Predicate::OpensComparison(lang, context) => expressions::opens_comparison(
            tokens, alloc, lang, context, at,
        ),
        Predicate::IsBehindAs => expressions::is_behind_as(tokens, at),
        Predicate::ComesBehind(kinds) => expressions::comes_behind(tokens, kinds, at),
        Predicate::OpensClassName => expressions::opens_class_name(tokens, at),
        Predicate::OpensAbstractClass => expressions::opens_abstract_class(tokens, at),
        Predicate::MayAwait(context) => context.as_module || context.in_async,
        Predicate::MayTest(context) => !context.no_in,
        Predicate::IsModule(context) => context.as_module,
        Predicate::IsScript(context) => context.script,
    }
}
