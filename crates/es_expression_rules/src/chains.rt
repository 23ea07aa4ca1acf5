//! Chains: calls and members.

ghost use Rattle.grammar_theory.specs.declared.error.Lang.TheVariants as lang;
ghost use Rattle.es_expression_rules.specs.Bases.{new_base};
ghost use Rattle.es_grammar.specs.Expressions.{import_call, source_call, defer_call, import_meta, import_base, imported, base, arguments, plain_member_post, non_null_post, member_post, optional_post, typed_post, plain_post, post, chain, callee, import_arguments};

use crate::operand::Operand;
use crate::primary::Primary;
use es_grammar::{Context, NodeKind, Row};
use es_rules::{
    Alt, ByLookahead, ByPredicate, Choose, Cursor, Done, Grammar, Greedy, Holds, LeafKind, Make,
    MakeBy, Many, OfRow, Opt, Pick, Punct, ReadsProduction, ReadsRhs, Rows, Tok, When, Where,
};
use es_shared_rules::predicates::Lookahead::{Is, Other};
use es_shared_rules::predicates::{Kinds, Lookahead, Predicate};
use es_shared_rules::{NewArgumentsIn, TypeArguments, TypeArgumentsIn};
use es_token::TokenKind;
use grammar_theory::{Lang, SyntaxError};

/// '(' Assign (',' Assign)? ','? ')'
#[derive(Clone, Copy)]
pub struct ImportArguments(pub Context);

impl ReadsRhs<Row> for ImportArguments {
    ghost form = { λ s. import_arguments s.0 };

    #[tactic(auto, unfolding(es_grammar::specs::Expressions::import_arguments))]
    fn read<T: Rows<Row>>(
        &self,
        grammar: &Grammar<'_, T>,
        cursor: &mut Cursor,
    ) -> Result<usize, SyntaxError> {
        let outside = Context {
            no_in: false,
            no_colon: false,
            in_constructor: false,
            ..self.0
        };
        Punct(
            TokenKind::OpenParen,
            OfRow(
                Row::AssignmentRow(outside),
                Opt(
                    ByPredicate(Predicate::HasArgument),
                    Punct(TokenKind::Comma, OfRow(Row::AssignmentRow(outside), Done)),
                    Opt(
                        Greedy(Is(TokenKind::Comma)),
                        Punct(TokenKind::Comma, Done),
                        Punct(TokenKind::CloseParen, Done),
                    ),
                ),
            ),
        )
        .read(grammar, cursor)
    }
}

/// 'import' '(' Assign (',' Assign)? ','? ')'
#[derive(Clone, Copy)]
pub struct ImportCall(pub Context);

impl ReadsProduction<Row> for ImportCall {
    ghost rule = { λ s. import_call s.0 };

    #[tactic(auto, unfolding(es_grammar::specs::Expressions::import_call))]
    fn read<T: Rows<Row>>(
        &self,
        grammar: &Grammar<'_, T>,
        cursor: &mut Cursor,
    ) -> Result<usize, SyntaxError> {
        Make(
            NodeKind::ImportCall,
            Punct(TokenKind::ImportWord, ImportArguments(self.0)),
        )
        .read(grammar, cursor)
    }
}

/// 'import' '.' 'source' '(' Assign (',' Assign)? ','? ')'
#[derive(Clone, Copy)]
pub struct SourceCall(pub Context);

impl ReadsProduction<Row> for SourceCall {
    ghost rule = { λ s. source_call s.0 };

    #[tactic(auto, unfolding(es_grammar::specs::Expressions::source_call))]
    fn read<T: Rows<Row>>(
        &self,
        grammar: &Grammar<'_, T>,
        cursor: &mut Cursor,
    ) -> Result<usize, SyntaxError> {
        Make(
            NodeKind::SourceCall,
            Punct(
                TokenKind::ImportWord,
                Punct(
                    TokenKind::Dot,
                    Punct(TokenKind::SourceWord, ImportArguments(self.0)),
                ),
            ),
        )
        .read(grammar, cursor)
    }
}

/// 'import' '.' 'defer' '(' Assign (',' Assign)? ','? ')'
#[derive(Clone, Copy)]
pub struct DeferCall(pub Context);

impl ReadsProduction<Row> for DeferCall {
    ghost rule = { λ s. defer_call s.0 };

    #[tactic(auto, unfolding(es_grammar::specs::Expressions::defer_call))]
    fn read<T: Rows<Row>>(
        &self,
        grammar: &Grammar<'_, T>,
        cursor: &mut Cursor,
    ) -> Result<usize, SyntaxError> {
        Make(
            NodeKind::DeferCall,
            Punct(
                TokenKind::ImportWord,
                Punct(
                    TokenKind::Dot,
                    Punct(TokenKind::DeferWord, ImportArguments(self.0)),
                ),
            ),
        )
        .read(grammar, cursor)
    }
}

/// 'import' '.' 'meta', in modules.
#[derive(Clone, Copy)]
pub struct ImportMeta(pub Context);

impl ReadsProduction<Row> for ImportMeta {
    ghost rule = { λ s. import_meta s.0 };

    #[tactic(auto, unfolding(es_grammar::specs::Expressions::import_meta))]
    fn read<T: Rows<Row>>(
        &self,
        grammar: &Grammar<'_, T>,
        cursor: &mut Cursor,
    ) -> Result<usize, SyntaxError> {
        Make(
            NodeKind::ImportMeta,
            Where(
                Predicate::IsModule(self.0),
                Punct(
                    TokenKind::ImportWord,
                    Punct(TokenKind::Dot, Punct(TokenKind::MetaWord, Done)),
                ),
            ),
        )
        .read(grammar, cursor)
    }
}

/// 'import' '(' .. ')' | 'import' '.' ('source' | 'defer') '(' .. ')' | 'import' '.' 'meta'
#[derive(Clone, Copy)]
pub struct ImportBase(pub Context);

impl ReadsProduction<Row> for ImportBase {
    ghost rule = { λ s. import_base s.0 };

    #[tactic(auto, unfolding(es_grammar::specs::Expressions::import_base))]
    fn read<T: Rows<Row>>(
        &self,
        grammar: &Grammar<'_, T>,
        cursor: &mut Cursor,
    ) -> Result<usize, SyntaxError> {
        Pick(
            Predicate::OpensSourceCall,
            SourceCall(self.0),
            Pick(
                Predicate::OpensDeferCall,
                DeferCall(self.0),
                Pick(
                    Predicate::OpensProperty,
                    ImportMeta(self.0),
                    ImportCall(self.0),
                ),
            ),
        )
        .read(grammar, cursor)
    }
}

/// 'import' '.' 'meta', and where it may be called (true) import calls.
#[derive(Clone, Copy)]
pub struct Imported(pub bool, pub Context);

impl ReadsProduction<Row> for Imported {
    ghost rule = { λ s. imported s.0 s.1 };

    #[tactic(auto, unfolding(es_grammar::specs::Expressions::imported))]
    fn read<T: Rows<Row>>(
        &self,
        grammar: &Grammar<'_, T>,
        cursor: &mut Cursor,
    ) -> Result<usize, SyntaxError> {
        if self.0 {
            ImportBase(self.1).read(grammar, cursor)
        } else {
            ImportMeta(self.1).read(grammar, cursor)
        }
    }
}

/// 'new' '.' 'target' | 'new' Chain1 (TS TArgs)? Args?
#[derive(Clone, Copy)]
struct NewBase(Lang, Context);

impl ReadsProduction<Row> for NewBase {
    ghost rule = { λ s. new_base s.0 s.1 };

    fn read<T: Rows<Row>>(
        &self,
        grammar: &Grammar<'_, T>,
        cursor: &mut Cursor,
    ) -> Result<usize, SyntaxError> {
        Pick(
            Predicate::OpensProperty,
            Make(
                NodeKind::NewTarget,
                Punct(
                    TokenKind::NewWord,
                    Punct(TokenKind::Dot, Punct(TokenKind::TargetWord, Done)),
                ),
            ),
            MakeBy(
                self.0,
                NodeKind::New,
                NodeKind::TypedNew,
                Punct(
                    TokenKind::NewWord,
                    OfRow(
                        Row::CalleeRow(self.1),
                        NewArgumentsIn(
                            self.0,
                            Opt(
                                Greedy(Is(TokenKind::OpenParen)),
                                OfRow(Row::ArgumentsRow(self.1), Done),
                                Done,
                            ),
                        ),
                    ),
                ),
            ),
        )
        .read(grammar, cursor)
    }
}

/// Base: Prim | 'super' | 'import' .. | 'new' .., without the parts after it; after `new` (false) without the import call.
#[derive(Clone, Copy)]
pub struct Base(pub Lang, pub bool, pub Context);

impl ReadsProduction<Row> for Base {
    ghost rule = { λ s. base s.0 s.1 s.2 };

    #[tactic(auto, unfolding(es_grammar::specs::Expressions::base))]
    fn read<T: Rows<Row>>(
        &self,
        grammar: &Grammar<'_, T>,
        cursor: &mut Cursor,
    ) -> Result<usize, SyntaxError> {
        let tokens = grammar.input.tokens;
        if tokens.sees(TokenKind::SuperWord, cursor.at) {
            return Make(
                NodeKind::Super,
                Tok(
                    LeafKind::There,
                    Kinds::Only(TokenKind::SuperWord),
                    When(Lookahead::FollowsSuper, Done),
                ),
            )
            .read(grammar, cursor);
        }
        if tokens.sees(TokenKind::ImportWord, cursor.at) {
            return Imported(self.1, self.2).read(grammar, cursor);
        }
        if tokens.sees(TokenKind::NewWord, cursor.at) {
            return NewBase(self.0, self.2).read(grammar, cursor);
        }
        Primary(self.0, self.2).read(grammar, cursor)
    }
}

/// Args: '(' ('...'? Assign)% ')'
#[derive(Clone, Copy)]
pub struct Arguments(pub Context);

impl ReadsProduction<Row> for Arguments {
    ghost rule = { λ s. arguments s.0 };

    #[tactic(auto, unfolding(es_grammar::specs::Expressions::arguments))]
    fn read<T: Rows<Row>>(
        &self,
        grammar: &Grammar<'_, T>,
        cursor: &mut Cursor,
    ) -> Result<usize, SyntaxError> {
        let outside = Context {
            no_in: false,
            no_colon: false,
            in_constructor: false,
            ..self.0
        };
        Make(
            NodeKind::Arguments,
            Punct(
                TokenKind::OpenParen,
                Many(
                    ByLookahead(Other(TokenKind::CloseParen)),
                    Opt(
                        Greedy(Is(TokenKind::Ellipsis)),
                        Tok(LeafKind::There, Kinds::Only(TokenKind::Ellipsis), Done),
                        OfRow(
                            Row::AssignmentRow(outside),
                            Opt(
                                Greedy(Other(TokenKind::CloseParen)),
                                Punct(TokenKind::Comma, Done),
                                Done,
                            ),
                        ),
                    ),
                    Punct(TokenKind::CloseParen, Done),
                ),
            ),
        )
        .read(grammar, cursor)
    }
}

/// TS ~ '!'
#[derive(Clone, Copy)]
pub struct NonNullPost;

impl ReadsProduction<Row> for NonNullPost {
    ghost rule = { λ s. non_null_post };

    #[tactic(auto, unfolding(es_grammar::specs::Expressions::non_null_post))]
    fn read<T: Rows<Row>>(
        &self,
        grammar: &Grammar<'_, T>,
        cursor: &mut Cursor,
    ) -> Result<usize, SyntaxError> {
        Make(
            NodeKind::NonNullPost,
            When(Lookahead::Near, Punct(TokenKind::Exclamation, Done)),
        )
        .read(grammar, cursor)
    }
}

/// '.' (Name | PrivateName) | '[' Expr ']' | Tpl, in TypeScript also ~ '!'
#[derive(Clone, Copy)]
pub struct MemberPost(pub Lang, pub Context);

impl ReadsProduction<Row> for MemberPost {
    ghost rule = { λ s. member_post s.0 s.1 };

    #[tactic(auto, unfolding(es_grammar::specs::Expressions::member_post))]
    fn read<T: Rows<Row>>(
        &self,
        grammar: &Grammar<'_, T>,
        cursor: &mut Cursor,
    ) -> Result<usize, SyntaxError> {
        if self.0.is_typed() {
            Choose(
                Is(TokenKind::Exclamation),
                NonNullPost,
                PlainMemberPost(self.1),
            )
            .read(grammar, cursor)
        } else {
            PlainMemberPost(self.1).read(grammar, cursor)
        }
    }
}

/// '.' (Name | PrivateName) | '[' Expr ']' | Tpl
#[derive(Clone, Copy)]
pub struct PlainMemberPost(pub Context);

impl ReadsProduction<Row> for PlainMemberPost {
    ghost rule = { λ s. plain_member_post s.0 };

    #[tactic(auto, unfolding(es_grammar::specs::Expressions::plain_member_post))]
    fn read<T: Rows<Row>>(
        &self,
        grammar: &Grammar<'_, T>,
        cursor: &mut Cursor,
    ) -> Result<usize, SyntaxError> {
        let outside = Context {
            no_in: false,
            no_colon: false,
            in_constructor: false,
            ..self.0
        };
        let tokens = grammar.input.tokens;
        if tokens.sees(TokenKind::Dot, cursor.at) {
            return Make(
                NodeKind::MemberPost,
                Punct(
                    TokenKind::Dot,
                    Tok(LeafKind::Name, Kinds::PropertyName, Done),
                ),
            )
            .read(grammar, cursor);
        }
        if tokens.sees(TokenKind::OpenBracket, cursor.at) {
            return Make(
                NodeKind::IndexPost,
                Punct(
                    TokenKind::OpenBracket,
                    OfRow(
                        Row::ExpressionRow(outside),
                        Punct(TokenKind::CloseBracket, Done),
                    ),
                ),
            )
            .read(grammar, cursor);
        }
        Make(
            NodeKind::TemplatePost,
            OfRow(Row::TemplateRow(self.0), Done),
        )
        .read(grammar, cursor)
    }
}

/// '?.' (Name | PrivateName | '[' Expr ']' | Args)
#[derive(Clone, Copy)]
pub struct OptionalPost(pub Lang, pub Context);

impl ReadsProduction<Row> for OptionalPost {
    ghost rule = { λ s. optional_post s.0 s.1 };

    #[tactic(auto, unfolding(es_grammar::specs::Expressions::optional_post))]
    fn read<T: Rows<Row>>(
        &self,
        grammar: &Grammar<'_, T>,
        cursor: &mut Cursor,
    ) -> Result<usize, SyntaxError> {
        let outside = Context {
            no_in: false,
            no_colon: false,
            in_constructor: false,
            ..self.1
        };
        MakeBy(
            self.0,
            NodeKind::OptionalPost,
            NodeKind::TypedOptionalPost,
            Punct(
                TokenKind::QuestionDot,
                Alt(
                    Is(TokenKind::OpenBracket),
                    Punct(
                        TokenKind::OpenBracket,
                        OfRow(
                            Row::ExpressionRow(outside),
                            Punct(TokenKind::CloseBracket, Done),
                        ),
                    ),
                    Alt(
                        Lookahead::BeginsArguments(self.0),
                        TypeArgumentsIn(self.0, OfRow(Row::ArgumentsRow(self.1), Done)),
                        Tok(LeafKind::Name, Kinds::PropertyName, Done),
                        Done,
                    ),
                    Done,
                ),
            ),
        )
        .read(grammar, cursor)
    }
}

/// Post: Args | '?.' .. | a member
#[derive(Clone, Copy)]
pub struct Post(pub Lang, pub Context);

impl ReadsProduction<Row> for Post {
    ghost rule = { λ s. post s.0 s.1 };

    #[tactic(auto, unfolding(es_grammar::specs::Expressions::post))]
    fn read<T: Rows<Row>>(
        &self,
        grammar: &Grammar<'_, T>,
        cursor: &mut Cursor,
    ) -> Result<usize, SyntaxError> {
        if self.0.is_typed() {
            TypedPost(self.0, self.1).read(grammar, cursor)
        } else {
            PlainPost(self.0, self.1).read(grammar, cursor)
        }
    }
}

/// Args | '?.' .. | a member
#[derive(Clone, Copy)]
struct PlainPost(Lang, Context);

impl ReadsProduction<Row> for PlainPost {
    ghost rule = { λ s. plain_post s.0 s.1 };

    fn read<T: Rows<Row>>(
        &self,
        grammar: &Grammar<'_, T>,
        cursor: &mut Cursor,
    ) -> Result<usize, SyntaxError> {
        let tokens = grammar.input.tokens;
        if tokens.sees(TokenKind::OpenParen, cursor.at) {
            return Make(NodeKind::CallPost, OfRow(Row::ArgumentsRow(self.1), Done)).read(
                grammar, cursor,
            );
        }
        if tokens.sees(TokenKind::QuestionDot, cursor.at) {
            return OptionalPost(self.0, self.1).read(grammar, cursor);
        }
        MemberPost(self.0, self.1).read(grammar, cursor)
    }
}

/// The same of TypeScript: TArgs? Args | TArgs? Tpl | ..
#[derive(Clone, Copy)]
struct TypedPost(Lang, Context);

impl ReadsProduction<Row> for TypedPost {
    ghost rule = { λ s. typed_post s.0 s.1 };

    fn read<T: Rows<Row>>(
        &self,
        grammar: &Grammar<'_, T>,
        cursor: &mut Cursor,
    ) -> Result<usize, SyntaxError> {
        let lang = self.0;
        if Predicate::OpensCall.holds(&grammar.input, cursor.at) {
            return Make(
                NodeKind::TypedCallPost,
                TypeArguments(OfRow(Row::ArgumentsRow(self.1), Done)),
            )
            .read(grammar, cursor);
        }
        if Predicate::OpensTypedTemplate.holds(&grammar.input, cursor.at) {
            return Make(
                NodeKind::TypedTemplatePost,
                TypeArguments(OfRow(Row::TemplateRow(self.1), Done)),
            )
            .read(grammar, cursor);
        }
        if grammar.input.tokens.sees(TokenKind::QuestionDot, cursor.at) {
            return OptionalPost(lang, self.1).read(grammar, cursor);
        }
        MemberPost(lang, self.1).read(grammar, cursor)
    }
}

/// Chain: Base Post*
#[derive(Clone, Copy)]
pub struct Chain(pub Lang, pub Context);

impl ReadsProduction<Row> for Chain {
    ghost rule = { λ s. chain s.0 s.1 };

    #[inline(always)]
    #[tactic(auto, unfolding(es_grammar::specs::Expressions::chain))]
    fn read<T: Rows<Row>>(
        &self,
        grammar: &Grammar<'_, T>,
        cursor: &mut Cursor,
    ) -> Result<usize, SyntaxError> {
        if self.0.is_typed() {
            let told = ByPredicate(Predicate::OpensPost);
            Operand(
                NodeKind::Chain,
                Base(self.0, true, self.1),
                told,
                OfRow(
                    Row::PostRow(self.1),
                    Many(told, OfRow(Row::PostRow(self.1), Done), Done),
                ),
            )
            .read(grammar, cursor)
        } else {
            let told = Greedy(Lookahead::BeginsPost);
            Operand(
                NodeKind::Chain,
                Base(self.0, true, self.1),
                told,
                OfRow(
                    Row::PostRow(self.1),
                    Many(told, OfRow(Row::PostRow(self.1), Done), Done),
                ),
            )
            .read(grammar, cursor)
        }
    }
}

/// Chain1: a Chain with no Args and no '?.'.
#[derive(Clone, Copy)]
pub struct Callee(pub Lang, pub Context);

impl ReadsProduction<Row> for Callee {
    ghost rule = { λ s. callee s.0 s.1 };

    #[tactic(auto, unfolding(es_grammar::specs::Expressions::callee))]
    fn read<T: Rows<Row>>(
        &self,
        grammar: &Grammar<'_, T>,
        cursor: &mut Cursor,
    ) -> Result<usize, SyntaxError> {
        Operand(
            NodeKind::Chain,
            Base(self.0, false, self.1),
            Greedy(Lookahead::BeginsCalleePost(self.0)),
            OfRow(
                Row::MemberPostRow(self.1),
                Many(
                    Greedy(Lookahead::BeginsCalleePost(self.0)),
                    OfRow(Row::MemberPostRow(self.1), Done),
                    Done,
                ),
            ),
        )
        .read(grammar, cursor)
    }
}
