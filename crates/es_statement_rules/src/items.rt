//! Programs and the items of modules.

ghost use Rattle.es_grammar.specs.Items.{default_expression, default_interface, other_default, export_names, export_default, export_item, item, shebang_in, module_, script};

use crate::modules::{Export, Import};
use crate::statements::Statement;
use es_grammar::{Context, NodeKind, Row};
use es_rules::{
    ByLookahead, Choose, Cursor, Done, Grammar, Greedy, LeafKind, Make, Many, OfRow, Opt, Pick,
    Punct, ReadsProduction, ReadsRhs, Rows, Tok,
};
use es_shared_rules::Ended;
use es_shared_rules::predicates::Lookahead::Is;
use es_shared_rules::predicates::{Kinds, Lookahead, Predicate};
use es_token::TokenKind;
use grammar_theory::{Lang, SyntaxError};

/// 'export' 'default' Assign END
#[derive(Clone, Copy)]
pub struct DefaultExpression(pub Context);

impl ReadsProduction<Row> for DefaultExpression {
    ghost rule = { λ s. default_expression s.0 };

    #[tactic(auto, unfolding(es_grammar::specs::Items::default_expression))]
    fn read<T: Rows<Row>>(
        &self,
        grammar: &Grammar<'_, T>,
        cursor: &mut Cursor,
    ) -> Result<usize, SyntaxError> {
        Make(
            NodeKind::ExportDefaultExpression,
            Punct(
                TokenKind::ExportWord,
                Punct(
                    TokenKind::DefaultWord,
                    OfRow(Row::AssignmentRow(self.0), Ended),
                ),
            ),
        )
        .read(grammar, cursor)
    }
}

/// 'export' 'default' Interface
#[derive(Clone, Copy)]
pub struct DefaultInterface(pub Context);

impl ReadsProduction<Row> for DefaultInterface {
    ghost rule = { λ s. default_interface s.0 };

    #[tactic(auto, unfolding(es_grammar::specs::Items::default_interface))]
    fn read<T: Rows<Row>>(
        &self,
        grammar: &Grammar<'_, T>,
        cursor: &mut Cursor,
    ) -> Result<usize, SyntaxError> {
        Make(
            NodeKind::ExportDefaultInterface,
            Punct(
                TokenKind::ExportWord,
                Punct(
                    TokenKind::DefaultWord,
                    OfRow(Row::DeclaredRow(self.0), Done),
                ),
            ),
        )
        .read(grammar, cursor)
    }
}

/// What is left of `export default`.
#[derive(Clone, Copy)]
pub struct OtherDefault(pub Lang, pub Context);

impl ReadsProduction<Row> for OtherDefault {
    ghost rule = { λ s. other_default s.0 s.1 };

    #[tactic(auto, unfolding(es_grammar::specs::Items::other_default))]
    fn read<T: Rows<Row>>(
        &self,
        grammar: &Grammar<'_, T>,
        cursor: &mut Cursor,
    ) -> Result<usize, SyntaxError> {
        if self.0.is_typed() {
            Pick(
                Predicate::OpensDefaultInterface,
                DefaultInterface(self.1),
                DefaultExpression(self.1),
            )
            .read(grammar, cursor)
        } else {
            DefaultExpression(self.1).read(grammar, cursor)
        }
    }
}

/// 'export' 'default' (Fn | Class | TS Interface | Assign END)
#[derive(Clone, Copy)]
pub struct ExportDefault(pub Lang, pub Context);

impl ReadsProduction<Row> for ExportDefault {
    ghost rule = { λ s. export_default s.0 s.1 };

    #[tactic(auto, unfolding(es_grammar::specs::Items::export_default))]
    fn read<T: Rows<Row>>(
        &self,
        grammar: &Grammar<'_, T>,
        cursor: &mut Cursor,
    ) -> Result<usize, SyntaxError> {
        Pick(
            Predicate::OpensDefaultFunction,
            Make(
                NodeKind::ExportDefaultFunction,
                Punct(
                    TokenKind::ExportWord,
                    Punct(
                        TokenKind::DefaultWord,
                        OfRow(Row::FunctionRow(false, self.1), Done),
                    ),
                ),
            ),
            Pick(
                Predicate::OpensAnyDefaultClass(self.0),
                Make(
                    NodeKind::ExportDefaultClass,
                    Punct(
                        TokenKind::ExportWord,
                        Punct(
                            TokenKind::DefaultWord,
                            OfRow(Row::ClassRow(false, self.1), Done),
                        ),
                    ),
                ),
                OtherDefault(self.0, self.1),
            ),
        )
        .read(grammar, cursor)
    }
}

/// Export of names; TS 'export' '=' Expr END
#[derive(Clone, Copy)]
pub struct ExportNames(pub Lang, pub Context);

impl ReadsProduction<Row> for ExportNames {
    ghost rule = { λ s. export_names s.0 s.1 };

    #[tactic(auto, unfolding(es_grammar::specs::Items::export_names))]
    fn read<T: Rows<Row>>(
        &self,
        grammar: &Grammar<'_, T>,
        cursor: &mut Cursor,
    ) -> Result<usize, SyntaxError> {
        if self.0.is_typed() {
            Pick(
                Predicate::OpensExportAssignment,
                Make(
                    NodeKind::ExportAssignment,
                    Punct(
                        TokenKind::ExportWord,
                        Punct(TokenKind::Equal, OfRow(Row::ExpressionRow(self.1), Ended)),
                    ),
                ),
                Export(self.0),
            )
            .read(grammar, cursor)
        } else {
            Export(self.0).read(grammar, cursor)
        }
    }
}

/// Export: 'export' Decl | 'export' 'default' .. | of names
#[derive(Clone, Copy)]
pub struct ExportItem(pub Lang, pub Context);

impl ReadsProduction<Row> for ExportItem {
    ghost rule = { λ s. export_item s.0 s.1 };

    #[tactic(auto, unfolding(es_grammar::specs::Items::export_item))]
    fn read<T: Rows<Row>>(
        &self,
        grammar: &Grammar<'_, T>,
        cursor: &mut Cursor,
    ) -> Result<usize, SyntaxError> {
        Pick(
            Predicate::OpensDefault,
            ExportDefault(self.0, self.1),
            Pick(
                Predicate::OpensAnyDeclaration(self.0),
                Make(
                    NodeKind::ExportDeclaration,
                    Punct(
                        TokenKind::ExportWord,
                        OfRow(Row::DeclarationRow(self.1), Done),
                    ),
                ),
                ExportNames(self.0, self.1),
            ),
        )
        .read(grammar, cursor)
    }
}

/// Item: Import | Export | Stmt
#[derive(Clone, Copy)]
pub struct Item(pub Lang, pub Context);

impl ReadsProduction<Row> for Item {
    ghost rule = { λ s. item s.0 s.1 };

    #[tactic(auto, unfolding(es_grammar::specs::Items::item))]
    fn read<T: Rows<Row>>(
        &self,
        grammar: &Grammar<'_, T>,
        cursor: &mut Cursor,
    ) -> Result<usize, SyntaxError> {
        Pick(
            Predicate::OpensImport,
            Import(self.0),
            Choose(
                Is(TokenKind::ExportWord),
                ExportItem(self.0, self.1),
                Statement(self.0, self.1),
            ),
        )
        .read(grammar, cursor)
    }
}

/// Shebang?, and what follows
#[derive(Clone, Copy)]
pub struct ShebangIn<N>(pub N);

impl<N: ReadsRhs<Row> + Copy> ReadsRhs<Row> for ShebangIn<N> {
    ghost form = { λ s. shebang_in (N.form s.0) };

    #[tactic(auto, unfolding(es_grammar::specs::Items::shebang_in))]
    fn read<T: Rows<Row>>(
        &self,
        grammar: &Grammar<'_, T>,
        cursor: &mut Cursor,
    ) -> Result<usize, SyntaxError> {
        Opt(
            Greedy(Is(TokenKind::Shebang)),
            Tok(LeafKind::Raw, Kinds::Only(TokenKind::Shebang), Done),
            self.0,
        )
        .read(grammar, cursor)
    }
}

/// Module: Shebang? Item*
#[derive(Clone, Copy)]
pub struct Module;

impl ReadsProduction<Row> for Module {
    ghost rule = { λ _. module_ };

    #[tactic(auto, unfolding(es_grammar::specs::Items::module_))]
    fn read<T: Rows<Row>>(
        &self,
        grammar: &Grammar<'_, T>,
        cursor: &mut Cursor,
    ) -> Result<usize, SyntaxError> {
        let in_module = Context {
            script: false,
            as_module: true,
            no_in: false,
            in_async: false,
            no_colon: false,
            in_constructor: false,
        };
        Make(
            NodeKind::Module,
            ShebangIn(Many(
                ByLookahead(Lookahead::Token),
                OfRow(Row::ItemRow(in_module), Done),
                Done,
            )),
        )
        .read(grammar, cursor)
    }
}

/// Script: Shebang? Stmt*
#[derive(Clone, Copy)]
pub struct Script;

impl ReadsProduction<Row> for Script {
    ghost rule = { λ _. script };

    #[tactic(auto, unfolding(es_grammar::specs::Items::script))]
    fn read<T: Rows<Row>>(
        &self,
        grammar: &Grammar<'_, T>,
        cursor: &mut Cursor,
    ) -> Result<usize, SyntaxError> {
        let in_script = Context {
            script: true,
            as_module: false,
            no_in: false,
            no_colon: false,
            in_constructor: false,
            in_async: false,
        };
        Make(
            NodeKind::Script,
            ShebangIn(Many(
                ByLookahead(Lookahead::Token),
                OfRow(Row::StatementRow(in_script), Done),
                Done,
            )),
        )
        .read(grammar, cursor)
    }
}
