//! Statements other than loops, `switch`, `try` and declarations.

ghost use Rattle.std.specs.Prelude.{◌≡◌, ℕ, List, IfSome, IfNone, option_map};
ghost use Rattle.base.specs.declared.range.Range.{Range};
ghost use Rattle.es_token.specs.declared.token.Token.{Token as Tok};
ghost use Rattle.es_lowering.specs.Statements.{block, expression_statement, labelled, if_, continue_, break_, return_, throw_, with_};
ghost use Rattle.es_ast.specs.declared.ast.Stmt.TheVariants as vStmt;
ghost use Rattle.es_lowering.specs.Texts.{span_of};
ghost use Rattle.es_syntax.specs.Held.{held, valued};
ghost use Rattle.es_syntax.specs.Roles.{stmt_in};
ghost use Rattle.es_syntax.specs.Views.{IsNone};
ghost use Rattle.es_view_statements.specs.stmt.Stmt.{statements, the_stmt, IsBelow};

use es_grammar::NodeKind;
use es_syntax::{Item, Siblings, What};

/// A statement, with its parts in place. Numbers are those of tokens.
#[derive(Clone, Copy)]
pub enum Stmt<'a> {
    /// `{ a }`: its statements as turns.
    Block(Siblings<'a>),
    /// `;`
    Empty,
    /// `debugger;`
    Debugger,
    /// `a;`
    Expr(Item<'a>),
    /// `a: b`
    Labelled {
        label: u32,
        body: Item<'a>,
    },
    /// `if (a) b else c`: the last part may be absent.
    If {
        test: Item<'a>,
        cons: Item<'a>,
        alt: Siblings<'a>,
    },
    /// `continue a;`: the label may be absent.
    Continue(Siblings<'a>),
    /// `break a;`: the label may be absent.
    Break(Siblings<'a>),
    /// `return a;`: what is returned and an end, or an end alone.
    Return(Siblings<'a>),
    /// `throw a;`
    Throw(Item<'a>),
    /// `with (a) b`
    With {
        obj: Item<'a>,
        body: Item<'a>,
    },
    /// A part is not there.
    Broken,
}

/// `{ a }`: its statements as turns.
#[tactic(auto, unfolding(es_lowering::specs::Statements::block, crate::specs::stmt::Stmt::block))]
fn block<'a>(parts: &Siblings<'a>) -> Stmt<'a>
    ensures form { (x : List ℕ) (ts : List Tok) (r : Range) → option_map (λ stmts. vStmt.Block stmts r) (block (held x ts parts.now.entries.now)) ≡ the_stmt x ts r result }
    ensures below { IsBelow parts.now result }
{
    Stmt::Block(parts.group_at(0))
}

/// `a;`
#[tactic(auto, unfolding(es_lowering::specs::Statements::expression_statement, crate::specs::stmt::Stmt::expression))]
fn expression<'a>(parts: &Siblings<'a>) -> Stmt<'a>
    ensures form { (x : List ℕ) (ts : List Tok) (r : Range) → expression_statement r (held x ts parts.now.entries.now) ≡ the_stmt x ts r result }
    ensures below { IsBelow parts.now result }
{
    match parts.part(0) {
        Some(expr) => Stmt::Expr(expr),
        None => Stmt::Broken,
    }
}

/// `a: b`
#[tactic(auto, unfolding(es_lowering::specs::Statements::labelled, crate::specs::stmt::Stmt::labelled))]
fn labelled<'a>(parts: &Siblings<'a>) -> Stmt<'a>
    ensures form { (x : List ℕ) (ts : List Tok) (r : Range) → labelled x ts r (held x ts parts.now.entries.now) ≡ the_stmt x ts r result }
    ensures below { IsBelow parts.now result }
{
    match parts.token_at(0) {
        Some(label) => match parts.part(1) {
            Some(body) => Stmt::Labelled { label, body },
            None => Stmt::Broken,
        },
        None => Stmt::Broken,
    }
}

/// `if (a) b else c`: the last part may be absent.
#[tactic(auto, unfolding(es_lowering::specs::Statements::if_, crate::specs::stmt::Stmt::if_of))]
fn if_<'a>(parts: &Siblings<'a>) -> Stmt<'a>
    ensures form { (x : List ℕ) (ts : List Tok) (r : Range) → if_ r (held x ts parts.now.entries.now) ≡ the_stmt x ts r result }
    ensures below { IsBelow parts.now result }
{
    match parts.part(0) {
        Some(test) => match parts.part(1) {
            Some(cons) => Stmt::If {
                test,
                cons,
                alt: parts.group_at(2),
            },
            None => Stmt::Broken,
        },
        None => Stmt::Broken,
    }
}

/// `continue a;`: the label may be absent.
#[tactic(auto, unfolding(es_lowering::specs::Statements::continue_, crate::specs::stmt::Stmt::continued))]
fn continue_<'a>(parts: &Siblings<'a>) -> Stmt<'a>
    ensures form { (x : List ℕ) (ts : List Tok) (r : Range) → continue_ x ts r (held x ts parts.now.entries.now) ≡ the_stmt x ts r result }
    ensures below { IsBelow parts.now result }
{
    Stmt::Continue(parts.group_at(0))
}

/// `break a;`: the label may be absent.
#[tactic(auto, unfolding(es_lowering::specs::Statements::break_, crate::specs::stmt::Stmt::broken))]
fn break_<'a>(parts: &Siblings<'a>) -> Stmt<'a>
    ensures form { (x : List ℕ) (ts : List Tok) (r : Range) → break_ x ts r (held x ts parts.now.entries.now) ≡ the_stmt x ts r result }
    ensures below { IsBelow parts.now result }
{
    Stmt::Break(parts.group_at(0))
}

/// `return a;`: what is returned and an end, or an end alone.
#[tactic(auto, unfolding(es_lowering::specs::Statements::return_, crate::specs::stmt::Stmt::returned_of))]
fn return_<'a>(parts: &Siblings<'a>) -> Stmt<'a>
    ensures form { (x : List ℕ) (ts : List Tok) (r : Range) → return_ r (held x ts parts.now.entries.now) ≡ the_stmt x ts r result }
    ensures below { IsBelow parts.now result }
{
    Stmt::Return(parts.group_at(0))
}

/// `throw a;`
#[tactic(auto, unfolding(es_lowering::specs::Statements::throw_, crate::specs::stmt::Stmt::thrown))]
fn throw<'a>(parts: &Siblings<'a>) -> Stmt<'a>
    ensures form { (x : List ℕ) (ts : List Tok) (r : Range) → throw_ r (held x ts parts.now.entries.now) ≡ the_stmt x ts r result }
    ensures below { IsBelow parts.now result }
{
    match parts.part(0) {
        Some(arg) => Stmt::Throw(arg),
        None => Stmt::Broken,
    }
}

/// `with (a) b`
#[tactic(auto, unfolding(es_lowering::specs::Statements::with_, crate::specs::stmt::Stmt::with_of))]
fn with_<'a>(parts: &Siblings<'a>) -> Stmt<'a>
    ensures form { (x : List ℕ) (ts : List Tok) (r : Range) → with_ r (held x ts parts.now.entries.now) ≡ the_stmt x ts r result }
    ensures below { IsBelow parts.now result }
{
    match parts.part(0) {
        Some(obj) => match parts.part(1) {
            Some(body) => Stmt::With { obj, body },
            None => Stmt::Broken,
        },
        None => Stmt::Broken,
    }
}

/// What a node is as a statement that is no loop, no `switch`, no `try` and no declaration; none where it is of another alternative.
#[tactic(auto, unfolding(es_lowering::specs::Lowering::build, es_lowering::specs::Lowering::stmt_of))]
pub fn stmt_at<'a>(node: &Item<'a>) -> Option<Stmt<'a>>
    ensures form { (x : List ℕ) (ts : List Tok) → IfSome result (λ view. stmt_in (valued x ts node.now) ≡ the_stmt x ts (span_of ts node.now.from node.now.to) view) }
    ensures other { IfNone result (IsNone statements node.now.what) }
    ensures below { IfSome result (λ view. IsBelow node.now.parts view) }
{
    match node.what {
        What::Node(label) => match label {
            NodeKind::Block => Some(block(&node.parts)),
            NodeKind::EmptyStatement => Some(Stmt::Empty),
            NodeKind::DebuggerStatement => Some(Stmt::Debugger),
            NodeKind::ExpressionStatement => Some(expression(&node.parts)),
            NodeKind::LabelledStatement => Some(labelled(&node.parts)),
            NodeKind::IfStatement => Some(if_(&node.parts)),
            NodeKind::ContinueStatement => Some(continue_(&node.parts)),
            NodeKind::BreakStatement => Some(break_(&node.parts)),
            NodeKind::ReturnStatement => Some(return_(&node.parts)),
            NodeKind::ThrowStatement => Some(throw(&node.parts)),
            NodeKind::WithStatement => Some(with_(&node.parts)),
            _ => None,
        },
        What::Leaf => None,
        What::Role(_) => None,
        What::Parts => None,
        What::Lean(_) => None,
    }
}
