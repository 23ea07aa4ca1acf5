//! What functions only return.

ghost use Rattle.std.specs.Prelude.{◌≡◌, ℕ, List, Some, option_map};
ghost use Rattle.es_token.specs.declared.token.Token.{Token as Tok};
ghost use Rattle.base.specs.declared.range.Range.{Range};
ghost use Rattle.es_lowering.specs.Value.{as_group, stmt_at as stmt_there};
ghost use Rattle.es_lowering.specs.Functions.{body_of as arrow_body};
ghost use Rattle.es_view_statements.specs.stmt.Stmt.{block, returned_of};
ghost use Rattle.es_syntax.specs.Held.{held, valued};
ghost use Rattle.es_syntax.specs.Roles.{stmt_in};
ghost use Rattle.cjs_facts.specs.Looks.{returned_by as returned};
ghost use Rattle.cjs_looks.specs.Kinds.{body_of};
ghost use Rattle.cjs_looks.specs.objects.Returns.{Gives, handed, body_returns, last_returns};

use crate::Body;
use es_grammar::NodeKind;
use es_syntax::{Item, Siblings, What};
use es_view_statements::stmt::{Stmt, stmt_at};

/// The value after `return`, if there is one.
#[tactic(auto, using(crate::proofs::objects_lemmas::Statements::returns_nothing, crate::proofs::objects_lemmas::Statements::returns_end, crate::proofs::objects_lemmas::Statements::returns_value))]
fn return_value<'a>(arg: &Siblings<'a>) -> Option<Item<'a>>
    ensures { (x : List ℕ) (ts : List Tok) (r : Range) → Gives last_returns (returned_of r (held x ts arg.now.entries.now)) (handed x ts result) }
{
    match arg.split() {
        Some((value, rest)) => match rest.split() {
            Some(_) => Some(value),
            None => None,
        },
        None => None,
    }
}

/// What the only statement of a block returns.
#[tactic(auto, using(crate::proofs::objects_lemmas::Statements::last_block, crate::proofs::objects_lemmas::Statements::last_empty, crate::proofs::objects_lemmas::Statements::last_debugger, crate::proofs::objects_lemmas::Statements::last_expression, crate::proofs::objects_lemmas::Statements::last_labelled, crate::proofs::objects_lemmas::Statements::last_if, crate::proofs::objects_lemmas::Statements::last_continue, crate::proofs::objects_lemmas::Statements::last_break, crate::proofs::objects_lemmas::Statements::last_throw, crate::proofs::objects_lemmas::Statements::last_with, crate::proofs::objects_lemmas::Statements::last_other))]
fn last_returned<'a>(it: &Item<'a>) -> Option<Item<'a>>
    ensures { (x : List ℕ) (ts : List Tok) → Gives last_returns (stmt_in (valued x ts it.now)) (handed x ts result) }
{
    match stmt_at(it) {
        Some(Stmt::Return(arg)) => return_value(&arg),
        Some(Stmt::Block(_)) => None,
        Some(Stmt::Empty) => None,
        Some(Stmt::Debugger) => None,
        Some(Stmt::Expr(_)) => None,
        Some(Stmt::Labelled { .. }) => None,
        Some(Stmt::If { .. }) => None,
        Some(Stmt::Continue(_)) => None,
        Some(Stmt::Break(_)) => None,
        Some(Stmt::Throw(_)) => None,
        Some(Stmt::With { .. }) => None,
        Some(Stmt::Broken) => None,
        None => None,
    }
}

/// What the statement in a turn returns, where it is the only one.
fn turn_returned<'a>(turn: &Item<'a>) -> Option<Item<'a>>
    ensures { (x : List ℕ) (ts : List Tok) → Gives last_returns (stmt_there (as_group (valued x ts turn.now)) 0) (handed x ts result) }
{
    match turn.group().part(0) {
        Some(stmt) => last_returned(&stmt),
        None => None,
    }
}

/// What a block only returns.
#[tactic(auto, using(crate::proofs::objects_lemmas::Statements::block_none, crate::proofs::objects_lemmas::Statements::block_one, crate::proofs::objects_lemmas::Statements::block_more))]
fn block_returned<'a>(stmts: &Siblings<'a>) -> Option<Item<'a>>
    ensures { (x : List ℕ) (ts : List Tok) (r : Range) → Gives body_returns (block r (held x ts stmts.now.entries.now)) (handed x ts result) }
{
    match stmts.split() {
        Some((turn, rest)) => match rest.split() {
            Some(_) => None,
            None => turn_returned(&turn),
        },
        None => None,
    }
}

/// What a statement that is the body of a function returns.
#[tactic(auto, using(crate::proofs::objects_lemmas::Statements::body_empty, crate::proofs::objects_lemmas::Statements::body_debugger, crate::proofs::objects_lemmas::Statements::body_expression, crate::proofs::objects_lemmas::Statements::body_labelled, crate::proofs::objects_lemmas::Statements::body_if, crate::proofs::objects_lemmas::Statements::body_continue, crate::proofs::objects_lemmas::Statements::body_break, crate::proofs::objects_lemmas::Statements::body_return, crate::proofs::objects_lemmas::Statements::body_throw, crate::proofs::objects_lemmas::Statements::body_with, crate::proofs::objects_lemmas::Statements::body_other))]
fn stmt_returned<'a>(it: &Item<'a>) -> Option<Item<'a>>
    ensures { (x : List ℕ) (ts : List Tok) → Gives body_returns (stmt_in (valued x ts it.now)) (handed x ts result) }
{
    match stmt_at(it) {
        Some(Stmt::Block(stmts)) => block_returned(&stmts),
        Some(Stmt::Expr(expr)) => Some(expr),
        Some(Stmt::Empty) => None,
        Some(Stmt::Debugger) => None,
        Some(Stmt::Return(_)) => None,
        Some(Stmt::Labelled { .. }) => None,
        Some(Stmt::If { .. }) => None,
        Some(Stmt::Continue(_)) => None,
        Some(Stmt::Break(_)) => None,
        Some(Stmt::Throw(_)) => None,
        Some(Stmt::With { .. }) => None,
        Some(Stmt::Broken) => None,
        None => None,
    }
}

/// What a function only returns, by its body.
#[tactic(auto, using(crate::proofs::objects_lemmas::Bodies::by_block, crate::proofs::objects_lemmas::Bodies::by_none, crate::proofs::objects_lemmas::Bodies::by_some, crate::proofs::objects_lemmas::Bodies::by_no_node))]
pub fn returned_by<'a>(body: &Body<'a>) -> Option<Item<'a>>
    ensures { (x : List ℕ) (ts : List Tok) → Gives returned (body_of x ts body.now) (handed x ts result) }
{
    match *body {
        Body::Block(block) => stmt_returned(&block),
        Body::May(block) => match block.split() {
            Some((block, _)) => match block.place() {
                Some(_) => stmt_returned(&block),
                None => None,
            },
            None => None,
        },
        Body::Arrow(body) => arrow_returned(&body),
    }
}

/// What an arrow only returns.
#[tactic(auto, using(crate::proofs::objects_lemmas::Bodies::arrow_block, crate::proofs::objects_lemmas::Bodies::arrow_expr, crate::proofs::objects_lemmas::Bodies::arrow_leaf, crate::proofs::objects_lemmas::Bodies::arrow_role, crate::proofs::objects_lemmas::Bodies::arrow_parts, crate::proofs::objects_lemmas::Bodies::arrow_lean))]
fn arrow_returned<'a>(it: &Item<'a>) -> Option<Item<'a>>
    ensures { (x : List ℕ) (ts : List Tok) → Gives returned (option_map Some (arrow_body ts (valued x ts it.now))) (handed x ts result) }
{
    match it.what {
        What::Node(label) => {
            if label == NodeKind::Block {
                block_returned(&it.parts.group_at(0))
            } else {
                Some(*it)
            }
        }
        What::Leaf => Some(*it),
        What::Role(_) => Some(*it),
        What::Parts => Some(*it),
        What::Lean(_) => Some(*it),
    }
}
