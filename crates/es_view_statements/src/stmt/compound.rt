//! Loops, `switch` and `try`.

ghost use Rattle.std.specs.Prelude.{◌≡◌, ℕ, List, IfSome, IfNone};
ghost use Rattle.base.specs.declared.range.Range.{Range};
ghost use Rattle.es_token.specs.declared.token.Token.{Token as Tok};
ghost use Rattle.es_lowering.specs.Statements.{for_, for_each, for_await, while_, do_, switch_, try_};
ghost use Rattle.es_lowering.specs.TypedStatements.{typed_try};
ghost use Rattle.es_lowering.specs.Texts.{span_of};
ghost use Rattle.es_syntax.specs.Held.{held, valued};
ghost use Rattle.es_syntax.specs.Roles.{stmt_in};
ghost use Rattle.es_syntax.specs.Views.{IsNone};
ghost use Rattle.es_view_statements.specs.stmt.Compound.{compounds, the_compound, IsBelow};

use es_grammar::NodeKind;
use es_syntax::{Item, Siblings, What};

/// A loop, a `switch` or a `try`, with its parts in place. Numbers are those of tokens.
#[derive(Clone, Copy)]
pub enum Compound<'a> {
    /// `for (a; b; c) d`: the first part is one of three, and each may be absent.
    For {
        variables: Siblings<'a>,
        using: Siblings<'a>,
        expression: Siblings<'a>,
        test: Siblings<'a>,
        update: Siblings<'a>,
        body: Item<'a>,
    },
    /// `for (a in b) c`, `for (a of b) c`: the word between them.
    ForEach {
        head: Item<'a>,
        word: u32,
        right: Item<'a>,
        body: Item<'a>,
    },
    /// `for await (a of b) c`
    ForAwait {
        head: Item<'a>,
        right: Item<'a>,
        body: Item<'a>,
    },
    /// `while (a) b`
    While {
        test: Item<'a>,
        body: Item<'a>,
    },
    /// `do a while (b)`
    Do {
        body: Item<'a>,
        test: Item<'a>,
    },
    /// `switch (a) { case b: c }`: its clauses as turns of a test or none and statements.
    Switch {
        discriminant: Item<'a>,
        cases: Siblings<'a>,
    },
    /// `try a catch (b) c finally d`: what follows its block.
    Try {
        block: Item<'a>,
        handlers: Siblings<'a>,
    },
    /// The same of TypeScript.
    TypedTry {
        block: Item<'a>,
        handlers: Siblings<'a>,
    },
    /// A part is not there.
    Broken,
}

/// `for (a; b; c) d`: the first part is one of three, and each may be absent.
#[tactic(auto, unfolding(es_lowering::specs::Statements::for_, crate::specs::stmt::Compound::for_of))]
fn for_<'a>(parts: &Siblings<'a>) -> Compound<'a>
    ensures form { (x : List ℕ) (ts : List Tok) (r : Range) → for_ ts r (held x ts parts.now.entries.now) ≡ the_compound x ts r result }
    ensures below { IsBelow parts.now result }
{
    match parts.part(5) {
        Some(body) => Compound::For {
            variables: parts.group_at(0),
            using: parts.group_at(1),
            expression: parts.group_at(2),
            test: parts.group_at(3),
            update: parts.group_at(4),
            body,
        },
        None => Compound::Broken,
    }
}

/// `for (a in b) c`, `for (a of b) c`: the word between them.
#[tactic(auto, unfolding(es_lowering::specs::Statements::for_each, crate::specs::stmt::Compound::for_each_of))]
fn for_each<'a>(parts: &Siblings<'a>) -> Compound<'a>
    ensures form { (x : List ℕ) (ts : List Tok) (r : Range) → for_each ts r (held x ts parts.now.entries.now) ≡ the_compound x ts r result }
    ensures below { IsBelow parts.now result }
{
    match parts.part(0) {
        Some(head) => match parts.group_at(1).token_at(0) {
            Some(word) => match parts.group_at(1).part(1) {
                Some(right) => match parts.part(2) {
                    Some(body) => Compound::ForEach {
                        head,
                        word,
                        right,
                        body,
                    },
                    None => Compound::Broken,
                },
                None => Compound::Broken,
            },
            None => Compound::Broken,
        },
        None => Compound::Broken,
    }
}

/// `for await (a of b) c`
#[tactic(auto, unfolding(es_lowering::specs::Statements::for_await, crate::specs::stmt::Compound::for_await_of))]
fn for_await<'a>(parts: &Siblings<'a>) -> Compound<'a>
    ensures form { (x : List ℕ) (ts : List Tok) (r : Range) → for_await r (held x ts parts.now.entries.now) ≡ the_compound x ts r result }
    ensures below { IsBelow parts.now result }
{
    match parts.part(0) {
        Some(head) => match parts.part(1) {
            Some(right) => match parts.part(2) {
                Some(body) => Compound::ForAwait { head, right, body },
                None => Compound::Broken,
            },
            None => Compound::Broken,
        },
        None => Compound::Broken,
    }
}

/// `while (a) b`
#[tactic(auto, unfolding(es_lowering::specs::Statements::while_, crate::specs::stmt::Compound::while_of))]
fn while_<'a>(parts: &Siblings<'a>) -> Compound<'a>
    ensures form { (x : List ℕ) (ts : List Tok) (r : Range) → while_ r (held x ts parts.now.entries.now) ≡ the_compound x ts r result }
    ensures below { IsBelow parts.now result }
{
    match parts.part(0) {
        Some(test) => match parts.part(1) {
            Some(body) => Compound::While { test, body },
            None => Compound::Broken,
        },
        None => Compound::Broken,
    }
}

/// `do a while (b)`
#[tactic(auto, unfolding(es_lowering::specs::Statements::do_, crate::specs::stmt::Compound::do_of))]
fn do_<'a>(parts: &Siblings<'a>) -> Compound<'a>
    ensures form { (x : List ℕ) (ts : List Tok) (r : Range) → do_ r (held x ts parts.now.entries.now) ≡ the_compound x ts r result }
    ensures below { IsBelow parts.now result }
{
    match parts.part(0) {
        Some(body) => match parts.part(1) {
            Some(test) => Compound::Do { body, test },
            None => Compound::Broken,
        },
        None => Compound::Broken,
    }
}

/// `switch (a) { case b: c }`: its clauses as turns of a test or none and statements.
#[tactic(auto, unfolding(es_lowering::specs::Statements::switch_, crate::specs::stmt::Compound::switch_of))]
fn switch<'a>(parts: &Siblings<'a>) -> Compound<'a>
    ensures form { (x : List ℕ) (ts : List Tok) (r : Range) → switch_ ts r (held x ts parts.now.entries.now) ≡ the_compound x ts r result }
    ensures below { IsBelow parts.now result }
{
    match parts.part(0) {
        Some(discriminant) => Compound::Switch {
            discriminant,
            cases: parts.group_at(1),
        },
        None => Compound::Broken,
    }
}

/// `try a catch (b) c finally d`: what follows its block.
#[tactic(auto, unfolding(es_lowering::specs::Statements::try_, crate::specs::stmt::Compound::try_of))]
fn try_<'a>(parts: &Siblings<'a>) -> Compound<'a>
    ensures form { (x : List ℕ) (ts : List Tok) (r : Range) → try_ r (held x ts parts.now.entries.now) ≡ the_compound x ts r result }
    ensures below { IsBelow parts.now result }
{
    match parts.part(0) {
        Some(block) => Compound::Try {
            block,
            handlers: parts.group_at(1),
        },
        None => Compound::Broken,
    }
}

/// The same of TypeScript.
#[tactic(auto, unfolding(es_lowering::specs::TypedStatements::typed_try, crate::specs::stmt::Compound::typed_try_of))]
fn typed_try<'a>(parts: &Siblings<'a>) -> Compound<'a>
    ensures form { (x : List ℕ) (ts : List Tok) (r : Range) → typed_try ts r (held x ts parts.now.entries.now) ≡ the_compound x ts r result }
    ensures below { IsBelow parts.now result }
{
    match parts.part(0) {
        Some(block) => Compound::TypedTry {
            block,
            handlers: parts.group_at(1),
        },
        None => Compound::Broken,
    }
}

/// What a node is as a loop, a `switch` or a `try`; none where it is of another alternative.
#[tactic(auto, unfolding(es_lowering::specs::Lowering::build, es_lowering::specs::Lowering::stmt_of))]
pub fn compound_at<'a>(node: &Item<'a>) -> Option<Compound<'a>>
    ensures form { (x : List ℕ) (ts : List Tok) → IfSome result (λ view. stmt_in (valued x ts node.now) ≡ the_compound x ts (span_of ts node.now.from node.now.to) view) }
    ensures other { IfNone result (IsNone compounds node.now.what) }
    ensures below { IfSome result (λ view. IsBelow node.now.parts view) }
{
    match node.what {
        What::Node(label) => match label {
            NodeKind::ForStatement => Some(for_(&node.parts)),
            NodeKind::ForEachStatement => Some(for_each(&node.parts)),
            NodeKind::ForAwaitStatement => Some(for_await(&node.parts)),
            NodeKind::WhileStatement => Some(while_(&node.parts)),
            NodeKind::DoStatement => Some(do_(&node.parts)),
            NodeKind::SwitchStatement => Some(switch(&node.parts)),
            NodeKind::TryStatement => Some(try_(&node.parts)),
            NodeKind::TypedTryStatement => Some(typed_try(&node.parts)),
            _ => None,
        },
        What::Leaf => None,
        What::Role(_) => None,
        What::Parts => None,
        What::Lean(_) => None,
    }
}
