//! What an import binds.

ghost use Rattle.std.specs.Prelude.{◌≡◌, ℕ, List, IfSome, IfNone};
ghost use Rattle.base.specs.declared.range.Range.{Range};
ghost use Rattle.es_token.specs.declared.token.Token.{Token as Tok};
ghost use Rattle.es_lowering.specs.Modules.{default_clause, default_and_clause};
ghost use Rattle.es_lowering.specs.Texts.{span_of};
ghost use Rattle.es_syntax.specs.Held.{held, valued};
ghost use Rattle.es_syntax.specs.Roles.{clause_in};
ghost use Rattle.es_syntax.specs.Views.{IsNone};
ghost use Rattle.es_view_modules.specs.names.Clause.{clauses, the_clause, IsBelow};

use es_grammar::NodeKind;
use es_syntax::{Item, Siblings, What};

/// What an import binds, as cursors. Numbers are those of tokens.
#[derive(Clone, Copy)]
pub enum Clause<'a> {
    /// `a`
    Default(u32),
    /// `a, { b }`, `a, * as b`
    Both { local: u32, names: Item<'a> },
    /// Names alone: the node itself.
    Names(Item<'a>),
    /// A part is not there.
    Broken,
}

/// `a`
#[tactic(auto, unfolding(es_lowering::specs::Modules::default_clause, crate::specs::names::Clause::default))]
fn default<'a>(parts: &Siblings<'a>) -> Clause<'a>
    ensures form { (x : List ℕ) (ts : List Tok) (r : Range) → default_clause x ts (held x ts parts.now.entries.now) ≡ the_clause x ts r result }
    ensures below { IsBelow parts.now result }
{
    match parts.token_at(0) {
        Some(local) => Clause::Default(local),
        None => Clause::Broken,
    }
}

/// `a, { b }`, `a, * as b`
#[tactic(auto, unfolding(es_lowering::specs::Modules::default_and_clause, crate::specs::names::Clause::both))]
fn both<'a>(parts: &Siblings<'a>) -> Clause<'a>
    ensures form { (x : List ℕ) (ts : List Tok) (r : Range) → default_and_clause x ts r (held x ts parts.now.entries.now) ≡ the_clause x ts r result }
    ensures below { IsBelow parts.now result }
{
    match parts.token_at(0) {
        Some(local) => match parts.part(1) {
            Some(names) => Clause::Both { local, names },
            None => Clause::Broken,
        },
        None => Clause::Broken,
    }
}

/// What a node is as what an import binds; none where it is of another alternative.
#[tactic(auto, unfolding(es_lowering::specs::Lowering::build, es_lowering::specs::Lowering::clause_of, es_lowering::specs::Lowering::names_of))]
pub fn clause_at<'a>(node: &Item<'a>) -> Option<Clause<'a>>
    ensures form { (x : List ℕ) (ts : List Tok) → IfSome result (λ view. clause_in (valued x ts node.now) ≡ the_clause x ts (span_of ts node.now.from node.now.to) view) }
    ensures other { IfNone result (IsNone clauses node.now.what) }
    ensures below { IfSome result (λ view. IsBelow node.now.parts view) }
{
    match node.what {
        What::Node(label) => match label {
            NodeKind::DefaultClause => Some(default(&node.parts)),
            NodeKind::DefaultAndClause => Some(both(&node.parts)),
            NodeKind::Namespace => Some(Clause::Names(*node)),
            NodeKind::NamedImports => Some(Clause::Names(*node)),
            _ => None,
        },
        What::Leaf => None,
        What::Role(_) => None,
        What::Parts => None,
        What::Lean(_) => None,
    }
}
