//! Names that an import binds.

ghost use Rattle.std.specs.Prelude.{◌≡◌, ℕ, List, IfSome, IfNone};
ghost use Rattle.base.specs.declared.range.Range.{Range};
ghost use Rattle.es_token.specs.declared.token.Token.{Token as Tok};
ghost use Rattle.es_lowering.specs.Modules.{namespace, named_imports};
ghost use Rattle.es_lowering.specs.Texts.{span_of};
ghost use Rattle.es_syntax.specs.Held.{held, valued};
ghost use Rattle.es_syntax.specs.Roles.{names_in};
ghost use Rattle.es_syntax.specs.Views.{IsNone};
ghost use Rattle.es_view_modules.specs.names.Names.{name_labels, the_names, IsBelow};

use es_grammar::NodeKind;
use es_syntax::{Item, Siblings, What};

/// Names that an import binds, as cursors. Numbers are those of tokens.
#[derive(Clone, Copy)]
pub enum Names<'a> {
    /// `* as a`
    Namespace(u32),
    /// `{ a, b as c }`: turns of one each.
    Named(Siblings<'a>),
    /// A part is not there.
    Broken,
}

/// `* as a`
#[tactic(auto, unfolding(es_lowering::specs::Modules::namespace, crate::specs::names::Names::namespace))]
fn namespace<'a>(parts: &Siblings<'a>) -> Names<'a>
    ensures form { (x : List ℕ) (ts : List Tok) (r : Range) → namespace x ts r (held x ts parts.now.entries.now) ≡ the_names x ts r result }
    ensures below { IsBelow parts.now result }
{
    match parts.token_at(0) {
        Some(local) => Names::Namespace(local),
        None => Names::Broken,
    }
}

/// `{ a, b as c }`: turns of one each.
#[tactic(auto, unfolding(es_lowering::specs::Modules::named_imports, crate::specs::names::Names::named))]
fn named<'a>(parts: &Siblings<'a>) -> Names<'a>
    ensures form { (x : List ℕ) (ts : List Tok) (r : Range) → named_imports r (held x ts parts.now.entries.now) ≡ the_names x ts r result }
    ensures below { IsBelow parts.now result }
{
    Names::Named(parts.group_at(0))
}

/// What a node is as names that an import binds; none where it is of another alternative.
#[tactic(auto, unfolding(es_lowering::specs::Lowering::build, es_lowering::specs::Lowering::names_of))]
pub fn names_at<'a>(node: &Item<'a>) -> Option<Names<'a>>
    ensures form { (x : List ℕ) (ts : List Tok) → IfSome result (λ view. names_in (valued x ts node.now) ≡ the_names x ts (span_of ts node.now.from node.now.to) view) }
    ensures other { IfNone result (IsNone name_labels node.now.what) }
    ensures below { IfSome result (λ view. IsBelow node.now.parts view) }
{
    match node.what {
        What::Node(label) => match label {
            NodeKind::Namespace => Some(namespace(&node.parts)),
            NodeKind::NamedImports => Some(named(&node.parts)),
            _ => None,
        },
        What::Leaf => None,
        What::Role(_) => None,
        What::Parts => None,
        What::Lean(_) => None,
    }
}
