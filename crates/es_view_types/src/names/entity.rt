//! Names with dots.

ghost use Rattle.std.specs.Prelude.{◌≡◌, ℕ, List, IfSome, IfNone};
ghost use Rattle.base.specs.declared.range.Range.{Range};
ghost use Rattle.es_token.specs.declared.token.Token.{Token as Tok};
ghost use Rattle.es_lowering.specs.Modules.{entity};
ghost use Rattle.es_lowering.specs.Texts.{span_of};
ghost use Rattle.es_syntax.specs.Held.{held, valued};
ghost use Rattle.es_syntax.specs.Roles.{entity_in};
ghost use Rattle.es_syntax.specs.Views.{IsNone};
ghost use Rattle.es_view_types.specs.names.Entity.{entities, the_entity, IsBelow};

use es_grammar::NodeKind;
use es_syntax::{Item, Siblings, What};

/// A name with dots. Numbers are those of tokens.
#[derive(Clone, Copy)]
pub enum Entity<'a> {
    /// `a.b.c`: the first name, and turns of the others.
    Names { left: u32, rest: Siblings<'a> },
    /// A part is not there.
    Broken,
}

/// `a.b.c`: the first name, and turns of the others.
#[tactic(auto, unfolding(es_lowering::specs::Modules::entity, crate::specs::names::Entity::names))]
fn names<'a>(parts: &Siblings<'a>) -> Entity<'a>
    ensures form { (x : List ℕ) (ts : List Tok) (r : Range) → entity x ts r (held x ts parts.now.entries.now) ≡ the_entity x ts r result }
    ensures below { IsBelow parts.now result }
{
    match parts.token_at(0) {
        Some(left) => Entity::Names {
            left,
            rest: parts.group_at(1),
        },
        None => Entity::Broken,
    }
}

/// What a node is as a name with dots; none where it is of another alternative.
#[tactic(auto, unfolding(es_lowering::specs::Lowering::build, es_lowering::specs::Lowering::entity_of))]
pub fn entity_at<'a>(node: &Item<'a>) -> Option<Entity<'a>>
    ensures form { (x : List ℕ) (ts : List Tok) → IfSome result (λ view. entity_in (valued x ts node.now) ≡ the_entity x ts (span_of ts node.now.from node.now.to) view) }
    ensures other { IfNone result (IsNone entities node.now.what) }
    ensures below { IfSome result (λ view. IsBelow node.now.parts view) }
{
    match node.what {
        What::Node(label) => match label {
            NodeKind::Entity => Some(names(&node.parts)),
            NodeKind::EntityOfType => Some(names(&node.parts)),
            _ => None,
        },
        What::Leaf => None,
        What::Role(_) => None,
        What::Parts => None,
        What::Lean(_) => None,
    }
}
