//! Import attributes.

ghost use Rattle.std.specs.Prelude.{◌≡◌, ℕ, List, IfSome, IfNone};
ghost use Rattle.base.specs.declared.range.Range.{Range};
ghost use Rattle.es_token.specs.declared.token.Token.{Token as Tok};
ghost use Rattle.es_lowering.specs.Modules.{attributes};
ghost use Rattle.es_lowering.specs.Texts.{span_of};
ghost use Rattle.es_syntax.specs.Held.{held, valued};
ghost use Rattle.es_syntax.specs.Roles.{attributes_in};
ghost use Rattle.es_syntax.specs.Views.{IsNone};
ghost use Rattle.es_view_modules.specs.names.Attributes.{attribute_labels, the_attributes, IsBelow};

use es_grammar::NodeKind;
use es_syntax::{Item, Siblings, What};

/// Import attributes, as a cursor.
#[derive(Clone, Copy)]
pub enum Attributes<'a> {
    /// `with { a: "b" }`: turns of a name and a string.
    Attributes(Siblings<'a>),
    /// A part is not there.
    Broken,
}

/// `with { a: "b" }`: turns of a name and a string.
#[tactic(auto, unfolding(es_lowering::specs::Modules::attributes, crate::specs::names::Attributes::attributes))]
fn items<'a>(parts: &Siblings<'a>) -> Attributes<'a>
    ensures form { (x : List ℕ) (ts : List Tok) (r : Range) → attributes x ts r (held x ts parts.now.entries.now) ≡ the_attributes x ts r result }
    ensures below { IsBelow parts.now result }
{
    Attributes::Attributes(parts.group_at(0))
}

/// What a node is as import attributes; none where it is of another alternative.
#[tactic(auto, unfolding(es_lowering::specs::Lowering::build, es_lowering::specs::Lowering::attributes_of))]
pub fn attributes_at<'a>(node: &Item<'a>) -> Option<Attributes<'a>>
    ensures form { (x : List ℕ) (ts : List Tok) → IfSome result (λ view. attributes_in (valued x ts node.now) ≡ the_attributes x ts (span_of ts node.now.from node.now.to) view) }
    ensures other { IfNone result (IsNone attribute_labels node.now.what) }
    ensures below { IfSome result (λ view. IsBelow node.now.parts view) }
{
    match node.what {
        What::Node(label) => match label {
            NodeKind::Attributes => Some(items(&node.parts)),
            _ => None,
        },
        What::Leaf => None,
        What::Role(_) => None,
        What::Parts => None,
        What::Lean(_) => None,
    }
}
