//! Blocks.

ghost use Rattle.std.specs.Prelude.{◌≡◌, ℕ, List, IfSome, IfNone};
ghost use Rattle.es_token.specs.declared.token.Token.{Token as Tok};
ghost use Rattle.es_lowering.specs.Statements.{block};
ghost use Rattle.es_syntax.specs.Held.{held, valued};
ghost use Rattle.es_syntax.specs.Roles.{block_in};
ghost use Rattle.es_syntax.specs.Views.{IsNone};
ghost use Rattle.es_view_statements.specs.stmt.Block.{blocks, the_block, IsBelow};

use es_grammar::NodeKind;
use es_syntax::{Item, Siblings, What};

/// The statements of a block, as turns.
#[derive(Clone, Copy)]
pub enum Block<'a> {
    /// `{ a }`
    Block(Siblings<'a>),
    /// A part is not there.
    Broken,
}

/// `{ a }`
#[tactic(auto, unfolding(es_lowering::specs::Statements::block, crate::specs::stmt::Block::block))]
fn stmts<'a>(parts: &Siblings<'a>) -> Block<'a>
    ensures form { (x : List ℕ) (ts : List Tok) → block (held x ts parts.now.entries.now) ≡ the_block x ts result }
    ensures below { IsBelow parts.now result }
{
    Block::Block(parts.group_at(0))
}

/// What a node is as the statements of a block; none where it is of another alternative.
#[tactic(auto, unfolding(es_lowering::specs::Lowering::build, es_lowering::specs::Lowering::block_of))]
pub fn block_at<'a>(node: &Item<'a>) -> Option<Block<'a>>
    ensures form { (x : List ℕ) (ts : List Tok) → IfSome result (λ view. block_in (valued x ts node.now) ≡ the_block x ts view) }
    ensures other { IfNone result (IsNone blocks node.now.what) }
    ensures below { IfSome result (λ view. IsBelow node.now.parts view) }
{
    match node.what {
        What::Node(label) => match label {
            NodeKind::Block => Some(stmts(&node.parts)),
            _ => None,
        },
        What::Leaf => None,
        What::Role(_) => None,
        What::Parts => None,
        What::Lean(_) => None,
    }
}
