//! Chains of left-associative operators, without recursion along them.

ghost use Rattle.std.specs.Prelude.{◌≡◌, ℕ, List, IfSome, IfNone};
ghost use Rattle.base.specs.declared.range.Range.{Range};
ghost use Rattle.es_token.specs.declared.token.Token.{Token as Tok};
ghost use Rattle.es_lowering.specs.Value.{Value, more};
ghost use Rattle.es_lowering.specs.Lowering.{expr_of};
ghost use Rattle.es_syntax.specs.Held.{held, valued, label_of};
ghost use Rattle.es_view_expressions.specs.operator.Lean.{the_chain, the_turn, IsChainBelow, IsTurnBelow, IsNoChain};

use es_syntax::{Item, Lean, Siblings, What};

/// `a + b - c`: where the chain begins, its first operand, and what follows it, one turn after the other.
#[derive(Clone, Copy)]
pub struct Chain<'a> {
    pub lean: Lean,
    pub from: u32,
    pub first: Item<'a>,
    pub turn: Item<'a>,
    pub others: Siblings<'a>,
}

/// What follows an operand.
#[derive(Clone, Copy)]
pub enum Turn<'a> {
    /// An operator, which is between the two, and its right operand.
    Operand(Item<'a>),
    /// The same of TypeScript, or `as` and `satisfies` with their types: the group that says which.
    Typed(Siblings<'a>),
    /// A part is not there.
    Broken,
}

/// A node as a chain of operators; none where it is no chain of two operands at least.
pub fn chain_at<'a>(node: &Item<'a>) -> Option<Chain<'a>>
    ensures form { (x : List ℕ) (ts : List Tok) → IfSome result (λ chain. valued x ts node.now ≡ the_chain x ts chain) }
    ensures other { (x : List ℕ) (ts : List Tok) → IfNone result (IsNoChain x ts node.now) }
    ensures below { IfSome result (λ chain. IsChainBelow node.now.parts chain) }
{
    match node.what {
        What::Lean(lean) => match node.parts.split() {
            Some((first, turns)) => match turns.split() {
                Some((turn, others)) => Some(Chain {
                    lean,
                    from: node.from,
                    first,
                    turn,
                    others,
                }),
                None => None,
            },
            None => None,
        },
        What::Leaf => None,
        What::Node(_) => None,
        What::Role(_) => None,
        What::Parts => None,
    }
}

/// What the parts of a turn are after any operand.
#[tactic(auto, unfolding(es_lowering::specs::Lowering::expr_of, es_lowering::specs::Expressions::binary, es_lowering::specs::TypedExpressions::typed_binary, crate::specs::operator::Operator::joined, crate::specs::operator::Operator::turned))]
pub fn turn_at<'a>(lean: Lean, parts: &Siblings<'a>) -> Turn<'a>
    ensures form { (x : List ℕ) (ts : List Tok) (r : Range) (from : ℕ) (v : Value) →
        expr_of x ts (label_of lean) from r (more v (held x ts parts.now.entries.now)) ≡ the_turn x ts r v result }
    ensures below { IsTurnBelow parts.now result }
{
    match lean {
        Lean::Binary => match parts.part(1) {
            Some(right) => Turn::Operand(right),
            None => Turn::Broken,
        },
        Lean::TypedBinary => Turn::Typed(parts.group_at(0)),
    }
}
