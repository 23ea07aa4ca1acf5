//! Operators and their operands.

ghost use Rattle.std.specs.Prelude.{◌≡◌, ℕ, List, IfSome, IfNone};
ghost use Rattle.base.specs.declared.range.Range.{Range};
ghost use Rattle.es_token.specs.declared.token.Token.{Token as Tok};
ghost use Rattle.es_lowering.specs.Expressions.{prefix, update_prefix, update_postfix, await_, binary, private_in, conditional, assignment, pattern_assignment, yield_, sequence};
ghost use Rattle.es_lowering.specs.TypedExpressions.{typed_binary, type_assertion};
ghost use Rattle.es_lowering.specs.Texts.{span_of};
ghost use Rattle.es_syntax.specs.Held.{held, valued};
ghost use Rattle.es_syntax.specs.Roles.{expr_in};
ghost use Rattle.es_syntax.specs.Views.{IsNone};
ghost use Rattle.es_view_expressions.specs.operator.Operator.{operators, the_operator, IsBelow};

use es_grammar::NodeKind;
use es_syntax::{Item, Siblings, What};

/// An operator with its operands in place. Numbers are those of tokens.
#[derive(Clone, Copy)]
pub enum Operator<'a> {
    /// `++a`: its sign and its operand.
    Prefix {
        sign: u32,
        arg: Item<'a>,
    },
    /// `a++`
    Postfix {
        arg: Item<'a>,
        sign: u32,
    },
    /// `-a`
    Unary {
        sign: u32,
        arg: Item<'a>,
    },
    /// `await a`
    Await(Item<'a>),
    /// `a + b`: the operator is between the two.
    Binary {
        left: Item<'a>,
        right: Item<'a>,
    },
    /// `#a in b`
    PrivateIn {
        name: u32,
        right: Item<'a>,
    },
    /// `a ? b : c`
    Conditional {
        test: Item<'a>,
        cons: Item<'a>,
        alt: Item<'a>,
    },
    /// `a = b`: the operator is between the two.
    Assignment {
        left: Item<'a>,
        right: Item<'a>,
    },
    /// `[a] = b`
    PatternAssignment {
        left: Item<'a>,
        right: Item<'a>,
    },
    /// `yield *a`: a group of a star or none and what is yielded, or of nothing.
    Yield(Siblings<'a>),
    /// `a < b`, `a as T`: the left operand, and a group of what follows it.
    TypedBinary {
        left: Item<'a>,
        turn: Siblings<'a>,
    },
    /// `<T>a`: a group of the type or of `const`, and the operand.
    TypeAssertion {
        asserted: Siblings<'a>,
        arg: Item<'a>,
    },
    /// `a, b, c`: the first two, and turns of one each.
    Sequence {
        first: Item<'a>,
        second: Item<'a>,
        others: Siblings<'a>,
    },
    /// A part is not there.
    Broken,
}

/// `++a`: its sign and its operand.
#[tactic(auto, unfolding(es_lowering::specs::Expressions::update_prefix, crate::specs::operator::Operator::updated_prefix))]
fn update_prefix<'a>(parts: &Siblings<'a>) -> Operator<'a>
    ensures form { (x : List ℕ) (ts : List Tok) (r : Range) → update_prefix ts r (held x ts parts.now.entries.now) ≡ the_operator x ts r result }
    ensures below { IsBelow parts.now result }
{
    match parts.token_at(0) {
        Some(sign) => match parts.part(1) {
            Some(arg) => Operator::Prefix { sign, arg },
            None => Operator::Broken,
        },
        None => Operator::Broken,
    }
}

/// `a++`
#[tactic(auto, unfolding(es_lowering::specs::Expressions::update_postfix, crate::specs::operator::Operator::updated_postfix))]
fn update_postfix<'a>(parts: &Siblings<'a>) -> Operator<'a>
    ensures form { (x : List ℕ) (ts : List Tok) (r : Range) → update_postfix ts r (held x ts parts.now.entries.now) ≡ the_operator x ts r result }
    ensures below { IsBelow parts.now result }
{
    match parts.part(0) {
        Some(arg) => match parts.token_at(1) {
            Some(sign) => Operator::Postfix { arg, sign },
            None => Operator::Broken,
        },
        None => Operator::Broken,
    }
}

/// `-a`
#[tactic(auto, unfolding(es_lowering::specs::Expressions::prefix, crate::specs::operator::Operator::unary))]
fn unary<'a>(parts: &Siblings<'a>) -> Operator<'a>
    ensures form { (x : List ℕ) (ts : List Tok) (r : Range) → prefix ts r (held x ts parts.now.entries.now) ≡ the_operator x ts r result }
    ensures below { IsBelow parts.now result }
{
    match parts.token_at(0) {
        Some(sign) => match parts.part(1) {
            Some(arg) => Operator::Unary { sign, arg },
            None => Operator::Broken,
        },
        None => Operator::Broken,
    }
}

/// `await a`
#[tactic(auto, unfolding(es_lowering::specs::Expressions::await_, crate::specs::operator::Operator::awaited))]
fn await_<'a>(parts: &Siblings<'a>) -> Operator<'a>
    ensures form { (x : List ℕ) (ts : List Tok) (r : Range) → await_ r (held x ts parts.now.entries.now) ≡ the_operator x ts r result }
    ensures below { IsBelow parts.now result }
{
    match parts.part(0) {
        Some(arg) => Operator::Await(arg),
        None => Operator::Broken,
    }
}

/// `a + b`: the operator is between the two.
#[tactic(auto, unfolding(es_lowering::specs::Expressions::binary, crate::specs::operator::Operator::joined))]
fn binary<'a>(parts: &Siblings<'a>) -> Operator<'a>
    ensures form { (x : List ℕ) (ts : List Tok) (r : Range) → binary ts r (held x ts parts.now.entries.now) ≡ the_operator x ts r result }
    ensures below { IsBelow parts.now result }
{
    match parts.part(0) {
        Some(left) => match parts.part(2) {
            Some(right) => Operator::Binary { left, right },
            None => Operator::Broken,
        },
        None => Operator::Broken,
    }
}

/// `#a in b`
#[tactic(auto, unfolding(es_lowering::specs::Expressions::private_in, crate::specs::operator::Operator::private_in))]
fn private_in<'a>(parts: &Siblings<'a>) -> Operator<'a>
    ensures form { (x : List ℕ) (ts : List Tok) (r : Range) → private_in x ts r (held x ts parts.now.entries.now) ≡ the_operator x ts r result }
    ensures below { IsBelow parts.now result }
{
    match parts.token_at(0) {
        Some(name) => match parts.part(1) {
            Some(right) => Operator::PrivateIn { name, right },
            None => Operator::Broken,
        },
        None => Operator::Broken,
    }
}

/// `a ? b : c`
#[tactic(auto, unfolding(es_lowering::specs::Expressions::conditional, crate::specs::operator::Operator::conditional))]
fn conditional<'a>(parts: &Siblings<'a>) -> Operator<'a>
    ensures form { (x : List ℕ) (ts : List Tok) (r : Range) → conditional r (held x ts parts.now.entries.now) ≡ the_operator x ts r result }
    ensures below { IsBelow parts.now result }
{
    match parts.part(0) {
        Some(test) => match parts.part(1) {
            Some(cons) => match parts.part(2) {
                Some(alt) => Operator::Conditional { test, cons, alt },
                None => Operator::Broken,
            },
            None => Operator::Broken,
        },
        None => Operator::Broken,
    }
}

/// `a = b`: the operator is between the two.
#[tactic(auto, unfolding(es_lowering::specs::Expressions::assignment, crate::specs::operator::Operator::assigned))]
fn assignment<'a>(parts: &Siblings<'a>) -> Operator<'a>
    ensures form { (x : List ℕ) (ts : List Tok) (r : Range) → assignment ts r (held x ts parts.now.entries.now) ≡ the_operator x ts r result }
    ensures below { IsBelow parts.now result }
{
    match parts.part(0) {
        Some(left) => match parts.part(2) {
            Some(right) => Operator::Assignment { left, right },
            None => Operator::Broken,
        },
        None => Operator::Broken,
    }
}

/// `[a] = b`
#[tactic(auto, unfolding(es_lowering::specs::Expressions::pattern_assignment, crate::specs::operator::Operator::pattern_assigned))]
fn pattern_assignment<'a>(parts: &Siblings<'a>) -> Operator<'a>
    ensures form { (x : List ℕ) (ts : List Tok) (r : Range) → pattern_assignment r (held x ts parts.now.entries.now) ≡ the_operator x ts r result }
    ensures below { IsBelow parts.now result }
{
    match parts.part(0) {
        Some(left) => match parts.part(1) {
            Some(right) => Operator::PatternAssignment { left, right },
            None => Operator::Broken,
        },
        None => Operator::Broken,
    }
}

/// `yield *a`: a group of a star or none and what is yielded, or of nothing.
#[tactic(auto, unfolding(es_lowering::specs::Expressions::yield_, crate::specs::operator::Operator::yielded))]
fn yield_<'a>(parts: &Siblings<'a>) -> Operator<'a>
    ensures form { (x : List ℕ) (ts : List Tok) (r : Range) → yield_ r (held x ts parts.now.entries.now) ≡ the_operator x ts r result }
    ensures below { IsBelow parts.now result }
{
    Operator::Yield(parts.group_at(0))
}

/// `a < b`, `a as T`: the left operand, and a group of what follows it.
#[tactic(auto, unfolding(es_lowering::specs::TypedExpressions::typed_binary, crate::specs::operator::Operator::turned))]
fn typed_binary<'a>(parts: &Siblings<'a>) -> Operator<'a>
    ensures form { (x : List ℕ) (ts : List Tok) (r : Range) → typed_binary ts r (held x ts parts.now.entries.now) ≡ the_operator x ts r result }
    ensures below { IsBelow parts.now result }
{
    match parts.part(0) {
        Some(left) => Operator::TypedBinary {
            left,
            turn: parts.group_at(1),
        },
        None => Operator::Broken,
    }
}

/// `<T>a`: a group of the type or of `const`, and the operand.
#[tactic(auto, unfolding(es_lowering::specs::TypedExpressions::type_assertion, crate::specs::operator::Operator::asserted))]
fn type_assertion<'a>(parts: &Siblings<'a>) -> Operator<'a>
    ensures form { (x : List ℕ) (ts : List Tok) (r : Range) → type_assertion r (held x ts parts.now.entries.now) ≡ the_operator x ts r result }
    ensures below { IsBelow parts.now result }
{
    match parts.part(1) {
        Some(arg) => Operator::TypeAssertion {
            asserted: parts.group_at(0),
            arg,
        },
        None => Operator::Broken,
    }
}

/// `a, b, c`: the first two, and turns of one each.
#[tactic(auto, unfolding(es_lowering::specs::Expressions::sequence, crate::specs::operator::Operator::sequence))]
fn sequence<'a>(parts: &Siblings<'a>) -> Operator<'a>
    ensures form { (x : List ℕ) (ts : List Tok) (r : Range) → sequence r (held x ts parts.now.entries.now) ≡ the_operator x ts r result }
    ensures below { IsBelow parts.now result }
{
    match parts.part(0) {
        Some(first) => match parts.part(1) {
            Some(second) => Operator::Sequence {
                first,
                second,
                others: parts.group_at(2),
            },
            None => Operator::Broken,
        },
        None => Operator::Broken,
    }
}

/// What a node is as an operator over its operands; none where it is of another alternative.
#[tactic(auto, unfolding(es_lowering::specs::Lowering::build, es_lowering::specs::Lowering::expr_of))]
pub fn operator_at<'a>(node: &Item<'a>) -> Option<Operator<'a>>
    ensures form { (x : List ℕ) (ts : List Tok) → IfSome result (λ view. expr_in (valued x ts node.now) ≡ the_operator x ts (span_of ts node.now.from node.now.to) view) }
    ensures other { IfNone result (IsNone operators node.now.what) }
    ensures below { IfSome result (λ view. IsBelow node.now.parts view) }
{
    match node.what {
        What::Node(label) => match label {
            NodeKind::UpdatePrefix => Some(update_prefix(&node.parts)),
            NodeKind::UpdatePostfix => Some(update_postfix(&node.parts)),
            NodeKind::UnaryExpression => Some(unary(&node.parts)),
            NodeKind::AwaitExpression => Some(await_(&node.parts)),
            NodeKind::Binary => Some(binary(&node.parts)),
            NodeKind::PrivateIn => Some(private_in(&node.parts)),
            NodeKind::Conditional => Some(conditional(&node.parts)),
            NodeKind::Assignment => Some(assignment(&node.parts)),
            NodeKind::PatternAssignment => Some(pattern_assignment(&node.parts)),
            NodeKind::Yield => Some(yield_(&node.parts)),
            NodeKind::TypedBinary => Some(typed_binary(&node.parts)),
            NodeKind::TypeAssertion => Some(type_assertion(&node.parts)),
            NodeKind::Sequence => Some(sequence(&node.parts)),
            _ => None,
        },
        What::Leaf => None,
        What::Role(_) => None,
        What::Parts => None,
        What::Lean(_) => None,
    }
}
