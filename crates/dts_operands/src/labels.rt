//! What the alternatives of expressions are asked as.

ghost use Rattle.std.specs.Prelude.{◌≡◌};
ghost use Rattle.es_syntax.specs.Views.{is_one_of};
ghost use Rattle.dts_operands.specs.Labels.{counting, naming, spreading, Begins, Fits, Rests};

use es_grammar::NodeKind;

/// What the type of an expression is asked of.
#[derive(Clone, Copy)]
pub enum Sort {
    /// A name, a literal, a template.
    Leaf,
    /// `-a`
    Signed,
    /// `new a`
    New,
    /// An array or an object.
    List,
    /// A function or an arrow.
    Function,
    /// `a.b(c)`
    Chain,
    /// `a as T`, `a < b`, `<T>a`
    Turned,
    /// Any other alternative, which has no type.
    Other,
}

/// What nodes of this alternative are asked as.
pub fn sort_of(label: NodeKind) -> Sort
    ensures { Fits label result }
{
    match label {
        NodeKind::Name => Sort::Leaf,
        NodeKind::Word => Sort::Leaf,
        NodeKind::Number => Sort::Leaf,
        NodeKind::Str => Sort::Leaf,
        NodeKind::RegExp => Sort::Leaf,
        NodeKind::Template => Sort::Leaf,
        NodeKind::TemplateParts => Sort::Leaf,
        NodeKind::UnaryExpression => Sort::Signed,
        NodeKind::New => Sort::New,
        NodeKind::TypedNew => Sort::New,
        NodeKind::ArrayLiteral => Sort::List,
        NodeKind::ObjectLiteral => Sort::List,
        NodeKind::Function => Sort::Function,
        NodeKind::AsyncFunction => Sort::Function,
        NodeKind::TypedFunction => Sort::Function,
        NodeKind::TypedAsyncFunction => Sort::Function,
        NodeKind::NameArrow => Sort::Function,
        NodeKind::ParenthesizedArrow => Sort::Function,
        NodeKind::AsyncNameArrow => Sort::Function,
        NodeKind::AsyncParenthesizedArrow => Sort::Function,
        NodeKind::TypedParenthesizedArrow => Sort::Function,
        NodeKind::TypedAsyncParenthesizedArrow => Sort::Function,
        NodeKind::Chain => Sort::Chain,
        NodeKind::TypedBinary => Sort::Turned,
        NodeKind::TypeAssertion => Sort::Turned,
        _ => Sort::Other,
    }
}

/// A number or a BigInt.
pub(crate) fn is_number(label: NodeKind) -> bool
    ensures { is_one_of counting label ≡ result }
{
    match label {
        NodeKind::Number => true,
        _ => false,
    }
}

/// A name.
pub(crate) fn is_name(label: NodeKind) -> bool
    ensures { is_one_of naming label ≡ result }
{
    match label {
        NodeKind::Name => true,
        _ => false,
    }
}

/// `...a`
pub fn is_spread(label: NodeKind) -> bool
    ensures { is_one_of spreading label ≡ result }
{
    match label {
        NodeKind::Spread => true,
        _ => false,
    }
}

/// What may begin a chain.
#[derive(Clone, Copy)]
pub(crate) enum Base {
    Name,
    /// A chain, which no grammar puts there.
    Chain,
    Other,
}

/// What nodes of this alternative are at the beginning of a chain.
pub(crate) fn base_of(label: NodeKind) -> Base
    ensures { Begins label result }
{
    match label {
        NodeKind::Name => Base::Name,
        NodeKind::Chain => Base::Chain,
        _ => Base::Other,
    }
}

/// What may have a type after `...` in an array.
#[derive(Clone, Copy)]
pub enum Behind {
    /// A name or an array.
    Known,
    /// `......a`, which no grammar makes.
    Spread,
    Other,
}

/// What nodes of this alternative are after `...` in an array.
pub fn behind_of(label: NodeKind) -> Behind
    ensures { Rests label result }
{
    match label {
        NodeKind::Name => Behind::Known,
        NodeKind::ArrayLiteral => Behind::Known,
        NodeKind::Spread => Behind::Spread,
        _ => Behind::Other,
    }
}
