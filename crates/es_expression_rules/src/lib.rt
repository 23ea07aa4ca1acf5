//! Rows of the table of programs (`es_grammar`): expressions, and what is assigned to.
#![tactic(auto)]

mod arrows;
mod chains;
mod expressions;
mod levels;
mod operand;
mod operators;
mod primary;
mod targets;

pub use arrows::{ArrowIn, AsyncArrow, PlainArrow};
pub use chains::{
    Arguments, Base, Callee, Chain, DeferCall, ImportArguments, ImportBase, ImportCall, ImportMeta,
    MemberPost, OptionalPost, Post, SourceCall,
};
pub use expressions::{Assignment, Element, Expression, Operated, Yield};
pub use operators::{
    And, Await, BitAnd, BitOr, BitXor, Equality, Level, Power, Prefix, PrivateIn, Product,
    Relation, RightOperand, Shift, Sum, Unary, Update,
};
pub use primary::{ArrayLiteral, ObjectLiteral, Primary, Spread, Template};
pub use targets::{Head, HeadPattern, InnerPattern, PatternElement, Target};
