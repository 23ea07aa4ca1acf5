//! Typed views of expressions, calls, functions, patterns and members, one level at a time.
#![tactic(auto)]

pub mod call;
pub mod expr;
pub mod function;
pub mod member;
pub mod operator;
pub mod pattern;
