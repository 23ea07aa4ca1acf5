//! Typed views of statements, classes, declarations and parameters, one level at a time.
#![tactic(auto)]

pub mod class;
pub mod decl;
pub mod param;
pub mod stmt;
