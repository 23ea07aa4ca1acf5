//! What resolves specifiers: the URL Standard, or a caller's own.
//!
//! - `Resolver`: what a text leads to from a referrer, as its meaning says (`Resolving`, `specs/Resolver.antt`).
//! - `DefaultResolver` resolves as `resolve_import` of `file_url` does (`default_resolving`).
//!
//! Running out of memory is the one answer without a cause.
#![tactic(auto)]

mod resolver;

pub use resolver::{DefaultResolver, ResolveFault, Resolver};
