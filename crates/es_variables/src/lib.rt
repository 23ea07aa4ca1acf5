//! The variables of a program: names with the numbers of their scopes, how each is bound, and what encloses it.
//!
//! - `ScopeIds`: the numbers of a program's names, by their tokens.
//! - `Scope`: what a program declares, with its look-ups.
//! - `Ident`: an occurrence of a name in a text, with its number.
#![tactic(auto)]

mod analysis;
pub mod declarations;
mod ident;
mod ids;
mod scope;
pub mod scope_analysis;
pub mod scope_numbers;
mod table;

pub use crate::scope_analysis::{BindingKind, Id, ScopeKind, Var};
pub use ident::{Ident, ident_at};
pub use ids::ScopeIds;
pub use scope::Scope;
