//! Typed views of members of types in braces, and of parameters of types of functions.
//!
//! - `TypeMember`, `member_at`: members.
//! - `TypeKey`, `key_at`: keys.
//! - `TypeFnParam`, `param_at`: parameters.
//! - `TypeFnParams`, `params_at`: lists of parameters.
//! - `TypePat`, `pat_at`: patterns.
//! - `TypeProp`, `prop_at`: properties of patterns.

mod key;
mod member;
mod param;
mod params;
mod pat;
mod prop;

pub use key::{TypeKey, key_at};
pub use member::{TypeMember, member_at};
pub use param::{TypeFnParam, param_at};
pub use params::{TypeFnParams, params_at};
pub use pat::{TypePat, pat_at};
pub use prop::{TypeProp, prop_at};
