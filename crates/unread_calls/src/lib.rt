//! Calls that may load a module and for which a graph has no edge, determined by the tokens of a source alone.
//!
//! - `unread_calls(tokens)`: each `import(..)` whose first argument is no string literal, and each `require(..)`, in the
//!   order of the text (`unread_of`, `specs/Unread.antt`).
//!
//! A name isn't looked up: a `require` that the source declares itself counts like any. Each token is looked at once, with
//! a few around it; memory is the only cause of an `Err`.
#![tactic(auto)]

mod around;
mod call;
mod kinds;

pub use crate::call::{Loader, UnreadCall, unread_calls};
