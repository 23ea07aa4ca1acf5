//! Patterns of parameters as patterns in types, written into a draft: defaults go, and so do properties whose keys no type has.
//!
//! - `pattern`: a pattern as it stands.
//! - `whole_pattern`: one that may have `?` or a type after it, over all up to there.
//! - `name_pattern`: a name alone.
#![tactic(auto)]

mod keys;
mod names;
mod patterns;
mod whole;

pub use names::name_pattern;
pub use patterns::pattern;
pub use whole::whole_pattern;
