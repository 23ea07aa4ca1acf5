//! What a module knows of its own names, for its declarations: names whose types may be asked for by `typeof`, classes
//! without type parameters, and names of arrays; read from a row of entries, with the numbers of scopes beside it.
#![tactic(auto)]

mod decls;
mod forms;
mod ids;
mod known;
mod literals;
mod types;

pub use decls::decl_sets;
pub use forms::is_function;
pub use known::{Flags, Known};
pub use literals::is_array_literal;
pub use types::is_array_type;
