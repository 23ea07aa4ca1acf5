//! The numbers of a program's names, from the marks of its scopes and names (`es_scopes`).

mod declared;
mod ids;
mod opened;
mod tops;

pub use ids::scope_ids;
