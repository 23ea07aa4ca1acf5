//! One walk over the tree that a row of entries is (`es_syntax`): what an analysis meets, by the steps that it has for the
//! nodes of each alternative. An alternative without steps of its own has those of the default, such as "all nodes of the
//! parts".
//!
//! - `Walk`: an analysis. Its ghost member `rules` is what it means; the clauses of its methods say that they compute it.
//! - `Step`, `Path`: what is done at a node, and where its parts are.
//! - `walk`, `walk_first`: exactly what the rules meet in a tree (`walked`, `specs/Walk.antt`).
//! - `number_at`, `own_at`, `has_parts`, `has_second`, `node_at`: what `leads` and `act` may ask of the parts of a node.
#![tactic(auto)]

mod analysis;
mod levels;
mod looks;
mod questions;
mod rows;
mod step;

pub use analysis::Walk;
pub use levels::{walk, walk_first};
pub use questions::{has_parts, has_second, node_at, number_at, own_at};
pub use rows::split_trees;
pub use step::{Path, Step};
