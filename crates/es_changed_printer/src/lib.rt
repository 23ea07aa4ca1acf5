//! The printed text of a changed row.
//!
//! - `print_changed`: what is kept and changed is printed by its tokens, each as the innermost node around it says; what no text
//!   has by its own spelling (`printed`, `specs/Pieces.antt`).
#![tactic(auto)]

mod form;
mod program;
mod rows;
mod signs;
mod walk;

pub use program::print_changed;
pub use signs::Place;
