//! The printed text of a program (`print`), straight from its tree in a row of entries.
#![tactic(auto)]

mod draft;
mod ink;
mod made;
mod page;
mod piece;
mod program;
mod rows;
mod sheet;
mod stand;
mod style;
mod walk;

pub use draft::Draft;
pub use made::Made;
pub use page::Page;
pub use piece::{Last, Left, Piece, Right, Source, Stand};
pub use program::{print, print_with};
pub use sheet::{before, behind, up_to};
pub use style::{Ends, Style, style_of};
