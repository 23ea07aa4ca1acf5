//! The items of a program, as its row of entries holds them.
//!
//! - `module_body`, `script_body`: the items of a program that is lent (`items_left`, `specs/items/Lent.antt`); `Body`, an iterator
//!   over them; `first_item`: the first of them and the rest.
//! - `ModuleItemRef`: an import or an export, or a statement: a node with its text and its tokens. Its `span`, and `told`: what
//!   it says of its module.
//! - `tells_script`: whether the items of a module say that it is a CommonJS module.

mod body;
mod item;
mod items;
mod place;
mod reading;

pub use body::Body;
pub use item::{ModuleDeclRef, ModuleItemRef, StmtRef};
pub use items::{first_item, module_body, script_body, tells_script};
pub use place::Place;
