//! The places where a program names other modules, and which of them a typed tree has: definitions, and no walk.
//!
//! - `Site`, `DependencyKind`, `Attribute`: what describes each place.
//! - `sites_of` (`specs/Sites.antt`): the sites of a typed tree, in the order of the text: the string literal of each
//!   import, each export that has a `from`, each `import a = require("a")`, and each `import()` whose first argument is
//!   a string literal, anywhere in the tree. `specs/Attributes.antt`: the attribute of each.
//! - `CutsLiteral` (`specs/Sites.antt`): the range cuts from the text a string literal whose value is the value. It
//!   holds of each site of a tree that was read from a text.
//!
//! `es_tree_sites` finds the same sites in the plain tree.
//! Not promised: what `Debug` writes.
#![tactic(auto)]

mod site;

pub use site::{Attribute, DependencyKind, Site};
