//! Laws alone: where string literals and import sites are in a tree.
//!
//! `literal_places`: Where string literals are in a plain tree of the table of programs (`es_grammar`): laws, and no code.
//!
//! - `strs` (`proofs/literal_places/Theorems.antt`): after `from`, in `import "a"`, in `require("a")` and where an expression, a key or a
//! type is a string literal, the token that is kept is one.
//!
//! `plain`: The sites of a program from its plain tree, and the law that they are those of its typed tree: no code.
//!
//! - `plain_sites` (`specs/plain/Own.antt`): a line for each alternative of the table of programs whose nodes have sites in them
//! or are sites themselves.
//! - `derived_sites` (`proofs/plain/Theorems.antt`): the sites of a tree that is derived from tokens (`sites_of` of `es_site`)
//! are those of the plain tree that is kept of it.
//!
//! `shapes`: What the parts of each node of a plain tree look like: laws over the table of programs (`es_grammar::types`), and no code.
//!
//! - `row_formed` (`proofs/shapes/FormedLemmas.antt`): whatever the table, each node of a tree has the form of one of its alternatives.
//!
//! `ranges`: The sites (`es_site`) of what plain trees become (`es_lowering`) cut their literals: laws, and no code.
#![tactic(auto)]
