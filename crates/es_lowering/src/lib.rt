//! What the typed tree of a plain tree of programs of both languages is: a definition, and no code (`specs/Lowering.antt`).
//!
//! `derives`: When a typed tree (`es_ast`) is derived from the tokens of a text, by the table of programs (`es_grammar::types`): a definition and
//! its laws, and no code.
//!
//! - `Derives` (`specs/derives/Derives.antt`): there is a plain tree of a program over the tokens' keys, and the tree that is kept of it
//! becomes this one.
//! - `one_tree` (`proofs/derives/Theorems.antt`): tokens have at most one.
#![tactic(auto)]
