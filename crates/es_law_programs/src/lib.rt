//! Laws alone: programs have typed trees, with the sites of their trees; scripts and modules agree.
//!
//! `both_items`: The items of tokens that are read both as a script and as a module: laws, and no code.
//!
//! - `same_items` (`proofs/both_items/Theorems.antt`): the items of the module are the statements of the script.
//!
//! `both_modes`: The tree of a script and the tree of a module over the same keys: laws over the table of programs (`es_grammar`), and no code.
//!
//! - `same_parts` (`proofs/both_modes/Theorems.antt`): keys that have a tree both as a script and as a module have the same parts in both.
//!
//! `both_sites`: The sites (`es_site`) of tokens that are read both as a script and as a module: laws, and no code.
//!
//! - `same_sites` (`proofs/both_sites/Theorems.antt`): the trees of both modes have the same sites.
//! - `derives_or_not` (`proofs/both_sites/Theorems.antt`): whether tokens have a tree, in a language and a mode, is decided.
//!
//! `total`: What has the shape of a program over the keys of tokens has a typed tree (`es_lowering`): a law, and no code.
//!
//! `sites`: What the reader of programs keeps of a text has a typed tree, whose sites are those of the plain tree: a law, and no code.
//!
//! - `kept_sites` (`proofs/sites/Theorems.antt`): the typed tree that is derived from the tokens, and that its sites are
//! `plain_sites` of what is kept.
#![tactic(auto)]
