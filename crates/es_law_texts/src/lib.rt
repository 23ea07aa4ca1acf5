//! Laws alone: the sites of a text's tree cut their literals, and ascend.
//!
//! `site_order`: The order of the sites (`es_site`) of a tree that is derived by the table of programs (`es_lowering::derives`): laws, and no code.
//!
//! - `derives_stand` (`proofs/site_order/Theorems.antt`): each site of a derived tree has the range of a token of its own, in the order of
//! the tokens.
//! - `derives_ascend`: the sites of a tree that is derived from the tokens of a text ascend: none is empty, and each ends where
//! any later one starts, or before.
//!
//! `sites`: The sites (`es_site`) of a tree that is derived by the table of programs (`es_lowering::derives`): laws, and no code.
//!
//! - `derives_cuts` (`proofs/sites/Theorems.antt`): each site of a derived tree cuts its literal from the text.
#![tactic(auto)]
