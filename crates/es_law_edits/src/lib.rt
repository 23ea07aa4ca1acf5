//! Laws alone: the tokens, the sites and the tree of a text after string literals were replaced.
//!
//! `sites`: Other string literals in the places of some of a text's own leave its sites (`es_site`): laws, and no code.
//!
//! - `sites_move` (`proofs/sites/Theorems.antt`): a text whose tokens derive a tree derives one with the changes, in the same
//! language and mode, and its sites are the old ones: kinds and type-only marks stay, ranges have moved, and values are the
//! old ones but where a literal has changed. Attributes stay where all changes are of sites.
//! - `none_derives`: where the old tokens derive none, the new ones derive none.
//!
//! `tokens`: Other string literals in the places of some of a text's own leave its tokens and comments: laws over the lexer
//! (`es_lexer`), and no code.
//!
//! - `literals_move` (`proofs/tokens/Theorems.antt`): the text with the changes (`source_text::text_changes`) is read as the old tokens and
//! comments, moved; the tokens have the keys of the old ones, and stand for their texts, but where these have changed.
//! - `text_moves`, `reads_only_str`, `changes_apply`, `changes_pass`: each token's text; a token that is spelled as a string
//! literal is one; the changes are in order, and none is faulty.
//!
//! `trees`: A text with other string literals in the places of some of its own has the old tree, with these values changed and all
//! places moved: laws over `es_law_edits::tokens` and `es_law_edits::moved`, and no code.
//!
//! `moved`: The typed tree of a text of which some string literals have others in their places: the old tree with these values
//! changed and all places moved. Definitions and laws, and no code.
//!
//! `moved_lowering`: What a plain tree becomes moves with the places and the texts of its tokens: laws over `es_lowering`, and no code.
//!
//! - `value_moves` (`proofs/moved_lowering/Trees.antt`): over the tokens of two texts, of which the second has others in the places of some
//! string literals of the first, a plain tree is the same nodes, moved.
#![tactic(auto)]
