//! Laws alone: brackets among tokens, and where a token's text may be cut.
//!
//! `brackets`: The brackets among the tokens of a reading: laws over `es_lexer`, and no code.
//!
//! - `reads_closer` (`proofs/brackets/Theorems.antt`): the partner of a closing token precedes it, opens, and has it for its
//! own partner.
//! - `reads_nested`: a token between two partners that has a partner has it between them too.
//!
//! `ranges`: Where the text of a token may be cut besides at its ends: laws over the lexer (`es_lexer`), and no code.
//!
//! - `reads_private`, `reads_shebang`, `reads_piece` (`proofs/ranges/Theorems.antt`): after `#` of a private name, after `#!`, after
//! the first byte of a piece of a template and before its end, the text is cut between characters.
#![tactic(auto)]
