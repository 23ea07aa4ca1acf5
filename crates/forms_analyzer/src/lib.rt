//! An analyser by which further forms of naming a module are edges too, those that are chosen, and by choice forms are read that
//! a media type's own language leaves out.
//!
//! - `FormsAnalyzer`: reads exactly the sites of a source, after them those of the forms that are chosen, or its
//!   first fault, in the language of its media type; with `all_forms`, where it is no program there, in `full_language`
//!   (`ReadsBy`, `specs/Forms.antt`).
//! - `read_forms(alloc, specifier, text, chosen, lang, media_type)`: the same of a text at hand, in a language.
//!
//! A source is read as one thing at most (`reads_by_once`, `specs/Laws.antt`), and each site cuts
//! its literal (`reads_by_cuts`, `proofs/Theorems.antt`).
//! Not promised: the range of a `Syntax` fault, and when memory runs out.
#![tactic(auto)]

mod analyzer;
mod forms;
mod language;
mod tree;

pub use analyzer::FormsAnalyzer;
pub use es_forms::Forms;
pub use forms::read_forms;
