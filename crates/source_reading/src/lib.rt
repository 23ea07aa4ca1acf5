//! What the reading of a source is: the sites where it names other modules, or its fault. Definitions and laws, and no code.
//!
//! - `HasSites`, `IsFaulty` (`specs/Read.antt`): the sites of a text of a media type, over the one typed tree that is derived
//!   from its tokens in the first mode that derives one (`specs/Tree.antt`); or why it is no program.
//! - `IsFaultAt`, `Refuses` (`specs/Fault.antt`): the same fault as it is reported.
//! - `one_sites`, `one_fault_of`, `sites_or_fault`, `sites_cut` (`proofs/Theorems.antt`): a text has one list of sites or one
//!   fault at most, and never both; each site cuts its value (`Cuts`, `specs/Cuts.antt`).
//!
//! `source_sites` reads sources so. What depends on this crate alone needs no reader of the grammar.
#![tactic(auto)]
