//! Laws of the declarations of programs, no code.
//!
//! - `program_appends` (`proofs/Theorems.antt`): a step only appends to the diagnostics that there are, and what it answers does not
//! depend on them.
//! - `imports_stay`: the imports of a module and what it exports from others stay, in order and unchanged.
#![tactic(auto)]
