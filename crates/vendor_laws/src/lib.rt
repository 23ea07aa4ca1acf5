//! What the bundle that is written of a plan (`vendor_report`) is read as: laws, and no code.
//!
//! - `plan_read`, `plan_says` (`proofs/Theorems.antt`): the text of a plan's bundle is a JSON text that says `bundle_at`.
//! - `written`: the graph of that bundle is the graph that was planned, without its redirects, renamed (`IsWritten`,
//!   `specs/Bundle.antt`).
//! - `done_written`: so it is of what is due with status 0 (`IsDone`, there too).
#![tactic(auto)]
