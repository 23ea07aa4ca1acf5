//! Keys of members of classes as declarations have them, written into a draft.
//!
//! - `MemberKey`, `member_key`: what a key becomes, looked at through brackets; or none, and the member goes.
//! - `is_dropped`, `write_key`: whether it goes, and the key.
#![tactic(auto)]

mod further;
mod keys;
mod looks;
mod symbols;

pub use keys::{MemberKey, is_dropped, member_key, write_key};
