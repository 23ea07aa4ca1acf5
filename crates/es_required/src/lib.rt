//! The names that a program declares as `const r = createRequire(..)`, by the function `createRequire` that it imports from
//! `node:module` (Node.js, "Modules: node:module API"): a call of one is a call of `require`.
//!
//! - `required_marks(alloc, text, tokens, row)`: exactly the marks of `marks` (`specs/Required.antt`).
//! - `Required::is_required(at)`: whether such a name is declared by them (`is_required`).
#![tactic(auto)]

mod given;
mod making;
mod plan;
mod program;
mod required;
mod steps;

pub use program::required_marks;
pub use required::Required;
pub use steps::Mark;
