//! Typed views of calls and members: the parts along a chain, one at a time.
//!
//! - `Call`, `call_at`: chains, `new`, `super`, `import()`, `import.meta`, `new.target`.
//! - `Post`, `post_at`: a further part of a chain.
//! - `Args`, `args_at`: arguments.

mod args;
mod call;
mod post;

pub use args::{Args, args_at};
pub use call::{Call, call_at};
pub use post::{Post, post_at};
