//! Typed views of parameters: which form a node has, with its parts in place.
//!
//! - `Param`, `param_at`: parameters.
//! - `Params`, `params_at`: lists of parameters.
//! - `Signature`, `signature_at`: signatures of TypeScript.

mod param;
mod params;
mod signature;

pub use param::{Param, param_at};
pub use params::{Params, params_at};
pub use signature::{Signature, signature_at};
