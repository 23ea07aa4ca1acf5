//! Parts of declarations: parameters, and what stands of functions.
#![tactic(auto)]

mod annotations;
mod functions;
mod lists;
mod params;
mod patterns;

pub use annotations::{any_group, end_in, end_of, kept_group};
pub use functions::{plain_function, typed_function};
pub use lists::param_list;
pub use params::param;
pub use patterns::own_pattern;
