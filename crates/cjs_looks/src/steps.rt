//! What a fact of CommonJS adds to what is found, by the looks of its parts.
//!
//! - `bind`: a name that is bound to a module (`bind`, `cjs_facts`'s `specs/steps/Exports.antt`).
//! - `star`: `__exportStar(a)` (`starred`).
//! - `set_key`, `set_exports`: assignments to members of `exports`, and to it (`key_found`, `required_found`).
//! - `exports_like`, `is_exports`, `is_exports_object`, `is_define`, `is_star`, `says`: what looks are.
//! - `name_value`, `string_value`, `plain_value`, `module_value`: what names and strings say.

mod values;
mod vars;

pub use values::{
    exports_like, is_define, is_exports, is_exports_object, is_star, name_value, plain_value, says,
    string_value,
};
pub use vars::{bind, module_value, set_exports, set_key, star, var_value};
