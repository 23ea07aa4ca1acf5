//! Further forms in which a program names another module, each by choice: calls of `require` (Node.js, "Modules: CommonJS
//! modules"), types of other modules (the handbook of TypeScript), workers and addresses (WHATWG HTML, "Workers" and
//! "import.meta.resolve").
//!
//! - `form_sites(alloc, text, tokens, row, chosen)`: exactly the sites of `forms_in` (`specs/Forms.antt`), in the order of
//!   the text. No scope around declares the names `require`, `Worker`, `SharedWorker` and `URL` of such a
//!   form; a name that is made by `createRequire` is as good as `require`.
#![tactic(auto)]

mod chosen;
mod finding;
mod given;
mod plan;
mod program;
mod steps;

pub use chosen::Forms;
pub use program::form_sites;
