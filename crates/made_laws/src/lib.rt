//! What the texts of bundles made by number (`made_bundle`) are read as: laws, and no code.
//!
//! - `made_length`, `made_utf8`, `made_read`: the text is short enough, UTF-8, and the JSON text of `made_value`.
//! - `specifier_read`, `import_read`, `import_unread`: the URLs of modules, and where an import leads.
//! - `no_comments`, `literal_of`, `import_value`: what a range cuts from a module's text.
//!
//! `graph`: The graphs of bundles made by number (`made_bundle`): laws, and no code.
//!
//! - `made_json`, `made_says` (`proofs/graph/Theorems.antt`): the text of a made bundle is a JSON text that says `bundle_at`.
//! - `reached_listed`: nothing but its modules is reached, whatever edges are followed.
#![tactic(auto)]
