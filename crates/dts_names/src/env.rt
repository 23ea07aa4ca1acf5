//! What declarations of a program are made from.

use dts_sets::Known;
use es_token::Token;
use es_variables::ScopeIds;

/// The text of a program, its tokens, the numbers of its names, and what it knows of them.
#[derive(Clone, Copy)]
pub struct Env<'a> {
    pub text: &'a str,
    pub tokens: &'a [Token],
    pub ids: &'a ScopeIds,
    pub known: &'a Known,
    /// The number of names that nothing declares.
    pub unresolved: u32,
}
