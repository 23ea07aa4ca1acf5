//! What a walk has at hand.

ghost use Rattle.es_variables.specs.scope_numbers.Cuts.{IsCut};

use crate::chosen::Forms;
use es_required::Mark;
use es_token::Token;
use es_variables::ScopeIds;
use std::alloc::Global;

/// A text, its tokens, which cut it between characters, the numbers of its names, what is chosen,
/// and the marks of names that are made by `createRequire`.
#[derive(Clone, Copy)]
pub struct Finding<'a> {
    pub alloc: Global,
    pub text: &'a str,
    pub tokens: &'a [Token],
    pub ids: &'a ScopeIds,
    pub chosen: Forms,
    pub marks: &'a [Mark],
    pub ghost cut: { IsCut text.now tokens.now },
}
