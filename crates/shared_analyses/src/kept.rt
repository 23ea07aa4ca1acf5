//! What a slot keeps: a pair, with what it means.
ghost use Rattle.std.specs.Prelude.{◌≡◌, Some, IfOk};
ghost use Rattle.graph_entry.specs.Specifier.{text_of};
ghost use Rattle.graph_entry.specs.Analysed.{Analysed};

use deno_graph::analyzer::analyse;
use graph_entry::{Entry, LoadAnswer};
use std::alloc::{AllocError, Global};
use url::Url;

/// The entry of a specifier, beside the answer that it is of.
#[derive(Drop)]
pub struct Kept {
    pub specifier: Url,
    pub answer: LoadAnswer,
    pub entry: Entry,
    ghost right: { ∥ Analysed (text_of specifier) (Some answer) entry ∥₁ },
}

/// Analyses the answer.
pub fn keep(alloc: Global, specifier: &Url, answer: &LoadAnswer) -> Result<Box<Kept>, AllocError>
    ensures specifier { IfOk result (λ b. b.value.specifier ≡ specifier.now) }
    ensures answer { IfOk result (λ b. b.value.answer ≡ answer.now) }
{
    let entry = analyse(alloc, specifier, answer.copy()?)?;
    Ok(Box::new(
        alloc,
        Kept {
            specifier: specifier.clone()?,
            answer: answer.copy()?,
            entry,
        },
    )?)
}
