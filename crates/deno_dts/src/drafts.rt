//! Drafts of the declarations of programs.

ghost use Rattle.std.specs.Prelude.{◌≡◌, false, IfOk};
ghost use Rattle.es_lexer.specs.Reads.{ReadsTokens};
ghost use Rattle.es_lowering.specs.Value.{part};
ghost use Rattle.es_syntax.specs.Held.{held};
ghost use Rattle.es_syntax.specs.Roles.{program_in};
ghost use Rattle.deno_dts.specs.Drafted.{Drafted, DraftedWith, HasSets};

use dts_draft::Draft;
use dts_items::declared_program;
use dts_members::RangeSet;
use dts_module_sets::module_sets;
use dts_names::Env;
use dts_sets::Known;
use es_syntax::Siblings;
use es_token::Token;
use es_variables::ScopeIds;
use std::alloc::{AllocError, Global};

/// The draft of the program that is first in a row, whose module has these sets.
fn drafted_with(
    alloc: Global,
    env: &Env<'_>,
    ranges: &RangeSet,
    made: u32,
    row: &Siblings<'_>,
) -> Draft
    requires { ReadsTokens env.now.text.now env.now.tokens.now }
    ensures { result.failed ≡ false → DraftedWith env.now ranges.now made result (program_in (part (held env.now.text.now env.now.tokens.now row.now.entries.now) 0)) }
{
    let found = Vec::new(alloc);
    let mut draft = Draft::new(alloc, found, made);
    declared_program(&mut draft, env, ranges, row);
    draft
}

/// The sets of the program that is first in a row; out of memory, or of no program, they have failed.
fn sets_of(
    alloc: Global,
    text: &str,
    tokens: &[Token],
    numbers: &ScopeIds,
    row: &Siblings<'_>,
) -> Result<Known, AllocError>
    requires { ReadsTokens text.now tokens.now }
    ensures { IfOk result (λ known. HasSets text.now tokens.now numbers.now known (program_in (part (held text.now tokens.now row.now.entries.now) 0))) }
{
    match row.part(0) {
        Some(first) => {
            let known = module_sets(alloc, text, tokens, numbers, &first);
            if known.failed {
                return Err(AllocError);
            }
            Ok(known)
        }
        None => Err(AllocError),
    }
}

/// The draft of the declarations of the program that is first in a row; so many names were made before.
pub(crate) fn drafted(
    alloc: Global,
    text: &str,
    tokens: &[Token],
    numbers: &ScopeIds,
    ranges: &RangeSet,
    unresolved: u32,
    made: u32,
    row: &Siblings<'_>,
) -> Result<Draft, AllocError>
    requires { ReadsTokens text.now tokens.now }
    ensures { IfOk result (λ draft. draft.failed ≡ false → Drafted text.now tokens.now numbers.now ranges.now unresolved made draft (program_in (part (held text.now tokens.now row.now.entries.now) 0))) }
{
    let known = sets_of(alloc, text, tokens, numbers, row)?;
    let env = Env {
        text,
        tokens,
        ids: numbers,
        known: &known,
        unresolved,
    };
    Ok(drafted_with(alloc, &env, ranges, made, row))
}
