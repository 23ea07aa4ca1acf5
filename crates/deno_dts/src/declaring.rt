//! The declarations of a program, with what couldn't be determined of it.

ghost use Rattle.std.specs.Prelude.{◌≡◌, false, [], Some, IfOk, OnOk};
ghost use Rattle.dts_rules.specs.Programs.{declared};
ghost use Rattle.dts_rules.specs.Sets.{Numbers};
ghost use Rattle.dts_sets.specs.Ids.{Numbered};
ghost use Rattle.deno_dts.specs.Declarations.{declarations_in};
ghost use Rattle.deno_dts.specs.Drafted.{env_with, state_after};
ghost use Rattle.deno_dts.specs.Transformed.{state_of_declared};

use crate::declarations::Declarations;
use crate::drafts::drafted;
use crate::public_ranges::ModulePublicRanges;
use base::Items;
use dts_draft::Draft;
use dts_rules::Found;
use es_program::Program;
use es_variables::ScopeIds;
use std::alloc::{AllocError, Global};

/// The declarations of a program, what couldn't be determined, in the order in which it was found, and how many names were made.
#[derive(Drop)]
pub struct Declared {
    pub declarations: Declarations,
    pub found: Items<Found>,
    pub made: u32,
}

/// The declarations of a program, whose names have these numbers; a name with the number `unresolved` is declared nowhere. So many
/// names were made before.
pub fn declare(
    alloc: Global,
    program: &Program,
    numbers: &ScopeIds,
    ranges: &ModulePublicRanges,
    unresolved: u32,
    made: u32,
) -> Result<Declared, AllocError>
    ensures tree { IfOk result (λ it. (number : Numbers) → Numbered program.now.tokens numbers.now number
        → declarations_in it.declarations ≡ Some (declared (env_with number unresolved ranges.now) program.now.typed (state_after [] made)).0) }
    ensures found { IfOk result (λ it. (number : Numbers) → Numbered program.now.tokens numbers.now number
        → state_of_declared it ≡ (declared (env_with number unresolved ranges.now) program.now.typed (state_after [] made)).1) }
    ensures text { IfOk result (λ it. it.declarations.text ≡ program.now.text) }
    ensures tokens { IfOk result (λ it. it.declarations.tokens ≡ program.now.tokens) }
    ensures numbers { IfOk result (λ it. it.declarations.numbers ≡ numbers.now) }
{
    let (text, tokens, row) = program.parts();
    let draft = drafted(
        alloc,
        text,
        tokens,
        numbers,
        ranges.set(),
        unresolved,
        made,
        &row,
    )?;
    finished(program.copy()?, numbers.copy()?, draft)
}

/// What a draft of these declarations holds; a draft that failed is reported as out of memory.
fn finished(program: Program, numbers: ScopeIds, draft: Draft) -> Result<Declared, AllocError>
    ensures failed { OnOk result (draft.failed ≡ false) }
    ensures found { IfOk result (λ it. it.found ≡ draft.found.items) }
    ensures made { IfOk result (λ it. it.made ≡ draft.made) }
    ensures row { IfOk result (λ it. it.declarations.entries ≡ draft.row) }
    ensures text { IfOk result (λ it. it.declarations.text ≡ program.text) }
    ensures tokens { IfOk result (λ it. it.declarations.tokens ≡ program.tokens) }
    ensures numbers { IfOk result (λ it. it.declarations.numbers ≡ numbers) }
{
    let Draft {
        row,
        found,
        made,
        failed,
    } = draft;
    if failed {
        return Err(AllocError);
    }
    Ok(Declared {
        declarations: Declarations::new(program, numbers, row.into_entries()),
        found: Items::from_vec(found),
        made,
    })
}
