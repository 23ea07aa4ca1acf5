//! The text of a source with other specifiers.
ghost use Rattle.std.specs.Prelude.{◌≡◌, IfOk, string_bytes};
ghost use Rattle.source_text.specs.text_changes.Changes.{changed};
ghost use Rattle.deno_ast.specs.Parsed.{parsed_sites};
ghost use Rattle.specifier_edits.specs.Edits.{NamesLiterals, edits, ReadsMoved, KeepsTexts, CutsSpecifiers, KeepsSites};
ghost use Rattle.specifier_rewriting.specs.Own.{IsOwnTree};

use deno_ast::ParsedSource;
use specifier_edits::rewrite_sites;
use std::alloc::{AllocError, Global};

/// The source's text with other specifiers at these of its sites: the number of each, from 0, with its new specifier. A new
/// literal is in double quotes; all else stays as it is.
#[tactic(auto, using(crate::proofs::Theorems::own_sites))]
pub fn rewrite_specifiers(
    alloc: Global,
    source: &ParsedSource,
    changes: &[(usize, String)],
) -> Result<String, AllocError>
    // The source's tree is that of its text: no function has changed it.
    requires tree { IsOwnTree source.now }
    // The numbers ascend strictly, and each is that of a literal.
    requires numbers { NamesLiterals (parsed_sites source.now) 0 changes.now }
    // The new text is the old one with the new literals in the places of these sites.
    ensures text { IfOk result (λ new.
        string_bytes new ≡ changed source.now.text 0 (edits (parsed_sites source.now) changes.now)) }
    // It is read as the tokens and comments of the old one, moved.
    ensures read { IfOk result (λ new.
        ReadsMoved source.now.text (edits (parsed_sites source.now) changes.now) (string_bytes new)) }
    // All other tokens keep their texts.
    ensures texts { IfOk result (λ new.
        KeepsTexts source.now.text (edits (parsed_sites source.now) changes.now) (string_bytes new)) }
    // Where a site moved to, there is a literal of its new specifier.
    ensures cuts { IfOk result (λ new. CutsSpecifiers (parsed_sites source.now) changes.now (string_bytes new)) }
    // Wherever the old one is read as a tree, it is read as this tree, moved, with the new literals; so its sites are the
    // old ones, moved. Those in comments stay.
    ensures sites { IfOk result (λ new.
        KeepsSites source.now.text (parsed_sites source.now) changes.now (string_bytes new)) }
{
    let sites = source.sites(alloc)?;
    rewrite_sites(alloc, source.text().as_str(), sites.as_slice(), changes)
}
