//! The next node that can name a module: by a loop over the entries.

ghost use Rattle.std.specs.Prelude.{◌≡◌, false, MatchOption};
ghost use Rattle.es_tree_sites.specs.Named.{names_module, may_name, any_may_name, Unnamed};

use es_grammar::NodeKind as Kind;
use es_syntax::{Entry, What};

/// A node of this alternative can name a module by itself.
#[inline(always)]
fn names_module(label: Kind) -> bool
    ensures { result ≡ names_module label }
{
    matches!(
        label,
        Kind::BareImport
            | Kind::FromImport
            | Kind::SourceImport
            | Kind::DeferImport
            | Kind::RequireImport
            | Kind::ExportedRequireImport
            | Kind::ExportAll
            | Kind::ExportNames
            | Kind::ImportCall
            | Kind::SourceCall
            | Kind::DeferCall
    )
}

#[inline(always)]
fn may_name(what: What) -> bool
    ensures { result ≡ may_name what }
{
    matches!(what, What::Node(label) if names_module(label))
}

/// How many entries precede the first that can name a module; none where no entry can.
pub fn first_named(entries: &[Entry]) -> Option<usize>
    ensures { MatchOption result (any_may_name entries.now ≡ false) (λ n. Unnamed n entries.now) }
{
    let mut row = entries;
    while let Some((entry, behind)) = row.split_first() {
        if may_name(entry.what) {
            return Some(entries.len() - row.len());
        }
        row = behind;
    }
    None
}
