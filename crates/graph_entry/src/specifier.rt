//! Specifiers: which of them a loader is asked for.
ghost use Rattle.std.specs.Prelude.{◌≡◌};
ghost use Rattle.graph_entry.specs.Specifier.{text_of, loadable};

use lexical_path::begins;
use url::Url;

/// Whether a loader is asked for it: the scheme is none of `data`, `npm` and `jsr`.
#[tactic(auto, unfolding(crate::specs::Specifier::text_of, crate::specs::Specifier::loadable))]
pub fn is_loadable(specifier: &Url) -> bool
    ensures { result ≡ loadable (text_of specifier.now) }
{
    let text = specifier.as_str();
    !(begins(text, "data:") || begins(text, "npm:") || begins(text, "jsr:"))
}
