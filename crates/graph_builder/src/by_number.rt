//! Values by numbered specifiers, which contracts read by the specifiers' texts.
ghost use Rattle.std.specs.Prelude.{◌≡◌, ◌<◌, ◌^◌, None, Some, [], ◌∷◌, ◌++◌, length, bytes_eq, IfSome, OnOk, OnErr};
ghost use Rattle.std.specs.Option.{option_copied};
ghost use Rattle.std.specs.List.{IsDistinct};
ghost use Rattle.graph_entry.specs.Specifier.{text_of};
ghost use Rattle.graph_builder.specs.Reach.{Specifier};
ghost use Rattle.graph_builder.specs.ByText.{value_at, keys_at, number_of};

use graph_tables::specifier_table::Numbered;
use std::alloc::AllocError;
use url::Url;

/// How many specifiers there are.
#[tactic(auto, unfolding(graph_entry::specs::Specifier::text_of))]
pub fn count<V: Drop>(all: &Numbered<V>) -> usize
    ensures len { result ≡ length all.now }
    ensures small { result < 2 ^ 63 }
    ensures once { IsDistinct bytes_eq (keys_at all.now) }
{
    all.len()
}

/// The number of a specifier.
#[tactic(auto, unfolding(graph_entry::specs::Specifier::text_of))]
pub fn number<V: Drop>(all: &Numbered<V>, url: &Url) -> Option<usize>
    ensures value { result ≡ number_of all.now (text_of url.now) }
    ensures within { IfSome result (λ n. n < length all.now) }
{
    all.number(url)
}

/// The value of a specifier.
pub fn find<'a, V: Drop>(all: &'a Numbered<V>, url: &Url) -> Option<&'a V>
    ensures { option_copied result ≡ value_at all.now (text_of url.now) }
{
    match number(all, url) {
        Some(number) => all.value(number),
        None => None,
    }
}

/// Gives the next number to a specifier that has none.
#[tactic(auto, unfolding(graph_entry::specs::Specifier::text_of))]
pub fn add<V: Drop>(all: &mut Numbered<V>, url: Url, value: V) -> Result<(), AllocError>
    requires new { number_of all.old (text_of url) ≡ None }
    ensures ok { OnOk result (all.new ≡ all.old ++ (url, value) ∷ []) }
    ensures err { OnErr result (all.new ≡ all.old) }
{
    all.push(url, value)
}
