//! The URLs that reading writes.
ghost use Rattle.std.specs.Prelude.{◌≡◌, ◌↔◌, IsTrue};
ghost use Rattle.url.specs.Parts.{host_or_empty, IsValid};
ghost use Rattle.url.specs.Path as path;
ghost use Rattle.file_url.specs.canonical_url.OwnText.{ReadsAsItself};
ghost use Rattle.file_url.specs.canonical_url.Steps as spec;

use url::{Host, Url};

/// Whether the text of the URL, read by itself, is this URL (URL Standard, "URL serializing", "URL parsing").
#[tactic(auto, using(crate::proofs::canonical_url_lemmas::CanonicalLemmas::read_or_not))]
pub fn reads_as_itself(url: &Url) -> bool
    ensures { IsTrue result ↔ ReadsAsItself url.now }
{
    is_canonical(url)
}

#[tactic(auto, using(crate::proofs::canonical_url_lemmas::CanonicalLemmas::file_test))]
fn is_canonical(url: &Url) -> bool
    ensures value { result ≡ spec.is_canonical url.now }
    ensures valid { IsValid url.now }
{
    if url.scheme() == "file" {
        is_canonical_file(url)
    } else {
        url.is_special() || is_canonical_other(url)
    }
}

fn is_canonical_file(url: &Url) -> bool
    ensures { result ≡ spec.is_canonical_file url.now }
{
    !is_on_localhost(url) && !begins_with_bar_drive(url.path().as_bytes())
}

fn is_on_localhost(url: &Url) -> bool
    ensures { result ≡ spec.is_on_localhost (host_or_empty url.now) }
{
    match url.host_str() {
        Some(host) => host == "localhost",
        None => false,
    }
}

// The first segment of a path is a letter and `|`, for which reading writes `:`.
#[tactic(auto, using(crate::proofs::canonical_url_lemmas::CanonicalLemmas::bar_test))]
fn begins_with_bar_drive(path: &[u8]) -> bool
    ensures { result ≡ spec.begins_with_bar_drive path.now }
{
    match path {
        [_, letter, b'|'] => letter.is_ascii_alphabetic(),
        [_, letter, b'|', end, ..] => {
            letter.is_ascii_alphabetic() && (*end == b'/' || *end == b'\\')
        }
        _ => false,
    }
}

fn is_canonical_other(url: &Url) -> bool
    ensures { result ≡ spec.is_canonical_other url.now }
{
    !is_on_ipv4(url) && !ends_in_space(url.as_str()) && !ends_in_space(url.path())
}

fn is_on_ipv4(url: &Url) -> bool
    ensures { result ≡ spec.is_ipv4 (host_or_empty url.now) }
{
    matches!(url.host(), Some(Host::Ipv4(_)))
}

fn ends_in_space(text: &str) -> bool
    ensures { result ≡ path.ends_in_space text.now }
{
    matches!(text.as_bytes(), [.., b' '])
}
