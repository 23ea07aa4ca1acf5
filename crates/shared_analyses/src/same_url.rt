//! Whether two URLs are the same, part by part.
ghost use Rattle.std.specs.Prelude.{◌≡◌, ◌↔◌, IsTrue, option_map};
ghost use Rattle.std.specs.Option.{option_copied};
ghost use Rattle.url.specs.Host.{borrowed_host};
ghost use Rattle.shared_analyses.specs.Same.{HaveSameFronts, HaveSameHosts, HaveSameEnds};

use url::{Host, Url};

/// Whether two URLs are the same. Contracts see a URL as its parts, so that their texts alone don't tell.
#[tactic(auto, using(crate::proofs::SameLemmas::same_urls))]
pub fn are_same_urls(url: &Url, other: &Url) -> bool
    ensures { IsTrue result ↔ (url.now ≡ other.now) }
{
    have_same_fronts(url, other) && have_same_hosts(url, other) && have_same_ends(url, other)
}

fn have_same_fronts(url: &Url, other: &Url) -> bool
    ensures { IsTrue result ↔ HaveSameFronts url.now other.now }
{
    url.scheme() == other.scheme()
        && url.username() == other.username()
        && have_same_passwords(url, other)
}

fn have_same_passwords(url: &Url, other: &Url) -> bool
    ensures { IsTrue result ↔ (url.now.password ≡ other.now.password) }
{
    are_same_texts(url.password(), other.password())
}

fn have_same_hosts(url: &Url, other: &Url) -> bool
    ensures { IsTrue result ↔ HaveSameHosts url.now other.now }
{
    url.has_authority() == other.has_authority()
        && are_same_hosts(url.host(), other.host())
        && url.port() == other.port()
}

fn have_same_ends(url: &Url, other: &Url) -> bool
    ensures { IsTrue result ↔ HaveSameEnds url.now other.now }
{
    url.path() == other.path()
        && are_same_texts(url.query(), other.query())
        && are_same_texts(url.fragment(), other.fragment())
}

fn are_same_texts(text: Option<&str>, other: Option<&str>) -> bool
    ensures { IsTrue result ↔ (option_copied text.entry ≡ option_copied other.entry) }
{
    match (text, other) {
        (Some(text), Some(other)) => text == other,
        (None, None) => true,
        (Some(_), None) | (None, Some(_)) => false,
    }
}

fn are_same_hosts(host: Option<Host<&str>>, other: Option<Host<&str>>) -> bool
    ensures { IsTrue result ↔ (option_map borrowed_host host.entry ≡ option_map borrowed_host other.entry) }
{
    match (host, other) {
        (Some(Host::Domain(name)), Some(Host::Domain(other))) => name == other,
        (Some(Host::Ipv4(address)), Some(Host::Ipv4(other))) => address == other,
        (Some(Host::Ipv6(address)), Some(Host::Ipv6(other))) => address == other,
        (None, None) => true,
        (Some(Host::Domain(_) | Host::Ipv4(_) | Host::Ipv6(_)) | None, _) => false,
    }
}
