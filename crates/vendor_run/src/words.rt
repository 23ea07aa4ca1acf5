//! The words that name a folder.
ghost use Rattle.std.specs.Prelude.{◌≡◌, ◌↔◌, ℕ, nat_eq, List, [], ◌∷◌, None, MatchOption, IfOk, IfErr, IfSome, IsTrue, map, string_bytes, codes};
ghost use Rattle.std.specs.List.{ends_with};
ghost use Rattle.url.specs.Parts.{Parts};
ghost use Rattle.vendor_run.specs.Words.{IsFolder, IsVendor, NamesFolder};

use std::alloc::{AllocError, Global};
use url::{ParseError, Url};

/// The folder that the arguments `vendor BASE` name. Other arguments allocate nothing.
pub fn folder_of(alloc: Global, words: &[String]) -> Result<Option<Url>, AllocError>
    ensures folder { IfOk result (λ found. MatchOption found
        ((base : Parts) → ¬ IsVendor base (map string_bytes words.now)) (λ base. IsVendor base (map string_bytes words.now))) }
    ensures memory { IfErr result (λ _. (word : List ℕ) × NamesFolder word (map string_bytes words.now)) }
{
    match words {
        [word, base] => named_folder(alloc, word.as_str(), base.as_str()),
        _ => Ok(None),
    }
}

fn named_folder(alloc: Global, word: &str, base: &str) -> Result<Option<Url>, AllocError>
    ensures folder { IfOk result (λ found. MatchOption found
        ((url : Parts) → ¬ IsVendor url (word.now ∷ base.now ∷ [])) (λ url. IsVendor url (word.now ∷ base.now ∷ []))) }
    ensures memory { IfErr result (λ _. word.now ≡ codes "vendor") }
{
    match word {
        "vendor" => folder_at(alloc, base),
        _ => Ok(None),
    }
}

/// The folder that a text is the URL of.
fn folder_at(alloc: Global, base: &str) -> Result<Option<Url>, AllocError>
    ensures { IfOk result (λ found. MatchOption found
        ((url : Parts) → ¬ IsVendor url (codes "vendor" ∷ base.now ∷ [])) (λ url. IsVendor url (codes "vendor" ∷ base.now ∷ []))) }
{
    match Url::parse(alloc, base) {
        Ok(url) => Ok(if_folder(url)),
        Err(ParseError::OutOfMemory | ParseError::Overflow) => Err(AllocError),
        Err(_) => Ok(None),
    }
}

fn if_folder(url: Url) -> Option<Url>
    ensures none { result ≡ None → ¬ IsFolder url }
    ensures some { IfSome result (λ folder. (folder ≡ url) × IsFolder url) }
{
    if is_folder(&url) { Some(url) } else { None }
}

/// Whether the URL is that of a folder.
fn is_folder(url: &Url) -> bool
    ensures { IsTrue result ↔ IsFolder url.now }
{
    url.scheme() == "file"
        && url.query().is_none()
        && url.fragment().is_none()
        && ends(url.path(), "/")
}

fn ends(text: &str, back: &str) -> bool
    ensures { result ≡ ends_with nat_eq text.now back.now }
{
    text.ends_with(back)
}
