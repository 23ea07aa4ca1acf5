//! Sites in comments.
ghost use Rattle.std.specs.Prelude.{◌≡◌, ◌++◌, IfOk};
ghost use Rattle.source_reading.specs.Read as spec;

use base::Items;
use es_references::references;
use es_site::Site;
use es_token::{Comment, Token};
use media_type::MediaType;
use std::alloc::{AllocError, Global};

/// Comments of typed sources alone refer.
pub fn references_in(
    alloc: Global,
    media_type: MediaType,
    tokens: &[Token],
    comments: &[Comment],
) -> Result<Items<Site>, AllocError>
    ensures { IfOk result (λ found. found ≡ spec.references_in media_type tokens.now comments.now) }
{
    if media_type.is_typed() {
        references(alloc, tokens, comments)
    } else {
        Ok(Items::new(alloc))
    }
}

/// The sites, and then more.
pub fn with_sites(found: Items<Site>, more: Items<Site>) -> Result<Items<Site>, AllocError>
    ensures { IfOk result (λ all. all ≡ found ++ more) }
{
    if found.is_empty() {
        return Ok(more);
    }
    let mut all = found;
    for site in more.into_vec() {
        all.push(site)?;
    }
    Ok(all)
}
