//! The text of a file URL, and the URL that is read from it.
ghost use Rattle.std.specs.Prelude.{◌≡◌, [], ◌++◌, codes, None, IfOk, OnOk, string_bytes};
ghost use Rattle.std.specs.List.{flat_map};
ghost use Rattle.lexical_path.specs.Paths.{texts};
ghost use Rattle.file_url.specs.declared.errors.PathToUrlError.TheVariants.{OutOfMemory};
ghost use Rattle.file_url.specs.Expected.{IsExpected};
ghost use Rattle.file_url.specs.FileUrls as spec;

use crate::errors::PathToUrlError;
use crate::sets::NAME;
use percent_encoding::utf8_percent_encode;
use std::alloc::{AllocError, Global};
use url::Url;

/// The URL of a host and the names of a path.
pub fn file_url(
    alloc: Global,
    host: &str,
    folder: bool,
    names: &[&str],
) -> Result<Url, PathToUrlError>
    ensures { IsExpected OutOfMemory result (spec.file_url host.now folder (texts names.now)) }
{
    let text = file_text(alloc, host, folder, names)?;
    match Url::parse(alloc, text.as_str()) {
        Ok(url) => Ok(url),
        // The text is never refused, so memory ran out.
        Err(_) => Err(PathToUrlError::OutOfMemory),
    }
}

#[tactic(auto, unfolding(crate::specs::FileUrls::escaped_path))]
fn file_text(alloc: Global, host: &str, folder: bool, names: &[&str]) -> Result<String, AllocError>
    ensures { IfOk result (λ s. string_bytes s ≡ spec.file_text host.now folder (texts names.now)) }
{
    let mut text = String::from_str(alloc, "file://")?;
    text.push_str(host)?;
    push_names(&mut text, names)?;
    if names.is_empty() || folder {
        text.push_str("/")?;
    }
    Ok(text)
}

fn push_names(text: &mut String, names: &[&str]) -> Result<(), AllocError>
    ensures { OnOk result (string_bytes text.new
        ≡ string_bytes text.old ++ flat_map spec.escaped (texts names.now)) }
{
    for name in names {
        push_name(text, name)?;
    }
    Ok(())
}

fn push_name(text: &mut String, name: &str) -> Result<(), AllocError>
    ensures { OnOk result (string_bytes text.new ≡ string_bytes text.old ++ spec.escaped name.now) }
{
    text.push_str("/")?;
    utf8_percent_encode(name, NAME).append_to(text)
}
