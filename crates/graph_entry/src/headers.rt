//! Headers of a loader's answer.
ghost use Rattle.std.specs.Prelude.{◌≡◌, [], IfOk, OnOk, string_bytes};
ghost use Rattle.std.specs.Prelude.{codes};
ghost use Rattle.std.specs.Option.{option_copied};
ghost use Rattle.graph_entry.specs.Headers.{headers_of, header_value, with_header, with_headers};

use std::alloc::{AllocError, Global};
use std::collections::BTreeMap;
use std::marker::Model;

/// Headers of a loader's answer by their names, which are in lower case. Contracts see their entries.
#[derive(Debug, Drop)]
pub struct Headers {
    entries: BTreeMap<String, String>,
}

impl Model for Headers {
    ghost use Rattle.std.specs.Prelude.{ℕ, List};
    ghost use Rattle.graph_entry.specs.Headers.{headers_of};

    ghost Value = { List (List ℕ × List ℕ) };

    ghost view = { λ h. headers_of h.entries.entries };
}

impl Headers {
    pub fn new(alloc: Global) -> Headers
        ensures { result ≡ [] }
    {
        Headers {
            entries: BTreeMap::new(alloc),
        }
    }

    /// The headers of a map, whose names may be in any case. Of two names that are one in lower case, the one that
    /// is greater by its bytes as written counts.
    pub fn from_map(alloc: Global, map: BTreeMap<String, String>) -> Result<Headers, AllocError>
        ensures { IfOk result (λ h. h ≡ with_headers [] (headers_of map.entries)) }
    {
        let mut headers = Headers::new(alloc);
        for (name, value) in map {
            headers.insert(alloc, name.as_str(), value)?;
        }
        Ok(headers)
    }

    /// Adds a header, whose name may be in any case. An equal name takes the new value.
    pub fn insert(&mut self, alloc: Global, name: &str, value: String) -> Result<(), AllocError>
        ensures { OnOk result (self.new ≡ with_header self.old name.now (string_bytes value)) }
    {
        let name = name.to_ascii_lowercase(alloc)?;
        drop(self.entries.insert(name, value)?);
        Ok(())
    }

    pub fn as_map(&self) -> &BTreeMap<String, String>
        ensures { headers_of result.now.entries ≡ self.now }
    {
        &self.entries
    }

    /// The value of the header `content-type`.
    pub fn content_type(&self) -> Option<&str>
        ensures { option_copied result ≡ header_value (codes "content-type") self.now }
    {
        match self.entries.get("content-type") {
            Some(value) => Some(value.as_str()),
            None => None,
        }
    }

    pub fn copy(&self) -> Result<Headers, AllocError>
        ensures { IfOk result (λ h. h ≡ self.now) }
    {
        Ok(Headers {
            entries: self.entries.clone()?,
        })
    }
}
