//! Media types by the ending of a path.
ghost use Rattle.std.specs.Prelude.{◌≡◌, IfOk, nat_eq, map, true};
ghost use Rattle.std.specs.List.{ends_with};
ghost use Rattle.std.specs.Char.{to_ascii_lowercase};
ghost use Rattle.std.specs.Str.{str_to_ascii_lowercase};
ghost use Rattle.media_type.specs.Endings.{media_type_of};
ghost use Rattle.media_type.specs.Steps.{ending_of};
ghost use Rattle.media_type.specs.Endings as spec;

use crate::media_type::MediaType;
use std::alloc::{AllocError, Global};

struct Ending {
    text: &'static str,
    media_type: MediaType,
}

static ENDINGS: [Ending; 20] = [
    Ending {
        text: ".d.ts",
        media_type: MediaType::Dts,
    },
    Ending {
        text: ".d.mts",
        media_type: MediaType::Dmts,
    },
    Ending {
        text: ".d.cts",
        media_type: MediaType::Dcts,
    },
    Ending {
        text: ".ts",
        media_type: MediaType::TypeScript,
    },
    Ending {
        text: ".mts",
        media_type: MediaType::Mts,
    },
    Ending {
        text: ".cts",
        media_type: MediaType::Cts,
    },
    Ending {
        text: ".tsx",
        media_type: MediaType::Tsx,
    },
    Ending {
        text: ".js",
        media_type: MediaType::JavaScript,
    },
    Ending {
        text: ".mjs",
        media_type: MediaType::Mjs,
    },
    Ending {
        text: ".cjs",
        media_type: MediaType::Cjs,
    },
    Ending {
        text: ".jsx",
        media_type: MediaType::Jsx,
    },
    Ending {
        text: ".json",
        media_type: MediaType::Json,
    },
    Ending {
        text: ".jsonc",
        media_type: MediaType::Jsonc,
    },
    Ending {
        text: ".json5",
        media_type: MediaType::Json5,
    },
    Ending {
        text: ".wasm",
        media_type: MediaType::Wasm,
    },
    Ending {
        text: ".css",
        media_type: MediaType::Css,
    },
    Ending {
        text: ".html",
        media_type: MediaType::Html,
    },
    Ending {
        text: ".md",
        media_type: MediaType::Markdown,
    },
    Ending {
        text: ".sql",
        media_type: MediaType::Sql,
    },
    Ending {
        text: ".map",
        media_type: MediaType::SourceMap,
    },
];

impl MediaType {
    /// The media type that a URL's path gives, capital letters of ASCII counting as small ones.
    pub fn of_path(alloc: Global, path: &str) -> Result<MediaType, AllocError>
        ensures { IfOk result (λ m. m ≡ media_type_of path.now) }
    {
        if has_no_capital(path.as_bytes()) {
            return Ok(small_ending(path));
        }
        lowered_ending(alloc, path)
    }
}

/// The media type of a path by a copy in small letters.
fn lowered_ending(alloc: Global, path: &str) -> Result<MediaType, AllocError>
    ensures { IfOk result (λ m. m ≡ media_type_of path.now) }
{
    let mut lowered = String::from_str(alloc, path)?;
    lowered.make_ascii_lowercase();
    Ok(first_ending(&ENDINGS, lowered.as_str()))
}

/// The media type of a path in small letters.
#[tactic(auto, unfolding(crate::specs::Endings::media_type_of))]
fn small_ending(path: &str) -> MediaType
    requires { str_to_ascii_lowercase path.now ≡ path.now }
    ensures { result ≡ media_type_of path.now }
{
    first_ending(&ENDINGS, path)
}

fn has_no_capital(bytes: &[u8]) -> bool
    ensures { result ≡ true → map to_ascii_lowercase bytes.now ≡ bytes.now }
{
    for byte in bytes {
        if !is_no_capital(*byte) {
            return false;
        }
    }
    true
}

fn is_no_capital(byte: u8) -> bool
    ensures { result ≡ true → to_ascii_lowercase byte ≡ byte }
{
    byte.to_ascii_lowercase() == byte
}

fn first_ending(rows: &[Ending], lowered: &str) -> MediaType
    ensures { result ≡ spec.first_ending (map ending_of rows.now) lowered.now }
{
    for row in rows {
        if has_ending(lowered, row.text) {
            return row.media_type;
        }
    }
    MediaType::Unknown
}

pub fn has_ending(text: &str, ending: &str) -> bool
    ensures { result ≡ ends_with nat_eq text.now ending.now }
{
    text.ends_with(ending)
}
