//! Media types by a content type.
ghost use Rattle.std.specs.Prelude.{◌≡◌, IfOk, nat_eq, bytes_eq, map};
ghost use Rattle.std.specs.List.{ends_with};
ghost use Rattle.media_type.specs.ContentTypes.{with_content_type};
ghost use Rattle.media_type.specs.ContentTypes as spec;
ghost use Rattle.media_type.specs.Steps.{content_type_of};

use crate::endings::has_ending;
use crate::media_type::MediaType;
use crate::mime_essence::essence_of;
use std::alloc::{AllocError, Global};

/// What a content type says of the media type.
#[derive(Clone, Copy)]
pub enum ContentRule {
    /// It is the path's.
    ByPath,
    /// It is the path's where that is typed, and else TypeScript.
    TypeScript,
    /// It is the path's where that is one of JavaScript, and else JavaScript.
    JavaScript,
    Only(MediaType),
}

pub struct ContentType {
    pub text: &'static str,
    pub rule: ContentRule,
}

static CONTENT_TYPES: [ContentType; 18] = [
    ContentType {
        text: "text/plain",
        rule: ContentRule::ByPath,
    },
    ContentType {
        text: "application/octet-stream",
        rule: ContentRule::ByPath,
    },
    ContentType {
        text: "application/typescript",
        rule: ContentRule::TypeScript,
    },
    ContentType {
        text: "text/typescript",
        rule: ContentRule::TypeScript,
    },
    ContentType {
        text: "application/x-typescript",
        rule: ContentRule::TypeScript,
    },
    ContentType {
        text: "video/mp2t",
        rule: ContentRule::TypeScript,
    },
    ContentType {
        text: "video/vnd.dlna.mpeg-tts",
        rule: ContentRule::TypeScript,
    },
    ContentType {
        text: "application/javascript",
        rule: ContentRule::JavaScript,
    },
    ContentType {
        text: "text/javascript",
        rule: ContentRule::JavaScript,
    },
    ContentType {
        text: "application/ecmascript",
        rule: ContentRule::JavaScript,
    },
    ContentType {
        text: "text/ecmascript",
        rule: ContentRule::JavaScript,
    },
    ContentType {
        text: "application/x-javascript",
        rule: ContentRule::JavaScript,
    },
    ContentType {
        text: "application/node",
        rule: ContentRule::JavaScript,
    },
    ContentType {
        text: "text/jsx",
        rule: ContentRule::Only(MediaType::Jsx),
    },
    ContentType {
        text: "text/tsx",
        rule: ContentRule::Only(MediaType::Tsx),
    },
    ContentType {
        text: "application/json",
        rule: ContentRule::Only(MediaType::Json),
    },
    ContentType {
        text: "text/json",
        rule: ContentRule::Only(MediaType::Json),
    },
    ContentType {
        text: "application/wasm",
        rule: ContentRule::Only(MediaType::Wasm),
    },
];

impl MediaType {
    /// The media type of content with this header `content-type`, where its specifier's path gives `self`.
    /// Capital letters of ASCII count as small ones.
    #[tactic(auto, unfolding(crate::specs::ContentTypes::with_content_type))]
    pub fn with_content_type(self, alloc: Global, header: &str) -> Result<MediaType, AllocError>
        ensures { IfOk result (λ m. m ≡ with_content_type self header.now) }
    {
        let essence = essence_of(header).to_ascii_lowercase(alloc)?;
        Ok(by_rule(self, first_rule(&CONTENT_TYPES, essence.as_str())))
    }
}

fn first_rule(rows: &[ContentType], essence: &str) -> ContentRule
    ensures { result ≡ spec.first_rule (map content_type_of rows.now) essence.now }
{
    for row in rows {
        if is_same(essence, row.text) {
            return row.rule;
        }
    }
    other_rule(essence)
}

fn is_same(text: &str, other: &str) -> bool
    ensures { result ≡ bytes_eq text.now other.now }
{
    text == other
}

// Of a content type that has no row.
fn other_rule(essence: &str) -> ContentRule
    ensures { result ≡ spec.other_rule essence.now }
{
    if has_ending(essence, "+json") {
        ContentRule::Only(MediaType::Json)
    } else {
        ContentRule::Only(MediaType::Unknown)
    }
}

fn by_rule(by_path: MediaType, rule: ContentRule) -> MediaType
    ensures { result ≡ spec.by_rule by_path rule }
{
    match rule {
        ContentRule::ByPath => by_path,
        ContentRule::TypeScript if by_path.is_typed() => by_path,
        ContentRule::TypeScript => MediaType::TypeScript,
        ContentRule::JavaScript if by_path.is_javascript() => by_path,
        ContentRule::JavaScript => MediaType::JavaScript,
        ContentRule::Only(media_type) => media_type,
    }
}
