//! The media types.
ghost use Rattle.std.specs.Prelude.{◌≡◌};
ghost use Rattle.media_type.specs.MediaType.{kind_of, is_typed, is_javascript, name_of};

/// What a module is, as its specifier's path and its content type tell.
#[derive(Clone, Copy, Debug, PartialEq, Eq)]
pub enum MediaType {
    Dts,
    Dmts,
    Dcts,
    TypeScript,
    Mts,
    Cts,
    Tsx,
    JavaScript,
    Mjs,
    Cjs,
    Jsx,
    Json,
    Jsonc,
    Json5,
    Wasm,
    Css,
    Html,
    Markdown,
    Sql,
    SourceMap,
    Unknown,
}

/// How a module is read.
#[derive(Clone, Copy, Debug, PartialEq, Eq)]
pub enum ModuleKind {
    /// As TypeScript or JavaScript.
    Source,
    Json,
    Wasm,
}

impl MediaType {
    /// How a module of this media type is read. Of the other media types there are no modules.
    pub fn kind(self) -> Option<ModuleKind>
        ensures { result ≡ kind_of self }
    {
        match self {
            MediaType::Dts
            | MediaType::Dmts
            | MediaType::Dcts
            | MediaType::TypeScript
            | MediaType::Mts
            | MediaType::Cts
            | MediaType::Tsx
            | MediaType::JavaScript
            | MediaType::Mjs
            | MediaType::Cjs
            | MediaType::Jsx => Some(ModuleKind::Source),
            MediaType::Json => Some(ModuleKind::Json),
            MediaType::Wasm => Some(ModuleKind::Wasm),
            MediaType::Jsonc
            | MediaType::Json5
            | MediaType::Css
            | MediaType::Html
            | MediaType::Markdown
            | MediaType::Sql
            | MediaType::SourceMap
            | MediaType::Unknown => None,
        }
    }

    /// Whether a source of this media type is read as TypeScript.
    pub fn is_typed(self) -> bool
        ensures { result ≡ is_typed self }
    {
        matches!(
            self,
            MediaType::TypeScript
                | MediaType::Mts
                | MediaType::Cts
                | MediaType::Tsx
                | MediaType::Dts
                | MediaType::Dmts
                | MediaType::Dcts
        )
    }

    /// Whether it is one of the media types of JavaScript.
    pub fn is_javascript(self) -> bool
        ensures { result ≡ is_javascript self }
    {
        matches!(
            self,
            MediaType::JavaScript | MediaType::Mjs | MediaType::Cjs | MediaType::Jsx
        )
    }

    /// The variant's name, as reports write it.
    pub fn name(self) -> &'static str
        ensures { result.now ≡ name_of self }
    {
        match self {
            MediaType::Dts => "Dts",
            MediaType::Dmts => "Dmts",
            MediaType::Dcts => "Dcts",
            MediaType::TypeScript => "TypeScript",
            MediaType::Mts => "Mts",
            MediaType::Cts => "Cts",
            MediaType::Tsx => "Tsx",
            MediaType::JavaScript => "JavaScript",
            MediaType::Mjs => "Mjs",
            MediaType::Cjs => "Cjs",
            MediaType::Jsx => "Jsx",
            MediaType::Json => "Json",
            MediaType::Jsonc => "Jsonc",
            MediaType::Json5 => "Json5",
            MediaType::Wasm => "Wasm",
            MediaType::Css => "Css",
            MediaType::Html => "Html",
            MediaType::Markdown => "Markdown",
            MediaType::Sql => "Sql",
            MediaType::SourceMap => "SourceMap",
            MediaType::Unknown => "Unknown",
        }
    }
}
