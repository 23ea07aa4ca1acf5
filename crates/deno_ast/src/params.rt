//! What is to be parsed, and how.
ghost use Rattle.std.specs.Prelude.{◌≡◌};
ghost use Rattle.source_text.specs.module_text.ModuleText.{without_mark as unmarked};
ghost use Rattle.deno_ast.specs.Steps.{with_text};

use crate::syntax::Syntax;
use media_type::MediaType;
use source_text::SourceText;
use url::Url;

/// What is to be parsed, and how.
#[derive(Drop)]
pub struct ParseParams {
    pub specifier: Url,
    /// One byte order mark at its front is left out.
    pub text: SourceText,
    pub media_type: MediaType,
    /// Whether the tokens are kept.
    pub capture_tokens: bool,
    /// Whether the scope numbers of names are kept.
    pub scope_analysis: bool,
    /// The syntax, where it isn't that of the media type.
    pub maybe_syntax: Option<Syntax>,
}

/// The parameters, less one byte order mark at the text's front.
pub fn without_bom(params: ParseParams) -> ParseParams
    ensures { result ≡ with_text params (unmarked params.text) }
{
    ParseParams {
        text: params.text.without_mark(),
        ..params
    }
}
