//! The syntax of a source.
ghost use Rattle.std.specs.Prelude.{◌≡◌};
ghost use Rattle.deno_ast.specs.Source as spec;
ghost use Rattle.source_reading.specs.Tree.{language_of};

use grammar_theory::Lang;
use media_type::MediaType;

/// What a source is read as.
#[derive(Clone, Copy, Debug, PartialEq, Eq)]
pub enum Syntax {
    /// ECMAScript alone.
    Es,
    /// ECMAScript with the types and declarations of TypeScript.
    Typescript,
    /// ECMAScript alone: elements of JSX and decorators have no row yet.
    Jsx,
    /// TypeScript: elements of JSX and decorators have no row yet.
    Tsx,
    /// TypeScript with assertions that precede what is asserted, such as `<a>b`; decorators have no row yet.
    Wide,
}

/// The syntax of sources of this media type: that of TypeScript exactly for typed ones.
pub fn get_syntax(media_type: MediaType) -> Syntax
    ensures { spec.lang_of result ≡ language_of media_type }
{
    if media_type.is_typed() {
        Syntax::Typescript
    } else {
        Syntax::Es
    }
}

/// The language that was asked for, else that of the media type.
pub fn lang_in(syntax: Option<Syntax>, media_type: MediaType) -> Lang
    ensures { result ≡ spec.lang_in syntax media_type }
{
    lang_of(syntax.unwrap_or(get_syntax(media_type)))
}

fn lang_of(syntax: Syntax) -> Lang
    ensures { result ≡ spec.lang_of syntax }
{
    match syntax {
        Syntax::Es => Lang::Es,
        Syntax::Typescript => Lang::Typescript,
        Syntax::Jsx => Lang::Jsx,
        Syntax::Tsx => Lang::Tsx,
        Syntax::Wide => Lang::Wide,
    }
}
