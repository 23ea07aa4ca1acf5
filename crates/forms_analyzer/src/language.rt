//! The language of a source, by choice.
ghost use Rattle.std.specs.Prelude.{◌≡◌};
ghost use Rattle.forms_analyzer.specs.Forms as spec;

use grammar_theory::Lang;
use media_type::MediaType;

fn is_tsx(media_type: MediaType) -> bool
    ensures { result ≡ spec.is_tsx media_type }
{
    matches!(media_type, MediaType::Tsx)
}

/// The language of sources of this media type in which all forms are read.
pub fn full_language(media_type: MediaType) -> Lang
    ensures { result ≡ spec.full_language media_type }
{
    if media_type.is_typed() {
        if is_tsx(media_type) {
            Lang::Tsx
        } else {
            Lang::Wide
        }
    } else {
        Lang::Jsx
    }
}
