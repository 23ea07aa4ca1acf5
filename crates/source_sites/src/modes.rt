//! How sources of a media type are read.
ghost use Rattle.std.specs.Prelude.{◌≡◌};
ghost use Rattle.source_reading.specs.Tree as spec;
ghost use Rattle.source_sites.specs.Modes.{modes_in};

use grammar_theory::{Lang, Mode};
use media_type::MediaType;

/// The modes that a media type allows.
#[derive(Clone, Copy)]
pub enum Modes {
    Only(Mode),
    ScriptFirst,
}

/// The modes in which a source of this media type may be read.
pub fn modes_of(media_type: MediaType) -> Modes
    ensures { modes_in result ≡ spec.modes_of media_type }
{
    match media_type {
        MediaType::Cjs => Modes::Only(Mode::Script),
        MediaType::Cts | MediaType::Mjs | MediaType::Mts => Modes::Only(Mode::Module),
        _ => Modes::ScriptFirst,
    }
}

/// The language of sources of this media type: TypeScript exactly for typed ones.
pub fn language_of(media_type: MediaType) -> Lang
    ensures { result ≡ spec.language_of media_type }
{
    if media_type.is_typed() {
        Lang::Typescript
    } else {
        Lang::Es
    }
}
