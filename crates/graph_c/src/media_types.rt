//! Media types by their numbers in `include/joravelsu.h`.
ghost use Rattle.std.specs.Prelude.{◌≡◌};
ghost use Rattle.graph_c.specs.MediaTypes.{media_type_at};

use media_type::MediaType;

/// The media type of this number.
pub fn media_type_at(number: u32) -> Option<MediaType>
    ensures { result ≡ media_type_at number }
{
    match number {
        0 => Some(MediaType::Dts),
        1 => Some(MediaType::Dmts),
        2 => Some(MediaType::Dcts),
        3 => Some(MediaType::TypeScript),
        4 => Some(MediaType::Mts),
        5 => Some(MediaType::Cts),
        6 => Some(MediaType::Tsx),
        7 => Some(MediaType::JavaScript),
        8 => Some(MediaType::Mjs),
        9 => Some(MediaType::Cjs),
        10 => Some(MediaType::Jsx),
        11 => Some(MediaType::Json),
        12 => Some(MediaType::Wasm),
        _ => None,
    }
}
